//! Short runs of the list machine, worked out line by line, beside wrong versions of them that are none.
//!
//! Knows: the list machine of `history`.
//! Must not know: logs, a node, any code that serves a client.
//! Promises a reader that the list machine says what it is meant to say: each run is the contract of a function that
//! does nothing.
#![tactic(auto)]

mod runs;

pub use runs::{
    busy_read_run, commit_crash_run, held_key_run, increment_refused_run, increment_undone_run,
    numbers_again_run, rollback_crash_run, rolled_back_run, savepoint_run, second_insert_run,
};
