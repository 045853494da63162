//! What a session asks for, how a call of its ended, and what it answers then; and the calls of both engines, as traits.
//!
//! Knows: the entries of a call and of what told of it.
//! Must not know: threads, locks, or who makes the steps of a call.
//! Promises the next crate: an answer is what the line that was told says to the call; a refusal is the entry's, or what a
//! step of the call failed by, or nothing that answers the call is told of it any more.
#![tactic(auto)]

mod answers;
mod ask;
mod calls;
mod ended;
mod told;

pub use answers::{
    answer_told, back_told, begun, carried_told, commit_told, rollback_told, row_told, rows_told,
    saved,
};
pub use ask::Ask;
pub use calls::{Calls, Commands};
pub use ended::{Ended, Unfinished, bar, left_by};
pub use told::Told;

// What a crate above names of those below.
pub use engine_history;
pub use engine_history::node_laws;
