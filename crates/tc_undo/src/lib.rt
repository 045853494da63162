//! What a rollback undoes next, and the savepoints that bound it.
//!
//! Knows: the records of the log and how they are chained.
//! Must not know: locks, sessions, how a compensation is performed.
//! Promises the next crates: the compensation that is written next fits the log and names the transaction's latest
//! operation that none names yet; none is written once no operation above the bound is left; a savepoint is the
//! log's end when it was set, and going back to one drops the later ones and no other.
#![tactic(auto)]

mod saves;
mod undo_chain;

pub use saves::Saves;
pub use tc_log::Compensated;
pub use undo_chain::{Chain, Next, append_undo, next_undo};
