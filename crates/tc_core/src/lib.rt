//! The transaction component: it logs, rolls back and answers by records and keys, and knows no pages.
//!
//! Knows: the records of the log, which logs are legal, the inverse of an operation, and the messages.
//! Must not know: leaves, how a request is performed, or how often a message arrives.
//! Promises the next crates: its log is legal at every moment; what each call appends, changes and answers is
//! a stated function of what was seen before; a refused call changes nothing and names the first cause.
#![tactic(auto)]

mod acting;
mod change;
mod forcing;
mod laws;
mod locking;
mod losing;
mod low_water;
mod open_txn;
mod open_txns;
mod opening;
mod parts;
mod phase;
mod replies;
mod requests;
mod sending;
mod sessions;
mod taking;
mod tc;
mod told;
mod transactions;
mod undoing;

pub use laws::{crashed_law, opened_again_law, opened_law};
pub use open_txn::{OpenTxn, Read, Rollback};
pub use phase::Phase;
pub use tc::Tc;
pub use told::{Committed, Connecting, Forced, Heard, RecoverStep, Told, UndoStep};
