//! Laws of legal logs: what restart and rollback rest on, with no node in sight.
//!
//! Knows: the definitions of `history`.
//! Must not know: any code that keeps or sends a log.
//! Promises the crates above the laws, each the contract of a function that does nothing, and for their
//! tests a slow checker of legal logs and the plain map of a log's history.
#![tactic(auto)]

mod conditions;
mod laws;
mod legal;
mod reader;
mod replay;

pub use laws::{
    add_request_law, answer_law, answered_law, beginning_law, bracket_law, cancel_law, chain_law,
    compensated_once_law, one_at_a_time_law, plain_history_law, settled_law, undo_chain_law,
};
pub use legal::{fits, is_legal};
pub use replay::plain_history;
