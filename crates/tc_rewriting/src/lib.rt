//! The transaction log is written anew: the rows of a table, on an empty device.
//!
//! Knows: which records write a row, that they fit, and what the log tells that they make.
//! Must not know: where the rows are from, where the device keeps its bytes, and when a log is written anew.
//! Promises the next crates: what the device has then is one log, in which every transaction has ended, and which tells
//! of just the table whose rows these are.
#![tactic(auto)]

mod laws;
mod writing;

pub use laws::{insert_law, rewriting_law, writing_law};
pub use writing::{rewrite, write_rows};
