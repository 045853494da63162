//! For tests: a slow and plain reading of what a script prints.
//!
//! Knows: the lines that the shell writes.
//! Must not know: the shell, or how a node keeps what it shows.
//! Promises the program of tests nothing that is proved.
#![tactic(auto)]

mod eight_bytes;
mod plain_table;
mod reading;
mod told;

pub use reading::{fault_in, word};
pub use told::told_lines;
