//! What is left of performed requests once some of them are taken back.
//!
//! Knows: leaves and their entries, and what undoes an operation.
//! Must not know: logs, sessions, or who says from which number on requests are taken back.
//! Promises the next crates the laws, each the contract of a function that does nothing.
#![tactic(auto)]

mod laws;

pub use laws::{add_taken_back, kept_law, listed_law, performed_law};
