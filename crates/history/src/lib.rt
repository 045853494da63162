//! What is promised to clients, and what a log must be for the promise to hold: definitions alone.
//!
//! Knows: the list machine (one list of operations with the rolled-back ones crossed out), the records of
//! a transaction log, when a log is legal, and when a leaf is honest for it.
//! Must not know: how any of these is kept, sent, written or read.
//! Promises the crates above one meaning for each of these words. The laws of legal logs stand in `log_laws`.
#![tactic(auto)]

mod record;

pub use record::Record;
