//! The data component: leaves that outlive it in a log and in pages, and the session that they serve. What it has
//! performed is a list that contracts alone see.
//!
//! Knows: requests and replies, sessions, and leaves with what they capture.
//! Must not know: transactions, the transactions' log, compensation, locks, how messages come or go.
//! Promises the next crates: each number is performed once, however often it is sent; what a message of
//! another session or at another time comes to; that the records are what was performed; and that leaves are merged
//! only in a session past its redo.
#![tactic(auto)]

mod allowing;
mod asking;
mod base;
mod dc;
mod performance;
mod performances;
mod performing;
mod reading;
mod serving;
mod sessions;
mod system;
mod tending;

pub use dc::Dc;
pub use dc_store::{Device, Devices, Neighbours, Refused, Tended};
pub use performance::Performance;
