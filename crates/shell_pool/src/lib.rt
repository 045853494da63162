//! Clients of one engine, on one lock or on three, each on a thread of its own, and the text of what they read and leave.
//!
//! Knows: what each client does, when the data component crashes beside them, and the text of how it ended.
//! Must not know: how the engine serves its clients, or what its text is written to.
//! Promises the program above that what is written is each client's value and then the records, or the line of one
//! refusal, and that the exit status says which.
#![tactic(auto)]

mod client;
mod clients;
mod holding;
mod monitored;
mod pool_run;
mod pooled;
mod shown;
mod words;

pub use pool_run::{Locks, pool};
