//! A log of frames: what the logs of both components have in common, whatever their records are.
//!
//! Knows: frames one after another as bytes, and what a crash may leave of a device's bytes.
//! Must not know: what a record says, which records fit which log, or who appends them.
//! Promises the next crates: bytes hold the frames of one log at most; a crash leaves whole frames and perhaps a cut
//! one; what is read at the places of a log's frames is the log; bytes that hold a log aren't bad at any place; a
//! device's error has one refusal.
#![tactic(auto)]

mod refusal;

pub use refusal::refusal_of;
