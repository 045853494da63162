//! A node that threads share, under three locks.
//!
//! Knows: which lock is taken when, how a session's call is entered and carried on, and how requests are served.
//! Must not know: how either half of the node keeps its state, who has a session, or whose thread it is.
//! Promises the next crate: a call is entered once, and what is told of it is what the entries tell; what fails of it
//! leaves it unfinished, to be carried on.
#![tactic(auto)]

mod access;
mod after;
mod calls;
mod freeing;
mod monitor;
mod rounds;
mod shared;
mod steps;
mod worker;

pub use access::Access;
pub use monitor::Job;
pub use shared::Shared;
pub use worker::work;

// What a crate above names of those below.
pub use engine_answers;
pub use engine_answers::engine_history;
