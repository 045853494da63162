//! A client's calls of an engine.
//!
//! Knows: by which steps a call is carried on, and what was told of it.
//! Must not know: how either half of the node keeps its state, or who else shares the node.
//! Promises the next crates: a session's calls in the history are just those that the session made, each with what
//! it was answered.
#![tactic(auto)]

mod ahead;
mod calls;
mod session;

pub use session::Session;

// What a crate above names of those below.
pub use engine_shared;
pub use engine_shared::{engine_answers, engine_history};
