//! Clients of a node on threads.
//!
//! Knows: what an engine is made of and what it leaves, its sessions and its threads.
//! Must not know: how either half of the node keeps its state, or by which steps a call is carried on.
//! Promises: what its threads write down is a run of the node, in which each session's calls are just those that
//! the session made, each with what it was answered.
#![tactic(auto)]

mod assembly;
mod closed;
mod commands;
mod engine;
mod opened;
mod session_states;

pub use closed::Closed;
pub use engine::Engine;
pub use engine_sessions::Session;
pub use engine_sessions::engine_answers::{Calls, Commands, Told};
pub use engine_sessions::engine_history::{Entry, Gate, Naming, Step};
pub use opened::Opened;
