//! Calls of a node's clients on threads, over one lock.
//!
//! Knows: how a session's call is made and carried on in holds of the lock, how it ended, and what that answers.
//! Must not know: how either half of the node keeps its state, or by which steps a call is carried on.
//! Promises the next crate: a call that was made is one more of the session's list, with what was told of it.
#![tactic(auto)]

mod answers;
mod asking;
mod batch;
mod calls;
mod client;
mod ended;
mod engine;
mod generic;
mod held;
mod known;
mod opened;
mod renewing;
mod resting;
mod session;
mod session_states;
mod shared;
mod sort;
mod turn;

pub use batch::{BatchRefused, RefusedAct};
pub use engine::Engine;
pub use engine_guarded::Closed;
pub use engine_guarded::engine_answers::{Calls, Commands};
pub use engine_guarded::engine_history::Naming;
pub use opened::Opened;
pub use renewing::Unrenewed;
pub use session::Session;

// What a crate above names of those below.
pub use engine_guarded;
