//! A node under one lock, with what its clients' calls left.
//!
//! Knows: a node, and who called what.
//! Must not know: threads, what a client is answered, or how the node keeps its state.
//! Promises the next crate: what lies under the lock is what its steps leave, which are a run of the node; a session's
//! calls among them are just those that it made, each with the first line told of it.
#![tactic(auto)]

mod caller;
mod calling;
mod closed;
mod commands;
mod cutting;
mod easing;
mod entry;
mod guarded;
mod heard;
mod hearing;
mod noting;
mod pace;
mod place;
mod published;
mod rounds;
mod status;
mod stepping;

pub use caller::Caller;
pub use calling::Outs;
pub use closed::Closed;
pub use entry::Entry;
pub use guarded::Guarded;
pub use heard::Heard;
pub use place::Place;
pub use published::{Published, pushed};
pub use rounds::Kind;
pub use status::CallStatus;

// What a crate above names of those below.
pub use engine_answers;
pub use engine_history;
pub use node_world;
