//! What clients on threads write down, and what lies under each lock.
//!
//! Knows: the two halves of a node, and who called what.
//! Must not know: threads, who waits for what, or how either half keeps its state.
//! Promises the next crate: the entries are a run of the node; a component under its lock is what the entries give that
//! it has seen; a session's calls are just those that it made, each with the first line told of it.
#![tactic(auto)]

mod caller;
mod copying;
mod entry;
mod event_history;
mod failure;
mod gate;
mod growth;
mod holding;
mod in_flight;
mod kept_event;
mod kept_out;
mod latched_dc;
mod latched_tc;
mod lent;
mod lines;
mod message;
mod naming;
mod next;
mod operator;
mod place;
mod published;
mod status;
mod step;
mod told;
mod trace;
mod tracing;
mod view;
mod wake_flags;

pub use caller::Caller;
pub use copying::copied_value;
pub use entry::Entry;
pub use event_history::EventHistory;
pub use failure::Failure;
pub use gate::Gate;
pub use holding::{hold, hold_soon};
pub use in_flight::InFlight;
pub use kept_event::KeptEvent;
pub use kept_out::{KeptOut, OutForm};
pub use latched_dc::LatchedDc;
pub use latched_tc::LatchedTc;
pub use lent::Lent;
pub use lines::{Lines, Unsent};
pub use message::Message;
pub use naming::Naming;
pub use next::Next;
pub use operator::Operator;
pub use place::Place;
pub use published::Published;
pub use status::CallStatus;
pub use step::Step;
pub use wake_flags::WakeFlags;

// What a crate above names of those below.
pub use node_sides::node_laws;
