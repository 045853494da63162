//! The two halves of a node apart: each in a process of its own, with a stream of messages in and one out.
//!
//! Knows: the two components' calls, the spelling of messages and the lines of a script.
//! Must not know: what lies between the streams, or how either component keeps its state.
//! Promises the program above that a component is asked what it may be asked: a message that isn't spelled so, or of which
//! the leaves show that nobody may ask it, never reaches one.
#![tactic(auto)]

mod asked;
mod delivering;
mod frames;
mod messages;
mod playing;
mod received;
mod serving;
mod settling;
mod stop;
mod waiting;
mod wire;

pub use playing::{Player, open_player};
pub use received::Received;
pub use serving::{Served, open_data, serve};
pub use stop::Stop;
pub use wire::Wire;

// What a crate above names of those below.
pub use node_sides::dc_core::Dc;
