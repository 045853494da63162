//! The two halves of a node: a component each, which runs or is down, and which also steps alone. Messages are handed to
//! it and out of it.
//!
//! Knows: the calls of the two components, and the events of a node.
//! Must not know: how either component keeps its state, or where messages are kept.
//! Promises the next crates: what a half does at an event is what a node may do that has it, whatever the other half and
//! the messages are.
#![tactic(auto)]

mod attempt;
mod crashing;
mod data_component;
mod dc_events;
mod dc_side;
mod found_dc_log;
mod found_tc_log;
mod put;
mod stopped_dc;
mod stopped_tc;
mod tc_events;
mod tc_side;
mod transaction_component;

pub use dc_side::DcSide;
pub use tc_side::TcSide;

// What a crate above names of those below.
pub use node_laws;
pub use node_laws::{dc_core, tc_core};
