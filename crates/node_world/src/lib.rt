//! The node: one transaction component, one data component, and every message between them.
//!
//! Knows: the two halves, and what holds of a node that they make.
//! Must not know: how either component keeps its state.
//! Promises the next crates the headline: whatever events come, with messages lost, late or repeated, each
//! client's answer is that of one list of operations with the rolled-back ones crossed out, and a settled node
//! holds what a plain map holds.
#![tactic(auto)]

mod attempt;
mod bringing_up;
mod driving;
mod message;
mod node;
mod parts;
mod quiet;
mod sent;
mod settling;
mod world;

pub use bringing_up::bring_up;
pub use driving::drive;
pub use node_sides::dc_core::{Device, Neighbours};
pub use node_sides::node_laws::{Event, Out, Round, fallen_law, forgetting_law, promises_law};
pub use node_sides::{DcSide, TcSide};
pub use settling::settle;
pub use world::World;

// What a crate above names of those below.
pub use node_sides;
pub use node_sides::{dc_core, node_laws, tc_core};
