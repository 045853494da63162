//! A node's lines are serial: what `serial_laws` says of a run of the list machine, said of what a node's calls give.
//!
//! Knows: what holds of a node's events and rounds and of an engine's history by the contracts of their calls, and the
//! laws of such runs.
//! Must not know: any code that makes a node or an engine, or steps it.
//! Promises of a node, from where it was made on: whatever it was driven, stepped or settled by, and whatever an engine
//! over it left, the lines of all that, calls and what clients were told, are serial. Each law is the contract of a
//! function that does nothing.
#![tactic(auto)]

mod laws;

pub use laws::{close_law, drive_law, forget_law, made_law, settle_law, step_law};
