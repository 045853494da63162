//! What may happen to a node, and the theorem about it: that whatever events come, what they lead to is what the list
//! machine allows.
//!
//! Knows: what each call of the two components may do to what is seen of it, and the list machine that clients may rely
//! on.
//! Must not know: any code of a node, or how either component keeps its state.
//! Promises the next crates: each event keeps what holds of a node at every moment, is a step of the list machine, and
//! settling ends.
#![tactic(auto)]

mod event;
mod laws;
mod round;

pub use event::{Event, Out};
pub use laws::{device_law, fallen_law, forgetting_law, promises_law};
pub use round::Round;

// What a crate above names of those below.
pub use dc_core;
pub use tc_core;
