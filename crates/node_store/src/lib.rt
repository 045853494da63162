//! A node that is opened on a log which an earlier process left.
//!
//! Knows: which bytes a log's device has, and what has to hold of a log before a node may stand on it.
//! Must not know: where the device keeps its bytes, and how a component is made of a log.
//! Promises its caller that whatever the bytes are, they are refused for a cause that is named and the device is handed
//! back with them, or the node that is opened on them keeps every promise of a node: nothing is taken for granted of
//! who wrote them.
#![tactic(auto)]

mod judging;
mod opening;
mod renewal;
mod unopened;

pub use opening::open;
pub use renewal::renew;
pub use unopened::{Cause, Unopened};

// What a crate above names of those below.
pub use node_world;
