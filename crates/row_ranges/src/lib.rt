//! Ranges of keys, and their rows in the other order.
//!
//! Knows: which keys begin with a text, and how packed rows are read from their end.
//! Must not know: who asks for rows, where they come from, or how they are shown.
//! Promises the programs above: a key lies in the range of a beginning exactly where it begins so, and rows that are read
//! backward are those that were given, each once, with no copy of them.
#![tactic(auto)]

mod backward;
mod beginning;

pub use backward::Backward;
pub use beginning::{beginning_end, beginning_law};
