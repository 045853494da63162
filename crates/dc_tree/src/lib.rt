//! The leaves of a data component, in key order.
//!
//! Knows: leaves, which of them may be split and joined, and that they have all keys among them.
//! Must not know: logs, devices, sessions, transactions.
//! Promises the next crates: whatever holds the leaves meets `LeafSet`, in whose contract they are a list: an operation
//! is done at the leaf of its key and leaves the others, and a split or a merge leaves the records as they were.
#![tactic(auto)]

mod boxes;
mod choosing;
mod laws;
mod leaf_set;
mod list;
mod parting;
mod planning;
mod range_scan;
mod tree;

pub use laws::{tree_law, tree_undo_law};
pub use leaf_set::{LeafSet, one_leaf};
pub use list::LeafList;
pub use parting::{Merge, Split};
pub use planning::{may_merge, may_split, merge_at, plan_merge, plan_split, split_at};
pub use tree::Tree;
