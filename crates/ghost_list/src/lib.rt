//! A list that contracts alone see.
//!
//! Knows: nothing of what it lists.
//! Must not know: why anybody wants it.
//! Promises the crates above: it holds the items that its maker picked, and takes no memory.
#![tactic(auto)]

mod ghost_list;

pub use ghost_list::GhostList;
