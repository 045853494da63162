//! The lock table of a transaction component: which transaction holds which spans of keys, and how.
//!
//! Knows: keys of `record_key`; spans, modes and conflicts as `history` settles them.
//! Must not know: operations, logs, messages, why a span is taken or when it is released.
//! Promises the next crates: a span is taken only where no other transaction holds a conflicting one, a
//! refused take names the least holder and changes nothing, and locks go without memory.
#![tactic(auto)]

mod adding;
mod entry;
mod held;
mod index;
mod places;
mod plain_locks;
mod range_locks;
mod span;

pub use plain_locks::PlainLocks;
pub use range_locks::RangeLocks;
pub use span::{Mode, Span};
