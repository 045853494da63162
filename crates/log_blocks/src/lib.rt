//! The blocks by which a file keeps a log, as docs/STORE.md has them: each a head, then bytes of the log.
//!
//! Knows: how a block is spelled, and where one is torn or damaged.
//! Must not know: what the bytes spell, who writes the file, and when.
//! Promises its callers that unpacking goes wrong on no file and gives back what was written, but for a torn block at the
//! end; and that it takes nothing else for a block: what it gives back is what the file's blocks wrote, up to where the file
//! ends within one, and the place that it refuses is the first where neither a block stands nor the file ends within one.
#![tactic(auto)]

mod before;
mod block;
mod heads;
mod sums;
mod version_1;

pub use block::{Damaged, Unpacked, unpack};
pub use heads::{HEAD_LEN, head};
