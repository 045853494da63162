//! Why a line is outside the grammar of scripts, in words for whoever wrote it; and which line takes a label away from a
//! transaction that no line has ended.
//!
//! Knows: how each line is written. Must not know: what a line does, or where the words go.
//! Promises nothing that is proved. Whether a line, or a word of it, is in the grammar is asked of the shell itself.
#![tactic(auto)]

mod fault;
mod forms;
mod labels;
mod near;
mod texts;

pub use labels::{Rebound, first_rebound};
pub use texts::{reason, reason_of};
