//! A script as a text that explains each of its lines, by its story.
//!
//! Knows: which words there are for each step of a story.
//! Must not know: how a story is found out, or how the node keeps what it shows.
//! Promises the programs above that a script outside the grammar is refused as the shell refuses it.
#![tactic(auto)]

mod explaining;
mod numbers;
mod rounds;
mod text;
mod told_changes;
mod told_leaves;
mod told_log;
mod told_losses;
mod told_messages;
mod told_out;
mod told_steps;
mod told_txns;
mod undoing;
mod wrapped;

pub use explaining::explain;
pub use rounds::put_round;
pub use text::Text;

// What a crate above names of those below.
pub use shell_story;
pub use shell_story::{node_world, shell_scripts};
