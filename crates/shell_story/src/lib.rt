//! What a script's events did to a node, one after another: its *story*, which words and pictures are made of.
//!
//! Knows: what the public readers of a node show before and after each event, and the grammar of scripts.
//! Must not know: how the node keeps what it shows; what a story is read for.
//! Promises the next crate that nothing of the node is changed but by the script's own lines.
#![tactic(auto)]

mod about;
mod actor;
mod actors;
mod ends;
mod happened;
mod leaf;
mod leaf_changes;
mod leaves_seen;
mod log_seen;
mod logged;
mod message;
mod messages;
mod moment;
mod playing;
mod reopened;
mod said;
mod settled;
mod step;
mod story;

pub use actor::{Actor, End, Hold, Mark, Mode, State};
pub use leaf::{Birth, Change, Held, Shot, What};
pub use log_seen::{find, is_asked, txn_of};
pub use logged::Logged;
pub use message::{About, Delivery, Fate, Message};
pub use messages::message_of;
pub use moment::Moment;
pub use playing::{play, play_line};
pub use step::{Doing, Step};
pub use story::{Story, begin, label_of};

// What a crate above names of those below.
pub use shell_scripts;
pub use shell_scripts::node_world;
