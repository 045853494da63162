//! A script as a picture of its story.
//!
//! Knows: which lines and which labels there are for each step of a story, and where they stand.
//! Must not know: how a story is found out, or how the node keeps what it shows.
//! Promises the program above that a script outside the grammar is refused as the shell refuses it.
#![tactic(auto)]

mod bars;
mod drawing;
mod drawn_leaves;
mod drawn_log;
mod drawn_messages;
mod drawn_txns;
mod head;
mod labels;
mod lane_steps;
mod legend;
mod opening;
mod shapes;
mod sheet;

pub use drawing::draw;
