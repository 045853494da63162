//! A leaf: records in key order, and which requests it has performed.
//!
//! Knows: the table of operations of `record_key`, the packed rows of `codec`, and abstract page LSNs.
//! Must not know: transactions, compensation, sessions, who sends a request or how often.
//! Promises the next crates: a new number is performed as the table says and captured with its answer, a
//! captured one changes nothing; what stands above an end is taken back as if it had never been done; and a leaf that
//! is honest for a log stays so, by the leaf law.
#![tactic(auto)]

mod answer_sink;
mod laws;
mod leaf;
mod parting;
mod requests;
mod row_sink;
mod rows;
mod taking_back;
mod tops;

pub use answer_sink::AnswerSink;
pub use laws::leaf_law;
pub use leaf::{Done, Leaf};
pub use row_sink::RowSink;
pub use rows::add_rows;
