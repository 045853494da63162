//! Keys, values, operations on records, their answers, entries of what is done, and the refusals of every call.
//!
//! Knows: what a table is (a finite map in key order) and what one operation does to it.
//! Must not know: transactions, logs, leaves, messages, devices.
//! Promises the next crates: keys are 1 to 32 bytes and ordered by them, a beginning first; values are
//! 0 to 120 bytes; both lie inline, so none of them ever takes memory.
#![tactic(auto)]

mod compacting;
mod entries;
mod entry;
mod key;
mod laws;
mod lent;
mod op;
mod packed;
mod plain_table;
mod refusal;
mod slot;
mod value;
mod words;

pub use entries::Entries;
pub use entry::Entry;
pub use key::Key;
pub use laws::{add_law, key_order_law, table_law};
pub use lent::{AnswerRef, Change, OpRef, ValueRef};
pub use op::{Answer, Op};
pub use plain_table::PlainTable;
pub use refusal::Refusal;
pub use value::Value;
pub use words::order_of_texts;
