//! What an unfinished call is answered in the end.
use codec::Rows;
use record_key::{Answer, Value};

/// What was told of a call that was carried on.
#[derive(Debug, PartialEq, Eq, Drop)]
pub enum Told {
    /// Of an operation.
    Answer(Answer),
    /// Of a read of one key.
    Row(Option<Value>),
    /// Of a read of a range.
    Rows(Rows),
    /// The transaction is back at its savepoint.
    Back,
    /// The transaction is rolled back.
    RolledBack,
    /// The transaction has committed: the number of its Commit record.
    Committed(u64),
}
