//! What is told of a call.
ghost use Rattle.std.specs.Prelude.{◌≡◌};
ghost use Rattle.engine_guarded.specs.Hearing.{is_end};

use codec::Rows;
use record_key::{Answer, Value};

/// A line that was told a transaction.
#[derive(Debug, PartialEq, Eq, Drop)]
pub enum Heard {
    /// Of an operation.
    Answer(Answer),
    /// Of a read of one key.
    Row(Option<Value>),
    /// Of a read of a range.
    Rows(Rows),
    /// The transaction is back at this savepoint.
    Back(u64),
    RolledBack,
    Committed,
    Lost,
}

impl Heard {
    /// Whether the transaction has ended then.
    pub(crate) fn ends(&self) -> bool
        ensures { result ≡ is_end self.now }
    {
        matches!(self, Heard::RolledBack | Heard::Committed | Heard::Lost)
    }
}
