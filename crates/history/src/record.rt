//! The records of the transaction log.
use record_key::{Answer, Op};

/// A record of the transaction log. Its number is its place in the log, from 1; a transaction's number is
/// that of its Begin record. Compensation records and their undo-next are from ARIES (Mohan et al., 1992).
#[derive(Debug, Clone, PartialEq, Eq, Drop)]
pub enum Record {
    /// The transaction component has a new session, numbered by this record.
    Session,
    /// A transaction begins, numbered by this record.
    Begin,
    /// An operation of a transaction. `prev` is the transaction's Op or Comp record before it, 0 if none.
    Op {
        txn: u64,
        prev: u64,
        op: Op,
    },
    /// What the operation of record `of` was answered.
    Answer {
        of: u64,
        answer: Answer,
    },
    /// Operation `undoes` is undone by `inverse`, or by nothing where it did nothing. `next` is what is
    /// left to undo: the transaction's latest earlier operation that no compensation names, 0 if none.
    Comp {
        txn: u64,
        undoes: u64,
        next: u64,
        inverse: Option<Op>,
    },
    /// A transaction is committed, once this record is stable.
    Commit {
        txn: u64,
    },
    /// A transaction is rolled back wholly.
    End {
        txn: u64,
    },
    /// Every effect of a record up to `low` stands in stable leaves.
    Checkpoint {
        low: u64,
    },
}

impl Record {
    ghost use Rattle.std.specs.Prelude.{◌≡◌};

    /// The same record again. Takes no memory.
    pub fn copied(&self) -> Record
        ensures { result ≡ self.now }
    {
        self.clone().unwrap()
    }
}
