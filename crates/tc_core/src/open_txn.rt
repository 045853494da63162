//! An open transaction.
use tc_locks::Span;
use tc_undo::Saves;

/// A read that waits for its reply.
#[derive(Debug, Clone, PartialEq, Eq, Drop)]
pub struct Read {
    /// Reads are counted from 1 on.
    pub number: u64,
    /// One key, or a range of them.
    pub span: Span,
}

impl Read {
    ghost use Rattle.std.specs.Prelude.{◌≡◌};

    /// The same again. Takes no memory.
    fn copied(&self) -> Read
        ensures { result ≡ self.now }
    {
        self.clone().unwrap()
    }
}

/// How far a transaction is rolled back.
#[derive(Debug, Clone, Copy, PartialEq, Eq)]
pub struct Rollback {
    /// The savepoint that it goes back to, none where it is rolled back wholly.
    pub savepoint: Option<u64>,
    /// Its operations above this number are undone.
    pub above: u64,
}

impl Rollback {
    /// All its operations are undone.
    pub const WHOLE: Rollback = Rollback {
        savepoint: None,
        above: 0,
    };
}

/// An open transaction: its number, what it does, where its chains begin, and its savepoints.
#[derive(Debug, PartialEq, Eq, Drop)]
pub struct OpenTxn {
    /// The number of its Begin record.
    pub txn: u64,
    /// Its latest Op or Comp record, 0 if none.
    pub last: u64,
    /// Its latest operation that no compensation names, 0 if none.
    pub undo: u64,
    /// The record whose answer it waits for.
    pub waiting: Option<u64>,
    /// The read whose reply it waits for.
    pub reading: Option<Read>,
    /// It is being rolled back.
    pub rolling: Option<Rollback>,
    pub saves: Saves,
}

impl OpenTxn {
    ghost use Rattle.std.specs.Prelude.{◌≡◌};
    ghost use Rattle.tc_core.specs.Changes.{begun_txn};
    ghost use Rattle.tc_core.specs.TcView.{waits};

    /// One that has just begun.
    pub fn begun(txn: u64) -> OpenTxn
        ensures { result ≡ begun_txn txn }
    {
        OpenTxn {
            txn,
            last: 0,
            undo: 0,
            waiting: None,
            reading: None,
            rolling: None,
            saves: Saves::new(),
        }
    }

    /// The same again. Takes no memory.
    pub fn copied(&self) -> OpenTxn
        ensures { result ≡ self.now }
    {
        let reading = match &self.reading {
            Some(read) => Some(read.copied()),
            None => None,
        };
        OpenTxn {
            txn: self.txn,
            last: self.last,
            undo: self.undo,
            waiting: self.waiting,
            reading,
            rolling: self.rolling,
            saves: self.saves.copied(),
        }
    }

    /// Whether it waits for an answer, or for what it reads.
    pub fn waits(&self) -> bool
        ensures { result ≡ waits self.now }
    {
        self.waiting.is_some() || self.reading.is_some()
    }
}
