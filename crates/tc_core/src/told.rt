//! What calls of the transaction component answer.
use codec::{Request, Rows};
use record_key::{Answer, Value};
use std::marker::Model;

/// What came of a reply.
#[derive(Debug, PartialEq, Eq, Drop)]
pub enum Told {
    /// The reply wasn't awaited, or nobody is told of it.
    Nothing,
    /// The session runs at the data component.
    Connected(u64),
    /// The session's redo has ended; clients are served.
    RedoEnded(u64),
    /// The transaction's operation was answered.
    Answered { txn: u64, answer: Answer },
    /// The key that the transaction reads has this value.
    Row { txn: u64, value: Option<Value> },
    /// The range that the transaction reads has these rows.
    Rows { txn: u64, rows: Rows },
    /// The compensation of this number was performed; no client is told.
    Undone(u64),
    /// The checkpoint that was asked for has the record of this number; no client is told.
    CheckpointLogged(u64),
}

/// What came of an answer, apart from the answer.
#[derive(Debug, Clone, Copy, PartialEq, Eq)]
pub enum Heard {
    /// The reply wasn't awaited, or nobody is told of it.
    Nothing,
    /// The operation of this transaction was answered.
    Answered(u64),
    /// The compensation of this number was performed; no client is told.
    Undone(u64),
}

impl Heard {
    ghost use Rattle.std.specs.Prelude.{◌≡◌};
    ghost use Rattle.tc_core.specs.Heard.{told_with};

    /// The same, with the answer.
    pub fn told(self, answer: Option<Answer>) -> Told
        ensures { result ≡ told_with answer self }
    {
        match (self, answer) {
            (Heard::Answered(txn), Some(answer)) => Told::Answered { txn, answer },
            (Heard::Answered(_), None) | (Heard::Nothing, _) => Told::Nothing,
            (Heard::Undone(number), _) => Told::Undone(number),
        }
    }
}

/// What one step of a rollback did.
#[derive(Debug, Clone, Copy, PartialEq, Eq)]
pub enum UndoStep {
    /// The transaction isn't being rolled back.
    Idle,
    /// A compensation of this number was appended.
    Compensated(u64),
    /// Nothing was left to undo: the transaction is rolled back.
    RolledBack(u64),
    /// Nothing was left to undo above the savepoint: the transaction is back there, and goes on.
    Back { txn: u64, savepoint: u64 },
}

/// Transactions whose Commit records became stable, in the order of these records.
#[derive(Debug, Drop)]
pub struct Committed {
    txns: Vec<u64>,
}

impl Model for Committed {
    ghost use Rattle.std.specs.Prelude.{List, ℕ};

    ghost Value = { List ℕ };

    ghost view = { λ c. c.txns.items };
}

impl Committed {
    ghost use Rattle.std.specs.Prelude.{◌≡◌};

    pub fn new(txns: Vec<u64>) -> Committed
        ensures { result ≡ txns.items }
    {
        Committed { txns }
    }

    pub fn as_slice(&self) -> &[u64]
        ensures { result.now ≡ self.now }
    {
        self.txns.as_slice()
    }
}

impl PartialEq for Committed {
    ghost use Rattle.std.specs.Prelude.{◌==◌};
    ghost use Rattle.std.specs.Cmp.Lexicographic.{pointwise};
    ghost use Rattle.std.specs.Cmp.Rules.{comparing};
    ghost use Rattle.std.proofs.Common.{rules};

    ghost eq = { pointwise ◌==◌ };

    ghost laws = { Prim.search (comparing, rules) };

    fn eq(&self, other: &Committed) -> bool {
        self.as_slice() == other.as_slice()
    }
}

impl Eq for Committed {
    ghost use Rattle.std.specs.Cmp.Rules.{comparing};
    ghost use Rattle.std.proofs.Common.{rules};

    ghost laws = { Prim.search (comparing, rules) };
}

/// What a force gives.
#[derive(Debug, Drop)]
pub struct Forced {
    /// The number of the last record; all are stable.
    pub end: u64,
    pub committed: Committed,
}

/// What the start of a session gives.
#[derive(Debug, Drop)]
pub struct Connecting {
    /// What begins the session at the data component.
    pub request: Request,
    pub committed: Committed,
}

/// What one step of recovery gives.
#[derive(Debug, PartialEq, Eq, Drop)]
pub enum RecoverStep {
    /// The component runs: nothing is left to recover.
    Nothing,
    /// This is to be sent, first or again.
    Sends(Request),
    /// A loser's compensation of this number was appended.
    Compensated(u64),
    /// This loser has ended.
    Lost(u64),
}
