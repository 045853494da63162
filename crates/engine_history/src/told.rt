//! What an output tells a transaction.
ghost use Rattle.std.specs.Prelude.{◌≡◌, cond};
ghost use Rattle.engine_history.specs.Kept.{line_kind};
ghost use Rattle.history.specs.History.{is_among};
ghost use Rattle.engine_history.specs.Sessions.{line_to};

use node_sides::node_laws::Out;
use node_sides::tc_core::Committed;

/// What an output tells a transaction.
#[derive(Debug, Clone, Copy, PartialEq, Eq)]
pub enum Told {
    Nothing,
    Line,
    /// A line after which the transaction has ended.
    End,
}

/// This kind, if it is so.
pub(crate) fn kind_if(is: bool, kind: Told) -> Told
    ensures { result ≡ cond is kind Told.Nothing }
{
    if is { kind } else { Told::Nothing }
}

// Whether the transaction is among them.
fn is_among(txn: u64, committed: &Committed) -> bool
    ensures { result ≡ is_among txn committed.now }
{
    committed.as_slice().contains(&txn)
}

/// What an output tells a transaction.
pub(crate) fn told_to(txn: u64, out: &Out) -> Told
    ensures { result ≡ line_kind (line_to txn out.now) }
{
    match out {
        Out::Answered { txn: of, .. } | Out::Row { txn: of, .. } | Out::Rows { txn: of, .. } => {
            kind_if(*of == txn, Told::Line)
        }
        Out::Back { txn: of, .. } => kind_if(*of == txn, Told::Line),
        Out::RolledBack(of) | Out::Lost(of) => kind_if(*of == txn, Told::End),
        Out::Stable { committed, .. } | Out::Connects { committed, .. } => {
            kind_if(is_among(txn, committed), Told::End)
        }
        _ => Told::Nothing,
    }
}
