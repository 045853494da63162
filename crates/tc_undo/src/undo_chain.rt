//! What is left to undo, found by the links of the records and never by a scan.
ghost use Rattle.std.specs.Prelude.{◌≡◌, IsTrue, IfOk, IfErr, OnErr, IsErrOf};
ghost use Rattle.history.specs.Log.{record_at};
ghost use Rattle.history.specs.Legal.{Inverts};
ghost use Rattle.history.specs.Chains.{undo_from, prev_in};
ghost use Rattle.record_key.specs.FirstCause.{MayRefuse};
ghost use Rattle.stable.specs.Usage.{is_due};
ghost use Rattle.tc_log.specs.LogView.{spent_refusal, after_refusal};
ghost use Rattle.tc_undo.specs.NextUndo.{MayUndo, IsLeft, IsNextUndo, IsUndoable, UndoesNext};

use history::Record;
use inverse::inverse;
use record_key::{Op, Refusal};
use stable::LogDevice;
use tc_log::{Compensated, Log};

/// The steps of a transaction, by the latest one.
#[derive(Debug, Clone, Copy, PartialEq, Eq)]
pub struct Chain {
    /// The number of its Begin record.
    pub txn: u64,
    /// Its latest Op or Comp record, 0 if none.
    pub last: u64,
}

/// What a rollback does next.
#[derive(Debug, PartialEq, Eq, Drop)]
pub enum Next {
    /// This Comp record is appended.
    Write(Record),
    /// No operation above the bound is left.
    Done,
}

/// What undoes the transaction's latest operation that no compensation names, where that is above the bound. The
/// transaction is open and waits for no answer. Takes no memory. (Undo chains are from ARIES, Mohan et al., 1992.)
pub fn next_undo<D: LogDevice>(log: &Log<D>, chain: Chain, above: u64) -> Next
    requires { MayUndo log.now.records chain }
    ensures { IsNextUndo log.now.records chain.txn above result }
{
    let undoes = log.left_to_undo(chain.last);
    if undoes <= above {
        return Next::Done;
    }
    let (next, inverse) = undoing(log, undoes);
    Next::Write(Record::Comp {
        txn: chain.txn,
        undoes,
        next,
        inverse,
    })
}

/// Appends the record that `next_undo` gives, from the bytes that stand in the log, and tells of it. None where none is
/// left, and nothing is appended. Refused NumbersSpent, NoMemory or Device, in this order.
pub fn append_undo<D: LogDevice>(
    log: &mut Log<D>,
    chain: Chain,
    above: u64,
) -> Result<Option<Compensated>, Refusal>
    requires { MayUndo log.old.records chain }
    ensures undoes { IfOk result (λ told. UndoesNext log.old chain.txn above told log.new) }
    ensures found { OnErr result (IsLeft log.old.records chain.txn above) }
    ensures refused { IfErr result (MayRefuse (spent_refusal log.old.records)) }
    ensures device { IsErrOf result Refusal.Device → IsTrue (is_due log.old.usage) }
    ensures left { IfErr result (λ refusal. log.new ≡ after_refusal log.old refusal) }
{
    // Called for what it tells of the records: their numbers can be spelled.
    let _count = log.len();
    let undoes = log.left_to_undo(chain.last);
    if undoes <= above {
        return Ok(None);
    }
    match log.append_comp(chain.txn, undoes) {
        Ok(told) => Ok(Some(told)),
        Err(refusal) => Err(refusal),
    }
}

/// What undoes an answered operation, and what is left to undo after it.
fn undoing<D: LogDevice>(log: &Log<D>, undoes: u64) -> (u64, Option<Op>)
    requires { IsUndoable log.now.records undoes }
    ensures next { result.0 ≡ undo_from (record_at log.now.records (prev_in (record_at log.now.records undoes)))
        (prev_in (record_at log.now.records undoes)) }
    ensures inverse { Inverts log.now.records undoes result.1 }
{
    match (log.record(undoes), log.answer_of(undoes)) {
        (Some(Record::Op { prev, op, .. }), Some(answer)) => {
            (log.left_to_undo(prev), inverse(&op, &answer))
        }
        _ => unreachable!(),
    }
}
