//! Locks for the calls of clients.
ghost use Rattle.std.specs.Prelude.{◌≡◌, ◌∷◌, false, IfErr, OnOk, OnErr};
ghost use Rattle.record_key.specs.Order.{HasKeys};
ghost use Rattle.tc_locks.specs.Locks.{spans_of, set_spans, IsGrantable, IsTable};
ghost use Rattle.tc_locks.specs.Meant.{meant, range_of};
ghost use Rattle.tc_core.specs.Locking.{RefusesLock, held_mode, spent_of};

use record_key::{Key, Op, Refusal};
use tc_locks::{Mode, RangeLocks, Span};

/// Takes the span, which is a range, for the transaction. Refused Busy with the least other holder; where no
/// number is left for the call NumbersSpent, else NoMemory.
pub fn take(
    locks: &mut RangeLocks,
    spent: bool,
    txn: u64,
    mode: Mode,
    span: &Span,
) -> Result<(), Refusal>
    requires range { HasKeys (range_of span.now) }
    requires table { IsTable locks.old }
    ensures free { OnOk result (IsGrantable locks.old txn (meant mode span.now)) }
    ensures unspent { OnOk result (spent ≡ false) }
    ensures taken { OnOk result (locks.new ≡ set_spans txn (meant mode span.now ∷ spans_of locks.old txn) locks.old) }
    ensures refused { IfErr result (RefusesLock locks.old txn (meant mode span.now) (spent_of spent)) }
    ensures unchanged { OnErr result (locks.new ≡ locks.old) }
{
    match locks.take(txn, mode, span) {
        Err(Refusal::NoMemory) if spent => Err(Refusal::NumbersSpent),
        Err(refusal) => Err(refusal),
        Ok(()) if spent => {
            locks.untake(txn);
            Err(Refusal::NumbersSpent)
        }
        Ok(()) => Ok(()),
    }
}

/// The same for one key.
#[tactic(auto, using(tc_locks::proofs::KeyEnds::key_range))]
pub fn take_key(
    locks: &mut RangeLocks,
    spent: bool,
    txn: u64,
    mode: Mode,
    key: &Key,
) -> Result<(), Refusal>
    requires { IsTable locks.old }
    ensures free { OnOk result (IsGrantable locks.old txn (meant mode (Span.Key key.now))) }
    ensures unspent { OnOk result (spent ≡ false) }
    ensures taken { OnOk result
        (locks.new ≡ set_spans txn (meant mode (Span.Key key.now) ∷ spans_of locks.old txn) locks.old) }
    ensures refused { IfErr result (RefusesLock locks.old txn (meant mode (Span.Key key.now)) (spent_of spent)) }
    ensures unchanged { OnErr result (locks.new ≡ locks.old) }
{
    match locks.take_key(txn, mode, key) {
        Err(Refusal::NoMemory) if spent => Err(Refusal::NumbersSpent),
        Err(refusal) => Err(refusal),
        Ok(()) if spent => {
            locks.untake(txn);
            Err(Refusal::NumbersSpent)
        }
        Ok(()) => Ok(()),
    }
}

/// What an operation's key is held for.
pub fn mode_for(op: &Op) -> Mode
    ensures { result ≡ held_mode op.now }
{
    if op.is_add() {
        Mode::Increment
    } else {
        Mode::Exclusive
    }
}
