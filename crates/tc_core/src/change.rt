//! What happens to an open transaction.
ghost use Rattle.std.specs.Prelude.{◌≡◌};
ghost use Rattle.tc_core.specs.Changed.{changed};

use crate::open_txn::{OpenTxn, Read, Rollback};
use tc_undo::Saves;

/// What happens to an open transaction.
#[derive(Debug, Drop)]
pub enum Change {
    /// Its step of this number was logged; what is left to undo after it, and the record whose answer it waits for.
    Stepped {
        number: u64,
        undo: u64,
        waiting: Option<u64>,
    },
    /// The answer that it waits for came.
    Answered,
    /// It asks for a read.
    Reads(Read),
    /// It was told what it read.
    Told,
    /// It has these savepoints now.
    Saved(Saves),
    /// It is rolled back wholly.
    Rolls,
    /// It is rolled back to a savepoint, and has these now.
    GoesBack {
        rollback: Rollback,
        saves: Saves,
    },
    /// It is back there.
    IsBack,
}

/// The change is made.
#[inline(always)]
pub fn make_change(open_txn: &mut OpenTxn, what: Change)
    ensures { open_txn.new ≡ changed what open_txn.old }
{
    match what {
        Change::Stepped {
            number,
            undo,
            waiting,
        } => {
            open_txn.last = number;
            open_txn.undo = undo;
            open_txn.waiting = waiting;
        }
        Change::Answered => open_txn.waiting = None,
        Change::Reads(read) => open_txn.reading = Some(read),
        Change::Told => open_txn.reading = None,
        Change::Saved(saves) => open_txn.saves = saves,
        Change::Rolls => open_txn.rolling = Some(Rollback::WHOLE),
        Change::GoesBack { rollback, saves } => {
            open_txn.rolling = Some(rollback);
            open_txn.saves = saves;
        }
        Change::IsBack => open_txn.rolling = None,
    }
}
