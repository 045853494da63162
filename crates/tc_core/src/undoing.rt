//! The steps of a rollback.
ghost use Rattle.std.specs.Prelude.{◌≡◌, ◌≤◌, Some, None, if◌then◌else◌};
ghost use Rattle.tc_undo.specs.NextUndo.{MayUndo, IsUndone};
ghost use Rattle.tc_core.specs.Calls.{UndoGives};
ghost use Rattle.tc_core.specs.Undoing.{MayStep};
ghost use Rattle.tc_core.specs.Kept.{IsTc};
ghost use Rattle.tc_core.specs.Seen.{seen};

use crate::change::Change;
use crate::open_txn::Rollback;
use crate::parts::Parts;
use crate::told::UndoStep;
use history::Record;
use record_key::Refusal;
use stable::LogDevice;
use tc_undo::{Chain, Compensated, append_undo};

impl<D: LogDevice> Parts<D> {
    pub fn undo_step(&mut self, txn: u64) -> Result<UndoStep, Refusal>
        requires { IsTc (seen self.old) }
        ensures kept { IsTc (seen self.new) }
        ensures gives { UndoGives (seen self.old) txn result (seen self.new) }
    {
        let opened = self.answered(txn)?;
        let Some(rollback) = opened.rolling else {
            return Ok(UndoStep::Idle);
        };
        let last = opened.last;
        self.compensate(txn, rollback, last)
    }

    /// Logs the compensation of the latest operation that is left; where none is, the rollback ends.
    fn compensate(&mut self, txn: u64, rollback: Rollback, last: u64) -> Result<UndoStep, Refusal>
        requires kept { IsTc (seen self.old) }
        requires may_step { MayStep (seen self.old) txn rollback }
        requires may_undo { MayUndo self.old.log.records (record { txn = txn; last = last }) }
        ensures kept { IsTc (seen self.new) }
        ensures gives { UndoGives (seen self.old) txn result (seen self.new) }
    {
        match append_undo(&mut self.log, Chain { txn, last }, rollback.above) {
            Ok(Some(told)) => {
                let number = told.number;
                self.open_txns.change(
                    txn,
                    Change::Stepped {
                        number,
                        undo: told.next,
                        waiting: awaited(told),
                    },
                );
                Ok(UndoStep::Compensated(number))
            }
            Ok(None) => self.undone(txn, rollback),
            Err(refusal) => Err(refusal),
        }
    }

    /// Nothing is left to undo: the rollback ends.
    fn undone(&mut self, txn: u64, rollback: Rollback) -> Result<UndoStep, Refusal>
        requires kept { IsTc (seen self.old) }
        requires may_step { MayStep (seen self.old) txn rollback }
        requires undone { IsUndone self.old.log.records txn rollback.above }
        ensures kept { IsTc (seen self.new) }
        ensures gives { UndoGives (seen self.old) txn result (seen self.new) }
    {
        if let Some(savepoint) = rollback.savepoint {
            self.open_txns.change(txn, Change::IsBack);
            return Ok(UndoStep::Back { txn, savepoint });
        }
        self.log.append(&Record::End { txn })?;
        self.open_txns.remove(txn);
        self.locks.release(txn);
        Ok(UndoStep::RolledBack(txn))
    }
}

/// The number of a compensation, if it waits for an answer.
pub fn awaited(told: Compensated) -> Option<u64>
    ensures { result ≡ (if told.asks then Some told.number else None) }
{
    if told.asks { Some(told.number) } else { None }
}
