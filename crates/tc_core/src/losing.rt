//! The undo of losers.
ghost use Rattle.std.specs.Prelude.{◌≡◌, ℕ, None, Some};
ghost use Rattle.tc_restart.specs.Losers.{AreLosers, IsLeast, MayEnd, LosesNext};
ghost use Rattle.tc_core.specs.declared.phase.Phase.TheVariants as phase;
ghost use Rattle.tc_core.specs.Changes.{undoing_or_running};
ghost use Rattle.tc_core.specs.Recovery.{RecoverGives};
ghost use Rattle.tc_core.specs.Kept.{IsTc};
ghost use Rattle.tc_core.specs.Seen.{seen};

use crate::parts::Parts;
use crate::phase::Phase;
use crate::told::RecoverStep;
use crate::undoing::awaited;
use history::Record;
use record_key::Refusal;
use stable::LogDevice;
use tc_restart::Loser;
use tc_undo::append_undo;

impl<D: LogDevice> Parts<D> {
    /// The compensation that awaits its answer, first or again.
    pub fn resend_undo(&self, number: u64) -> Result<RecoverStep, Refusal>
        requires kept { IsTc (seen self.now) }
        requires undoing { self.now.phase ≡ phase.Undoing (Some number) }
        ensures gives { RecoverGives (seen self.now) result (seen self.now) }
    {
        Ok(RecoverStep::Sends(self.perform(number)))
    }

    /// Ends the least loser that has nothing left to undo; where there is none, compensates the latest operation.
    pub fn undo_next(&mut self) -> Result<RecoverStep, Refusal>
        requires kept { IsTc (seen self.old) }
        requires undoing { self.old.phase ≡ phase.Undoing None }
        ensures kept { IsTc (seen self.new) }
        ensures gives { RecoverGives (seen self.old) result (seen self.new) }
    {
        if let Some(txn) = self.losers.ended_next() {
            return self.end_loser(txn);
        }
        match self.losers.lose_next() {
            Some(loser) => self.compensate_loser(loser),
            None => unreachable!(),
        }
    }

    fn end_loser(&mut self, txn: u64) -> Result<RecoverStep, Refusal>
        requires kept { IsTc (seen self.old) }
        requires undoing { self.old.phase ≡ phase.Undoing None }
        requires least { IsLeast (MayEnd self.old.log.records self.old.losers.below) txn }
        ensures kept { IsTc (seen self.new) }
        ensures gives { RecoverGives (seen self.old) result (seen self.new) }
    {
        self.log.append(&Record::End { txn })?;
        self.losers.ended();
        self.locks.release(txn);
        self.phase = self.after_redo();
        Ok(RecoverStep::Lost(txn))
    }

    fn compensate_loser(&mut self, loser: Loser) -> Result<RecoverStep, Refusal>
        requires kept { IsTc (seen self.old) }
        requires undoing { self.old.phase ≡ phase.Undoing None }
        requires none_ends { (t : ℕ) → MayEnd self.old.log.records self.old.losers.below t → ⊥ }
        requires next { LosesNext self.old.log.records self.old.losers.below loser }
        ensures kept { IsTc (seen self.new) }
        ensures gives { RecoverGives (seen self.old) result (seen self.new) }
    {
        let told = match append_undo(&mut self.log, loser.chain(), 0) {
            Ok(Some(told)) => told,
            Ok(None) => unreachable!(),
            Err(refusal) => return Err(refusal),
        };
        self.losers.compensated(told.number, told.next);
        self.phase = Phase::Undoing {
            waiting: awaited(told),
        };
        Ok(RecoverStep::Compensated(told.number))
    }

    /// How the session goes on once redo has ended, and after the end of a loser.
    pub fn after_redo(&self) -> Phase
        requires { AreLosers self.now.log.records self.now.losers }
        ensures { result ≡ undoing_or_running self.now.losers }
    {
        if self.losers.is_empty() {
            Phase::Running
        } else {
            Phase::Undoing { waiting: None }
        }
    }
}
