//! A transaction of operations that are known before it begins.
ghost use Rattle.std.specs.Prelude.{◌≡◌, ◌≤◌, ℕ, [], length, vec_capacity, OnOk, IfOk, IfErr};
ghost use Rattle.engine_monitor.specs.Batches.{ActsEach, IsBatch, IsRefusedBatch, StopsAt};
ghost use Rattle.engine_monitor.specs.Sessions.{WasStable};

use crate::client::Client;
use crate::turn::Turn;
use engine_guarded::engine_history::Naming;
use record_key::{Answer, Op, Refusal};
use stable::{CrashLog, CrashPages};
use std::alloc::Global;
use std::sync::Wait;

/// Why a batch was refused.
#[derive(Debug, Clone, Copy, PartialEq, Eq)]
pub enum BatchRefused {
    /// No transaction began.
    Begin(Refusal),
    /// An operation was refused, and the transaction was rolled back, unless that was refused too.
    Act(RefusedAct),
    /// The commit was refused, and the transaction is as after any commit that is.
    Commit(Refusal),
}

/// The first operation of a batch that was refused.
#[derive(Debug, Clone, Copy, PartialEq, Eq)]
pub struct RefusedAct {
    /// Its index in the batch, from 0.
    pub index: usize,
    /// Why it was refused.
    pub refusal: Refusal,
    /// Why the rollback was refused, if it was: NotOpen or NotConnected where a crash has cut the transaction off; else
    /// `again` and `rollback` end it. None where it was rolled back.
    pub rollback: Option<Refusal>,
}

impl<J: Naming> Client<J> {
    /// Begins a transaction, does each of the operations, and commits.
    pub(crate) fn batch<D: CrashLog, P: CrashPages, R: Wait>(
        &mut self,
        rt: &R,
        turn: &mut Turn<'_, J, D, P>,
        alloc: Global,
        ops: &[Op],
    ) -> Result<Vec<Answer>, BatchRefused>
        ensures number { self.new.number ≡ self.old.number }
        ensures answered { IfOk result (λ answers. (n : ℕ) ×
            IsBatch J.entries self.old.number ops.now answers.items n self.old.calls self.new.calls
            × (n ≤ self.new.seat.stable) × WasStable J.start J.entries n) }
        ensures refused { IfErr result (λ refused.
            IsRefusedBatch J.entries self.old.number ops.now self.old.calls refused self.new.calls) }
    {
        let mut answers = match Vec::with_capacity(alloc, ops.len()) {
            Ok(answers) => answers,
            Err(_) => return Err(BatchRefused::Begin(Refusal::NoMemory)),
        };
        if let Err(refusal) = self.begin(rt, turn) {
            return Err(BatchRefused::Begin(refusal));
        }
        if let Err((index, refusal)) = self.act_each(rt, turn, ops, &mut answers) {
            let rollback = self.undo(rt, turn);
            return Err(BatchRefused::Act(RefusedAct {
                index,
                refusal,
                rollback,
            }));
        }
        match self.commit(rt, turn) {
            Ok(_) => Ok(answers),
            Err(refusal) => Err(BatchRefused::Commit(refusal)),
        }
    }

    // Does the operations, one after another, up to the first that is refused: its index, and why.
    fn act_each<D: CrashLog, P: CrashPages, R: Wait>(
        &mut self,
        rt: &R,
        turn: &mut Turn<'_, J, D, P>,
        ops: &[Op],
        answers: &mut Vec<Answer>,
    ) -> Result<(), (usize, Refusal)>
        requires none { answers.old.items ≡ [] }
        requires room { length ops.now ≤ vec_capacity answers.old }
        ensures number { self.new.number ≡ self.old.number }
        ensures acts { OnOk result (ActsEach ops.now answers.new.items self.old.calls self.new.calls) }
        ensures stops { IfErr result (λ stop.
            StopsAt ops.now stop.0 stop.1 answers.new.items self.old.calls self.new.calls) }
    {
        for (index, op) in ops.iter().enumerate() {
            match self.act(rt, turn, op) {
                Ok(answer) => {
                    let Ok(()) = answers.push(answer) else {
                        unreachable!()
                    };
                }
                Err(refusal) => return Err((index, refusal)),
            }
        }
        Ok(())
    }
}
