//! A client's own side of its session, and its calls in a turn at the node.
ghost use Rattle.std.specs.Prelude.{◌≡◌, ◌≤◌, ℕ, false, Some, None, IfOk, IfErr};
ghost use Rattle.history.specs.ListMachine.{TellsAnswer, TellsRolledBack, TellsCommitted};
ghost use Rattle.engine_marks.specs.Seen.{having_read};
ghost use Rattle.engine_guarded.specs.engine_history.specs.node_laws.specs.declared.event.Event.TheVariants as event;
ghost use Rattle.engine_guarded.specs.engine_history.specs.node_laws.specs.declared.event.Out.TheVariants as out;
ghost use Rattle.engine_guarded.specs.engine_history.specs.Sessions.{IsClosed};
ghost use Rattle.engine_guarded.specs.engine_answers.specs.Again.{CarriesOn, IsSeenBy, RefusedAgain};
ghost use Rattle.engine_guarded.specs.engine_answers.specs.Answers.{AddsCall, AddsLiveCall, RefusedBegin, RefusedCall};
ghost use Rattle.engine_guarded.specs.engine_answers.specs.Asking.{event_of};
ghost use Rattle.engine_monitor.specs.Answering.{is_save};
ghost use Rattle.engine_monitor.specs.Batches.{IsUndone};
ghost use Rattle.engine_monitor.specs.Beginning.{ShowsBegin};
ghost use Rattle.engine_monitor.specs.Ending.{calls_in};
ghost use Rattle.engine_monitor.specs.Sessions.{AnswersCall, IsStableAt, WasStable, session_of};

use crate::answers::{begun, saved, told};
use crate::ended::Unfinished;
use crate::known::Known;
use crate::resting::nap;
use crate::sort::Sort;
use crate::turn::Turn;
use engine_guarded::engine_answers::{Ask, Told};
use engine_guarded::engine_history::Naming;
use engine_guarded::engine_history::node_laws::Out;
use engine_guarded::{Caller, Outs};
use engine_marks::Marks;
use record_key::{Answer, Op, Refusal};
use stable::{CrashLog, CrashPages};
use std::marker::Model;
use std::sync::Wait;

/// A client's own side of its session. Contracts see its number, its calls with what each was answered, and what it has
/// seen of the marks.
#[derive(Drop)]
pub struct Client<J: Naming> {
    caller: Caller<J>,
    known: Known<J>,
    unfinished: Option<Unfinished>,
    outs: Outs,
}

impl<J: Naming> Model for Client<J> {
    ghost use Rattle.std.specs.Coded.{codes};
    ghost use Rattle.atomic_table.specs.Seated.{table_id_coded};
    ghost use Rattle.engine_guarded.specs.engine_history.specs.Callers.{SessionView};
    ghost use Rattle.engine_monitor.specs.Ending.{IsBetweenCalls};
    ghost use Rattle.engine_monitor.specs.Sessions.{session_of};

    ghost Value = { SessionView };

    ghost coded = { Prim.hlevel (codes, table_id_coded) };

    ghost view = { λ c. session_of c.caller c.known };

    ghost invariant = { λ c. IsBetweenCalls c.caller c.unfinished c.outs.call };
}

impl<J: Naming> Client<J> {
    /// A client with no transaction.
    pub(crate) fn new(caller: Caller<J>, known: Known<J>) -> Client<J>
        requires rest { caller.busy ≡ false }
        requires closed { IsClosed (calls_in caller) }
        ensures { result ≡ session_of caller known }
    {
        Client {
            caller,
            known,
            unfinished: None,
            outs: Outs {
                call: Out::Nothing,
                line: Out::Nothing,
            },
        }
    }

    /// Its calls.
    pub(crate) fn into_caller(self) -> Caller<J>
        ensures number { result.number ≡ self.number }
        ensures calls { calls_in result ≡ self.calls }
        ensures rest { result.busy ≡ false }
    {
        let Client { caller, .. } = self;
        caller
    }

    /// Both marks, as this call reads them.
    pub(crate) fn read(&mut self, marks: &Marks) -> (u64, u64)
        requires marks { marks.now ≡ J.marks }
        ensures session { (self.new.number ≡ self.old.number) × (self.new.calls ≡ self.old.calls) }
        ensures ordered { result.1 ≤ result.0 }
        ensures never_falls { (self.old.seat.stable ≤ result.0) × (self.old.seat.low ≤ result.1) }
        ensures read { self.new.seat ≡ having_read self.old.seat result.0 result.1 }
    {
        self.known.read(marks)
    }

    /// Begins a transaction.
    pub(crate) fn begin<D: CrashLog, P: CrashPages, R: Wait>(
        &mut self,
        rt: &R,
        turn: &mut Turn<'_, J, D, P>,
    ) -> Result<u64, Refusal>
        ensures number { self.new.number ≡ self.old.number }
        ensures begun { IfOk result (λ t.
            AddsCall event.Begin (out.Begun t) None self.old.calls self.new.calls × (self.new.calls.live ≡ Some t)) }
        ensures alone { IfOk result (λ t. ShowsBegin J.entries self.old.number (out.Begun t)) }
        ensures refused { IfErr result (λ r. RefusedBegin self.old.calls r self.new.calls) }
    {
        let Client {
            caller,
            known,
            unfinished,
            outs,
        } = self;
        let Some(ended) = turn.begin(rt, caller, known, unfinished, outs) else {
            return Err(Refusal::Full);
        };
        begun(&outs.call, ended)
    }

    /// A call of the session's transaction that is told of, from the hold in which it is made to what was told of it.
    pub(crate) fn run<D: CrashLog, P: CrashPages, R: Wait>(
        &mut self,
        rt: &R,
        turn: &mut Turn<'_, J, D, P>,
        ask: Ask,
    ) -> Result<Told, Refusal>
        requires told { is_save ask ≡ false }
        ensures number { self.new.number ≡ self.old.number }
        ensures answered { IfOk result (λ told.
            AnswersCall (λ t. event_of t ask) told self.old.calls self.new.calls) }
        ensures refused { IfErr result (λ r. RefusedCall (λ t. event_of t ask) self.old.calls r self.new.calls) }
    {
        let sort = Sort::of(&ask);
        let Client {
            caller,
            known,
            unfinished,
            outs,
        } = self;
        let ended = turn.run(rt, caller, known, unfinished, outs, ask)?;
        told(sort, &outs.call, ended)
    }

    /// Does an operation, and answers what it gave.
    pub(crate) fn act<D: CrashLog, P: CrashPages, R: Wait>(
        &mut self,
        rt: &R,
        turn: &mut Turn<'_, J, D, P>,
        op: &Op,
    ) -> Result<Answer, Refusal>
        ensures number { self.new.number ≡ self.old.number }
        ensures answered { IfOk result (λ a. (u : ℕ) × (n : ℕ) ×
            AddsLiveCall (λ t. event.Act t op.now) (out.Logged n) (Some (TellsAnswer u a)) self.old.calls self.new.calls) }
        ensures refused { IfErr result (λ r.
            RefusedCall (λ t. event.Act t op.now) self.old.calls r self.new.calls) }
    {
        match self.run(rt, turn, Ask::Act(op.copied()))? {
            Told::Answer(answer) => Ok(answer),
            _ => unreachable!(),
        }
    }

    /// Sets a savepoint, and answers its number.
    pub(crate) fn save<D: CrashLog, P: CrashPages, R: Wait>(
        &mut self,
        rt: &R,
        turn: &mut Turn<'_, J, D, P>,
    ) -> Result<u64, Refusal>
        ensures number { self.new.number ≡ self.old.number }
        ensures saved { IfOk result (λ s.
            AddsLiveCall (λ t. event.Save t) (out.Saved s) None self.old.calls self.new.calls) }
        ensures refused { IfErr result (λ r. RefusedCall (λ t. event.Save t) self.old.calls r self.new.calls) }
    {
        let Client {
            caller,
            known,
            unfinished,
            outs,
        } = self;
        let ended = turn.run(rt, caller, known, unfinished, outs, Ask::Save)?;
        saved(&outs.call, ended)
    }

    /// Rolls the transaction back; returns once that is done.
    pub(crate) fn rollback<D: CrashLog, P: CrashPages, R: Wait>(
        &mut self,
        rt: &R,
        turn: &mut Turn<'_, J, D, P>,
    ) -> Result<(), Refusal>
        ensures number { self.new.number ≡ self.old.number }
        ensures rolled_back { IfOk result (λ done. (u : ℕ) ×
            AddsLiveCall (λ t. event.Rollback t) out.RollingBack (Some (TellsRolledBack u)) self.old.calls self.new.calls
            × (self.new.calls.live ≡ None)) }
        ensures refused { IfErr result (λ r. RefusedCall (λ t. event.Rollback t) self.old.calls r self.new.calls) }
    {
        match self.run(rt, turn, Ask::Rollback)? {
            Told::RolledBack => Ok(()),
            _ => unreachable!(),
        }
    }

    /// Rolls the transaction back. Why that was refused, if it was.
    pub(crate) fn undo<D: CrashLog, P: CrashPages, R: Wait>(
        &mut self,
        rt: &R,
        turn: &mut Turn<'_, J, D, P>,
    ) -> Option<Refusal>
        ensures number { self.new.number ≡ self.old.number }
        ensures undone { IsUndone result self.old.calls self.new.calls }
    {
        match self.rollback(rt, turn) {
            Ok(()) => None,
            Err(refusal) => Some(refusal),
        }
    }

    /// Commits the transaction, and answers the number of its Commit record.
    pub(crate) fn commit<D: CrashLog, P: CrashPages, R: Wait>(
        &mut self,
        rt: &R,
        turn: &mut Turn<'_, J, D, P>,
    ) -> Result<u64, Refusal>
        ensures number { self.new.number ≡ self.old.number }
        ensures committed { IfOk result (λ n. (u : ℕ) ×
            AddsLiveCall (λ t. event.Commit t) (out.CommitLogged n) (Some (TellsCommitted u)) self.old.calls self.new.calls
            × (self.new.calls.live ≡ None)) }
        ensures seen { IfOk result (λ n. n ≤ self.new.seat.stable) }
        ensures stable { IfOk result (WasStable J.start J.entries) }
        ensures refused { IfErr result (λ r. RefusedCall (λ t. event.Commit t) self.old.calls r self.new.calls) }
    {
        let Told::Committed(number) = self.run(rt, turn, Ask::Commit)? else {
            unreachable!()
        };
        self.learn(rt, turn, number);
        Ok(number)
    }

    /// Carries on what is unfinished of the session's transaction, and answers what the call would have.
    pub(crate) fn again<D: CrashLog, P: CrashPages, R: Wait>(
        &mut self,
        rt: &R,
        turn: &mut Turn<'_, J, D, P>,
    ) -> Result<Told, Refusal>
        ensures number { self.new.number ≡ self.old.number }
        ensures told { IfOk result (λ told. CarriesOn self.old.calls told self.new.calls) }
        ensures seen { IfOk result (IsSeenBy self.new.seat.stable) }
        ensures stable { IfOk result (IsStableAt J.start J.entries) }
        ensures refused { IfErr result (λ r. RefusedAgain self.old.calls r self.new.calls) }
    {
        let told = self.resume(rt, turn)?;
        self.learn_of(rt, turn, &told);
        Ok(told)
    }

    // The unfinished call, up to what was told of it.
    fn resume<D: CrashLog, P: CrashPages, R: Wait>(
        &mut self,
        rt: &R,
        turn: &mut Turn<'_, J, D, P>,
    ) -> Result<Told, Refusal>
        ensures number { self.new.number ≡ self.old.number }
        ensures told { IfOk result (λ told. CarriesOn self.old.calls told self.new.calls) }
        ensures refused { IfErr result (λ r. RefusedAgain self.old.calls r self.new.calls) }
    {
        let Client {
            caller,
            known,
            unfinished,
            outs,
        } = self;
        let (sort, ended) = turn.again(rt, caller, known, unfinished, outs)?;
        told(sort, &outs.call, ended)
    }

    // Of a commit that was told the session sees that its record is stable.
    fn learn_of<D: CrashLog, P: CrashPages, R: Wait>(
        &mut self,
        rt: &R,
        turn: &mut Turn<'_, J, D, P>,
        told: &Told,
    )
        ensures same { (self.new.number ≡ self.old.number) × (self.new.calls ≡ self.old.calls) }
        ensures seen { IsSeenBy self.new.seat.stable told.now }
        ensures stable { IsStableAt J.start J.entries told.now }
    {
        if let Told::Committed(number) = told {
            self.learn(rt, turn, *number);
        }
    }

    // The session sees that the log is stable up to the record: by the hold in which its commit was told, or by another.
    fn learn<D: CrashLog, P: CrashPages, R: Wait>(
        &mut self,
        rt: &R,
        turn: &mut Turn<'_, J, D, P>,
        number: u64,
    )
        ensures same { (self.new.number ≡ self.old.number) × (self.new.calls ≡ self.old.calls) }
        ensures seen { number ≤ self.new.seat.stable }
        ensures stable { WasStable J.start J.entries number }
    {
        let Client { known, .. } = self;
        for _ in rt.forever() {
            if known.reaches(number) {
                return;
            }
            turn.leave();
            nap(rt);
            turn.learn_once(rt, known);
        }
        unreachable!()
    }
}
