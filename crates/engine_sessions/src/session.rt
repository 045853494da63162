//! A client's calls.
ghost use Rattle.std.specs.Prelude.{◌≡◌, ◌≤◌, ℕ, Some, None, IfOk, IfErr};
ghost use Rattle.history.specs.ListMachine.{TellsAnswer, TellsRow, TellsRows, TellsBack, TellsRolledBack, TellsCommitted};
ghost use Rattle.engine_marks.specs.Seen.{having_read};
ghost use Rattle.engine_shared.specs.node_laws.specs.declared.event.Event.TheVariants as event;
ghost use Rattle.engine_shared.specs.node_laws.specs.declared.event.Out.TheVariants as out;
ghost use Rattle.engine_shared.specs.engine_answers.specs.Answers.{AddsCall, AddsLiveCall, RefusedCall, RefusedBegin, Ends, IsUncalled, ShowsBegun};
ghost use Rattle.engine_shared.specs.engine_answers.specs.Again.{CarriesOn, IsSeenBy, IsStableAt, RefusedAgain, Resumes};
ghost use Rattle.engine_shared.specs.engine_answers.specs.Asking.{event_of};
ghost use Rattle.engine_shared.specs.engine_history.specs.Sessions.{IsClosed};
ghost use Rattle.engine_shared.specs.engine_history.specs.Witnessed.{WasStable};

use crate::ahead::Ahead;
use codec::Rows;
use crossbeam_channel::Sender;
use engine_marks::Seat;
use engine_shared::engine_answers::{
    Ask, Ended, Told, Unfinished, answer_told, back_told, begun, carried_told, commit_told,
    rollback_told, row_told, rows_told, saved,
};
use engine_shared::engine_history::{Caller, Gate, Naming};
use engine_shared::{Job, Shared};
use record_key::{Answer, Key, Op, Refusal, Value};
use stable::{CrashLog, CrashPages, MemLog, MemPages};
use std::alloc::Global;
use std::marker::Model;
use std::sync::{Arc, Wait};

/// A client's place at an engine. It has at most one transaction. Contracts see its number, its calls with what each was
/// answered, and what it has seen of the marks.
#[derive(Drop)]
pub struct Session<J: Naming, G, D: CrashLog = MemLog, P: CrashPages = MemPages> {
    caller: Caller<J>,
    unfinished: Option<Unfinished>,
    seat: Seat,
    shared: Arc<Shared<J, G, D, P>>,
    work: Sender<Job>,
    ahead: Ahead,
}

impl<J: Naming, G, D: CrashLog, P: CrashPages> Model for Session<J, G, D, P> {
    ghost use Rattle.std.specs.Prelude.{◌≡◌};
    ghost use Rattle.std.specs.Coded.{codes};
    ghost use Rattle.atomic_table.specs.Seated.{table_id_coded};
    ghost use Rattle.engine_shared.specs.engine_history.specs.Callers.{SessionView};
    ghost use Rattle.engine_shared.specs.engine_answers.specs.Unfinished.{IsBetweenCalls};

    ghost Value = { SessionView };

    ghost coded = { Prim.hlevel (codes, table_id_coded) };

    ghost view = { λ s. record { number = s.caller.number; calls = s.caller.calls; seat = s.seat } };

    ghost invariant = { λ s. IsBetweenCalls J.entries s.caller.calls s.unfinished × (s.seat.marks ≡ J.marks) };
}

impl<J: Naming, G: Gate + Drop, D: CrashLog + Drop, P: CrashPages + Drop> Session<J, G, D, P> {
    /// A session with no transaction.
    pub fn new(
        alloc: Global,
        caller: Caller<J>,
        seat: Seat,
        shared: Arc<Shared<J, G, D, P>>,
        work: Sender<Job>,
    ) -> Session<J, G, D, P>
        requires closed { IsClosed caller.calls }
        requires seat { seat.marks ≡ J.marks }
        ensures { result ≡ record { number = caller.number; calls = caller.calls; seat = seat } }
    {
        Session {
            caller,
            unfinished: None,
            seat,
            shared,
            work,
            ahead: Ahead::new(alloc),
        }
    }

    /// What the session has seen of the history, and its seat at the marks.
    pub fn into_parts(self) -> (Caller<J>, Seat)
        ensures caller { result.0 ≡ record { number = self.number; calls = self.calls } }
        ensures seat { result.1 ≡ self.seat }
        ensures marks { result.1.marks ≡ J.marks }
    {
        let Session { caller, seat, .. } = self;
        (caller, seat)
    }

    /// How far the log is stable, and up to which number all is answered and announced, as this call reads it. It neither
    /// waits nor locks, and answers no less than the session has seen.
    pub fn marks(&mut self) -> (u64, u64)
        ensures session { (self.new.number ≡ self.old.number) × (self.new.calls ≡ self.old.calls) }
        ensures ordered { result.1 ≤ result.0 }
        ensures never_falls { (self.old.seat.stable ≤ result.0) × (self.old.seat.low ≤ result.1) }
        ensures read { self.new.seat ≡ having_read self.old.seat result.0 result.1 }
    {
        let Session {
            caller: _,
            unfinished: _,
            seat,
            shared,
            work: _,
            ahead: _,
        } = self;
        shared.published().marks().read(seat)
    }

    /// Begins a transaction, and answers its number: right before its entry the session had none alive. Refused Full where
    /// it has one; else as its entry says.
    pub fn begin<R: Wait>(&mut self, rt: &R) -> Result<u64, Refusal>
        ensures number { self.new.number ≡ self.old.number }
        ensures begun { IfOk result (λ t.
            AddsCall event.Begin (out.Begun t) None self.old.calls self.new.calls × (self.new.calls.live ≡ Some t)) }
        ensures alone { IfOk result (ShowsBegun J.entries self.old.number) }
        ensures refused { IfErr result (λ r. RefusedBegin self.old.calls r self.new.calls) }
    {
        let Session {
            caller,
            unfinished,
            seat: _,
            shared,
            work,
            ahead: _,
        } = self;
        let Some(ended) = shared.begin(rt, work, caller, unfinished) else {
            return Err(Refusal::Full);
        };
        begun(shared.published(), &ended)
    }

    // A call of the session's transaction, from its entry to what was told of it.
    fn run<R: Wait>(&mut self, rt: &R, ask: Ask) -> Result<Ended, Refusal>
        ensures number { self.new.number ≡ self.old.number }
        ensures uncalled { IfErr result (λ r. IsUncalled self.old.calls r self.new.calls) }
        ensures ends { IfOk result (λ ended. (t : ℕ) × (self.old.calls.live ≡ Some t)
            × Ends J.entries (event_of t ask) self.old.calls ended self.new.calls) }
    {
        let Session {
            caller,
            unfinished,
            seat: _,
            shared,
            work,
            ahead,
        } = self;
        ahead.call();
        shared.run(rt, work, caller, unfinished, ask)
    }

    /// Does an operation, and answers what it gave. Refused NotOpen where the session has no transaction that is alive,
    /// NotConnected where a crash cut the call off; else as its entry says. Refused NoMemory or Device where a later step
    /// failed: the call is unfinished then, and `again` carries it on. Until that has ended, refused with no entry: for an
    /// operation or a read Unanswered, for a rollback RollingBack, for a commit NotOpen. So are the other calls.
    pub fn act<R: Wait>(&mut self, rt: &R, op: &Op) -> Result<Answer, Refusal>
        ensures number { self.new.number ≡ self.old.number }
        ensures answered { IfOk result (λ a. (u : ℕ) × (n : ℕ) ×
            AddsLiveCall (λ t. event.Act t op.now) (out.Logged n) (Some (TellsAnswer u a)) self.old.calls self.new.calls) }
        ensures refused { IfErr result (λ r.
            RefusedCall (λ t. event.Act t op.now) self.old.calls r self.new.calls) }
    {
        let ended = self.run(rt, Ask::Act(op.copied()))?;
        answer_told(self.shared.published(), &ended)
    }

    /// The value at a key.
    pub fn get<R: Wait>(&mut self, rt: &R, key: &Key) -> Result<Option<Value>, Refusal>
        ensures number { self.new.number ≡ self.old.number }
        ensures read { IfOk result (λ v. (u : ℕ) × (n : ℕ) ×
            AddsLiveCall (λ t. event.Get t key.now) (out.Asked n) (Some (TellsRow u v)) self.old.calls self.new.calls) }
        ensures refused { IfErr result (λ r.
            RefusedCall (λ t. event.Get t key.now) self.old.calls r self.new.calls) }
    {
        let ended = self.run(rt, Ask::Get(key.copied()))?;
        row_told(self.shared.published(), &ended)
    }

    /// The rows from `low` on, below `high` or to the end.
    pub fn scan<R: Wait>(&mut self, rt: &R, low: &Key, high: &Option<Key>) -> Result<Rows, Refusal>
        ensures number { self.new.number ≡ self.old.number }
        ensures read { IfOk result (λ rows. (u : ℕ) × (n : ℕ) ×
            AddsLiveCall (λ t. event.Scan t low.now high.now) (out.Asked n) (Some (TellsRows u rows)) self.old.calls
            self.new.calls) }
        ensures refused { IfErr result (λ r.
            RefusedCall (λ t. event.Scan t low.now high.now) self.old.calls r self.new.calls) }
    {
        let ended = self.run(rt, Ask::Scan(low.copied(), copied_end(high)))?;
        rows_told(rt, self.shared.published(), &ended)
    }

    /// Sets a savepoint, and answers its number.
    pub fn save<R: Wait>(&mut self, rt: &R) -> Result<u64, Refusal>
        ensures number { self.new.number ≡ self.old.number }
        ensures saved { IfOk result (λ s.
            AddsLiveCall (λ t. event.Save t) (out.Saved s) None self.old.calls self.new.calls) }
        ensures refused { IfErr result (λ r. RefusedCall (λ t. event.Save t) self.old.calls r self.new.calls) }
    {
        let ended = self.run(rt, Ask::Save)?;
        saved(self.shared.published(), &ended)
    }

    /// Rolls back to a savepoint; returns once that is done.
    pub fn back_to<R: Wait>(&mut self, rt: &R, savepoint: u64) -> Result<(), Refusal>
        ensures number { self.new.number ≡ self.old.number }
        ensures back { IfOk result (λ done. (u : ℕ) × (s : ℕ) ×
            AddsLiveCall (λ t. event.GoBack t savepoint) out.RollingBack (Some (TellsBack u s)) self.old.calls
            self.new.calls) }
        ensures refused { IfErr result (λ r.
            RefusedCall (λ t. event.GoBack t savepoint) self.old.calls r self.new.calls) }
    {
        let ended = self.run(rt, Ask::GoBack(savepoint))?;
        back_told(self.shared.published(), &ended)
    }

    /// Rolls the transaction back; returns once that is done.
    pub fn rollback<R: Wait>(&mut self, rt: &R) -> Result<(), Refusal>
        ensures number { self.new.number ≡ self.old.number }
        ensures rolled_back { IfOk result (λ done. (u : ℕ) ×
            AddsLiveCall (λ t. event.Rollback t) out.RollingBack (Some (TellsRolledBack u)) self.old.calls self.new.calls
            × (self.new.calls.live ≡ None)) }
        ensures refused { IfErr result (λ r. RefusedCall (λ t. event.Rollback t) self.old.calls r self.new.calls) }
    {
        let ended = self.run(rt, Ask::Rollback)?;
        rollback_told(self.shared.published(), &ended)
    }

    /// Commits the transaction, and answers the number of its Commit record, once that is stable and the session has
    /// seen it so.
    pub fn commit<R: Wait>(&mut self, rt: &R) -> Result<u64, Refusal>
        ensures number { self.new.number ≡ self.old.number }
        ensures committed { IfOk result (λ n. (u : ℕ) ×
            AddsLiveCall (λ t. event.Commit t) (out.CommitLogged n) (Some (TellsCommitted u)) self.old.calls self.new.calls
            × (self.new.calls.live ≡ None)) }
        ensures seen { IfOk result (λ n. n ≤ self.new.seat.stable) }
        ensures stable { IfOk result (WasStable J.start J.entries) }
        ensures refused { IfErr result (λ r. RefusedCall (λ t. event.Commit t) self.old.calls r self.new.calls) }
    {
        let ended = self.run(rt, Ask::Commit)?;
        let number = commit_told(self.shared.published(), &ended)?;
        self.learn(rt, number);
        Ok(number)
    }

    /// Carries on what is unfinished of the session's transaction, and answers what the call would have: `again` is no
    /// call of the session's list, where that call gets its line. Refused Unsent where nothing is unfinished, NoMemory
    /// and Device where a step failed once more, NotConnected where a crash has cut the call off.
    pub fn again<R: Wait>(&mut self, rt: &R) -> Result<Told, Refusal>
        ensures number { self.new.number ≡ self.old.number }
        ensures told { IfOk result (λ told. CarriesOn self.old.calls told self.new.calls) }
        ensures seen { IfOk result (IsSeenBy self.new.seat.stable) }
        ensures stable { IfOk result (IsStableAt J.start J.entries) }
        ensures refused { IfErr result (λ r. RefusedAgain self.old.calls r self.new.calls) }
    {
        let ended = self.resume(rt)?;
        let told = carried_told(rt, self.shared.published(), &ended)?;
        self.learn_of(rt, &told);
        Ok(told)
    }

    // Of a commit that was told the session sees that its record is stable.
    fn learn_of<R: Wait>(&mut self, rt: &R, told: &Told)
        ensures same { (self.new.number ≡ self.old.number) × (self.new.calls ≡ self.old.calls) }
        ensures seen { IsSeenBy self.new.seat.stable told.now }
        ensures stable { IsStableAt J.start J.entries told.now }
    {
        if let Told::Committed(number) = told {
            self.learn(rt, *number);
        }
    }

    // The unfinished call, up to what was told of it.
    fn resume<R: Wait>(&mut self, rt: &R) -> Result<Ended, Refusal>
        ensures number { self.new.number ≡ self.old.number }
        ensures none { IfErr result (λ r.
            (r ≡ Refusal.Unsent) × IsClosed self.old.calls × (self.new.calls ≡ self.old.calls)) }
        ensures resumes { IfOk result (λ ended. Resumes J.entries self.old.calls ended self.new.calls) }
    {
        let Session {
            caller,
            unfinished,
            seat: _,
            shared,
            work,
            ahead: _,
        } = self;
        shared.again(rt, work, caller, unfinished)
    }

    // The session sees that the log is stable up to the record.
    fn learn<R: Wait>(&mut self, rt: &R, number: u64)
        ensures same { (self.new.number ≡ self.old.number) × (self.new.calls ≡ self.old.calls) }
        ensures seen { number ≤ self.new.seat.stable }
        ensures stable { WasStable J.start J.entries number }
    {
        let Session {
            caller: _,
            unfinished: _,
            seat,
            shared,
            work: _,
            ahead: _,
        } = self;
        shared.access().learn(rt, seat, number);
    }
}

// The end of a range again. Takes no memory.
fn copied_end(high: &Option<Key>) -> Option<Key>
    ensures { result ≡ high.now }
{
    match high {
        Some(high) => Some(high.copied()),
        None => None,
    }
}
