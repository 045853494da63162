//! A client's calls.
ghost use Rattle.std.specs.Prelude.{◌≡◌, ◌≤◌, ℕ, false, Some, None, IfOk, IfErr};
ghost use Rattle.history.specs.ListMachine.{TellsAnswer, TellsRow, TellsRows, TellsBack, TellsRolledBack, TellsCommitted};
ghost use Rattle.engine_marks.specs.Seen.{having_read};
ghost use Rattle.engine_guarded.specs.engine_history.specs.node_laws.specs.declared.event.Event.TheVariants as event;
ghost use Rattle.engine_guarded.specs.engine_history.specs.node_laws.specs.declared.event.Out.TheVariants as out;
ghost use Rattle.engine_guarded.specs.engine_history.specs.Sessions.{IsClosed};
ghost use Rattle.engine_guarded.specs.engine_answers.specs.Again.{CarriesOn, IsSeenBy, RefusedAgain};
ghost use Rattle.engine_guarded.specs.engine_answers.specs.Answers.{AddsCall, AddsLiveCall, RefusedBegin, RefusedCall};
ghost use Rattle.engine_monitor.specs.Batches.{IsBatch, IsRefusedBatch};
ghost use Rattle.engine_monitor.specs.Beginning.{ShowsBegin};
ghost use Rattle.engine_monitor.specs.Ending.{calls_in};
ghost use Rattle.engine_monitor.specs.Sessions.{IsStableAt, WasStable, session_of};

use crate::batch::BatchRefused;
use crate::client::Client;
use crate::known::Known;
use crate::shared::Shared;
use codec::Rows;
use engine_guarded::Caller;
use engine_guarded::engine_answers::{Ask, Told};
use engine_guarded::engine_history::Naming;
use record_key::{Answer, Key, Op, Refusal, Value};
use stable::{CrashLog, CrashPages, MemLog, MemPages};
use std::alloc::Global;
use std::marker::Model;
use std::sync::{Arc, Wait};

/// A client's place at an engine. It has at most one transaction. Contracts see its number, its calls with what each was
/// answered, and what it has seen of the marks.
#[derive(Drop)]
pub struct Session<J: Naming, D: CrashLog = MemLog, P: CrashPages = MemPages> {
    client: Client<J>,
    shared: Arc<Shared<J, D, P>>,
}

impl<J: Naming, D: CrashLog, P: CrashPages> Model for Session<J, D, P> {
    ghost use Rattle.std.specs.Coded.{codes};
    ghost use Rattle.atomic_table.specs.Seated.{table_id_coded};
    ghost use Rattle.engine_guarded.specs.engine_history.specs.Callers.{SessionView};

    ghost Value = { SessionView };

    ghost coded = { Prim.hlevel (codes, table_id_coded) };

    ghost view = { λ s. s.client };
}

impl<J: Naming, D: CrashLog + Drop, P: CrashPages + Drop> Session<J, D, P> {
    /// A session with no transaction.
    pub(crate) fn new(
        caller: Caller<J>,
        known: Known<J>,
        shared: Arc<Shared<J, D, P>>,
    ) -> Session<J, D, P>
        requires rest { caller.busy ≡ false }
        requires closed { IsClosed (calls_in caller) }
        ensures { result ≡ session_of caller known }
    {
        Session {
            client: Client::new(caller, known),
            shared,
        }
    }

    /// The session's own side of its calls.
    pub(crate) fn into_caller(self) -> Caller<J>
        ensures number { result.number ≡ self.number }
        ensures calls { calls_in result ≡ self.calls }
        ensures rest { result.busy ≡ false }
    {
        let Session { client, .. } = self;
        client.into_caller()
    }

    /// How far the log is stable, and up to which number all is answered and announced, as this call reads it. It neither
    /// waits nor locks, and answers no less than the session has seen.
    pub fn marks(&mut self) -> (u64, u64)
        ensures session { (self.new.number ≡ self.old.number) × (self.new.calls ≡ self.old.calls) }
        ensures ordered { result.1 ≤ result.0 }
        ensures never_falls { (self.old.seat.stable ≤ result.0) × (self.old.seat.low ≤ result.1) }
        ensures read { self.new.seat ≡ having_read self.old.seat result.0 result.1 }
    {
        let Session { client, shared } = self;
        client.read(shared.published.marks())
    }

    /// Begins a transaction, and answers its number: right before that call the session had none alive. Refused Full where
    /// it has one; else as its entry says.
    pub fn begin<R: Wait>(&mut self, rt: &R) -> Result<u64, Refusal>
        ensures number { self.new.number ≡ self.old.number }
        ensures begun { IfOk result (λ t.
            AddsCall event.Begin (out.Begun t) None self.old.calls self.new.calls × (self.new.calls.live ≡ Some t)) }
        ensures alone { IfOk result (λ t. ShowsBegin J.entries self.old.number (out.Begun t)) }
        ensures refused { IfErr result (λ r. RefusedBegin self.old.calls r self.new.calls) }
    {
        let Session { client, shared } = self;
        client.begin(rt, &mut shared.turn(false))
    }

    /// Does an operation, and answers what it gave. Refused NotOpen where the session has no transaction that is alive,
    /// NotConnected where a crash cut the call off; else as its entry says. Refused NoMemory or Device where a later step
    /// failed: the call is unfinished then, and `again` carries it on. Until that has ended, refused with no entry: for an
    /// operation or a read Unanswered, for a rollback RollingBack, for a commit NotOpen. So are the other calls.
    pub fn act<R: Wait>(&mut self, rt: &R, op: &Op) -> Result<Answer, Refusal>
        ensures number { self.new.number ≡ self.old.number }
        ensures answered { IfOk result (λ a. (u : ℕ) × (n : ℕ) ×
            AddsLiveCall (λ t. event.Act t op.now) (out.Logged n) (Some (TellsAnswer u a)) self.old.calls self.new.calls) }
        ensures refused { IfErr result (λ r.
            RefusedCall (λ t. event.Act t op.now) self.old.calls r self.new.calls) }
    {
        let Session { client, shared } = self;
        client.act(rt, &mut shared.turn(false), op)
    }

    /// The value at a key.
    pub fn get<R: Wait>(&mut self, rt: &R, key: &Key) -> Result<Option<Value>, Refusal>
        ensures number { self.new.number ≡ self.old.number }
        ensures read { IfOk result (λ v. (u : ℕ) × (n : ℕ) ×
            AddsLiveCall (λ t. event.Get t key.now) (out.Asked n) (Some (TellsRow u v)) self.old.calls self.new.calls) }
        ensures refused { IfErr result (λ r.
            RefusedCall (λ t. event.Get t key.now) self.old.calls r self.new.calls) }
    {
        let Session { client, shared } = self;
        match client.run(rt, &mut shared.turn(false), Ask::Get(key.copied()))? {
            Told::Row(value) => Ok(value),
            _ => unreachable!(),
        }
    }

    /// The rows from `low` on, below `high` or to the end.
    pub fn scan<R: Wait>(&mut self, rt: &R, low: &Key, high: &Option<Key>) -> Result<Rows, Refusal>
        ensures number { self.new.number ≡ self.old.number }
        ensures read { IfOk result (λ rows. (u : ℕ) × (n : ℕ) ×
            AddsLiveCall (λ t. event.Scan t low.now high.now) (out.Asked n) (Some (TellsRows u rows)) self.old.calls
            self.new.calls) }
        ensures refused { IfErr result (λ r.
            RefusedCall (λ t. event.Scan t low.now high.now) self.old.calls r self.new.calls) }
    {
        let Session { client, shared } = self;
        let ask = Ask::Scan(low.copied(), copied_end(high));
        match client.run(rt, &mut shared.turn(false), ask)? {
            Told::Rows(rows) => Ok(rows),
            _ => unreachable!(),
        }
    }

    /// Sets a savepoint, and answers its number.
    pub fn save<R: Wait>(&mut self, rt: &R) -> Result<u64, Refusal>
        ensures number { self.new.number ≡ self.old.number }
        ensures saved { IfOk result (λ s.
            AddsLiveCall (λ t. event.Save t) (out.Saved s) None self.old.calls self.new.calls) }
        ensures refused { IfErr result (λ r. RefusedCall (λ t. event.Save t) self.old.calls r self.new.calls) }
    {
        let Session { client, shared } = self;
        client.save(rt, &mut shared.turn(false))
    }

    /// Rolls back to a savepoint; returns once that is done.
    pub fn back_to<R: Wait>(&mut self, rt: &R, savepoint: u64) -> Result<(), Refusal>
        ensures number { self.new.number ≡ self.old.number }
        ensures back { IfOk result (λ done. (u : ℕ) × (s : ℕ) ×
            AddsLiveCall (λ t. event.GoBack t savepoint) out.RollingBack (Some (TellsBack u s)) self.old.calls
            self.new.calls) }
        ensures refused { IfErr result (λ r.
            RefusedCall (λ t. event.GoBack t savepoint) self.old.calls r self.new.calls) }
    {
        let Session { client, shared } = self;
        match client.run(rt, &mut shared.turn(false), Ask::GoBack(savepoint))? {
            Told::Back => Ok(()),
            _ => unreachable!(),
        }
    }

    /// Rolls the transaction back; returns once that is done.
    pub fn rollback<R: Wait>(&mut self, rt: &R) -> Result<(), Refusal>
        ensures number { self.new.number ≡ self.old.number }
        ensures rolled_back { IfOk result (λ done. (u : ℕ) ×
            AddsLiveCall (λ t. event.Rollback t) out.RollingBack (Some (TellsRolledBack u)) self.old.calls self.new.calls
            × (self.new.calls.live ≡ None)) }
        ensures refused { IfErr result (λ r. RefusedCall (λ t. event.Rollback t) self.old.calls r self.new.calls) }
    {
        let Session { client, shared } = self;
        client.rollback(rt, &mut shared.turn(false))
    }

    /// Commits the transaction, and answers the number of its Commit record, once that is stable and the session has
    /// seen it so.
    pub fn commit<R: Wait>(&mut self, rt: &R) -> Result<u64, Refusal>
        ensures number { self.new.number ≡ self.old.number }
        ensures committed { IfOk result (λ n. (u : ℕ) ×
            AddsLiveCall (λ t. event.Commit t) (out.CommitLogged n) (Some (TellsCommitted u)) self.old.calls self.new.calls
            × (self.new.calls.live ≡ None)) }
        ensures seen { IfOk result (λ n. n ≤ self.new.seat.stable) }
        ensures stable { IfOk result (WasStable J.start J.entries) }
        ensures refused { IfErr result (λ r. RefusedCall (λ t. event.Commit t) self.old.calls r self.new.calls) }
    {
        let Session { client, shared } = self;
        client.commit(rt, &mut shared.turn(false))
    }

    /// Carries on what is unfinished of the session's transaction, and answers what the call would have: `again` is no
    /// call of the session's list, where that call gets its line. Refused Unsent where nothing is unfinished, NoMemory
    /// and Device where a step failed once more, NotConnected where a crash has cut the call off.
    pub fn again<R: Wait>(&mut self, rt: &R) -> Result<Told, Refusal>
        ensures number { self.new.number ≡ self.old.number }
        ensures told { IfOk result (λ told. CarriesOn self.old.calls told self.new.calls) }
        ensures seen { IfOk result (IsSeenBy self.new.seat.stable) }
        ensures stable { IfOk result (IsStableAt J.start J.entries) }
        ensures refused { IfErr result (λ r. RefusedAgain self.old.calls r self.new.calls) }
    {
        let Session { client, shared } = self;
        client.again(rt, &mut shared.turn(false))
    }

    /// Begins a transaction, does each of the operations and commits, in one hold of the lock, and answers what each gave,
    /// once the transaction's Commit record is stable and the session has seen it so. The lock is given back meanwhile
    /// only where a call waits.
    /// Refused as `begin` is, or NoMemory where there is no room for the answers: nothing is called then. Else it names the
    /// first operation that was refused, and the transaction is rolled back; or it is refused as `commit` is.
    pub fn batch<R: Wait>(
        &mut self,
        rt: &R,
        alloc: Global,
        ops: &[Op],
    ) -> Result<Vec<Answer>, BatchRefused>
        ensures number { self.new.number ≡ self.old.number }
        ensures answered { IfOk result (λ answers. (n : ℕ) ×
            IsBatch J.entries self.old.number ops.now answers.items n self.old.calls self.new.calls
            × (n ≤ self.new.seat.stable) × WasStable J.start J.entries n) }
        ensures refused { IfErr result (λ refused.
            IsRefusedBatch J.entries self.old.number ops.now self.old.calls refused self.new.calls) }
    {
        let Session { client, shared } = self;
        client.batch(rt, &mut shared.turn(true), alloc, ops)
    }
}

// The end of a range again. Takes no memory.
fn copied_end(high: &Option<Key>) -> Option<Key>
    ensures { result ≡ high.now }
{
    match high {
        Some(high) => Some(high.copied()),
        None => None,
    }
}
