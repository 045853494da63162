//! The calls of an engine's clients and of who has the engine, as traits: a program that is generic in them plays on either
//! engine, and has what both promise.
ghost use Rattle.std.specs.Prelude.{◌≡◌, ℕ, ◌≤◌, List, [], ◌∷◌, ◌++◌, Some, None, IfOk, IfErr};
ghost use Rattle.history.specs.ListMachine.{TellsAnswer, TellsRow, TellsRows, TellsBack, TellsRolledBack, TellsCommitted};
ghost use Rattle.engine_marks.specs.Seen.{having_read};
ghost use Rattle.engine_history.specs.Callers.{SessionView};
ghost use Rattle.engine_history.specs.node_laws.specs.declared.event.Event.{Event};
ghost use Rattle.engine_history.specs.node_laws.specs.declared.event.Event.TheVariants as event;
ghost use Rattle.engine_history.specs.node_laws.specs.declared.event.Out.TheVariants as out;
ghost use Rattle.engine_answers.specs.Again.{CarriesOn, IsSeenBy, RefusedAgain};
ghost use Rattle.engine_answers.specs.Answers.{AddsCall, AddsLiveCall, RefusedBegin, RefusedCall};

use crate::told::Told;
use codec::Rows;
use record_key::{Answer, Key, Op, Refusal, Value};
use std::sync::Wait;

/// A client's calls of its session. The engines' own calls say more of what their entries show, and when each is refused.
pub trait Calls {
    /// The session's number, its calls with what each was answered, and what it has seen of the marks.
    ghost session: { Self → SessionView };

    /// How far the log is stable, and up to which number all is answered and announced, as this call reads it.
    fn marks(&mut self) -> (u64, u64)
        ensures number { (session self.new).number ≡ (session self.old).number }
        ensures calls { (session self.new).calls ≡ (session self.old).calls }
        ensures ordered { result.1 ≤ result.0 }
        ensures stable_never_falls { (session self.old).seat.stable ≤ result.0 }
        ensures low_never_falls { (session self.old).seat.low ≤ result.1 }
        ensures read { (session self.new).seat ≡ having_read (session self.old).seat result.0 result.1 };

    /// Begins a transaction, and answers its number.
    fn begin<R: Wait>(&mut self, rt: &R) -> Result<u64, Refusal>
        ensures number { (session self.new).number ≡ (session self.old).number }
        ensures begun { IfOk result (λ t. AddsCall event.Begin (out.Begun t) None (session self.old).calls
            (session self.new).calls × ((session self.new).calls.live ≡ Some t)) }
        ensures refused { IfErr result (λ r. RefusedBegin (session self.old).calls r (session self.new).calls) };

    /// Does an operation, and answers what it gave.
    fn act<R: Wait>(&mut self, rt: &R, op: &Op) -> Result<Answer, Refusal>
        ensures number { (session self.new).number ≡ (session self.old).number }
        ensures answered { IfOk result (λ a. (u : ℕ) × (n : ℕ) ×
            AddsLiveCall (λ t. event.Act t op.now) (out.Logged n) (Some (TellsAnswer u a)) (session self.old).calls
            (session self.new).calls) }
        ensures refused { IfErr result (λ r.
            RefusedCall (λ t. event.Act t op.now) (session self.old).calls r (session self.new).calls) };

    /// The value at a key.
    fn get<R: Wait>(&mut self, rt: &R, key: &Key) -> Result<Option<Value>, Refusal>
        ensures number { (session self.new).number ≡ (session self.old).number }
        ensures read { IfOk result (λ v. (u : ℕ) × (n : ℕ) ×
            AddsLiveCall (λ t. event.Get t key.now) (out.Asked n) (Some (TellsRow u v)) (session self.old).calls
            (session self.new).calls) }
        ensures refused { IfErr result (λ r.
            RefusedCall (λ t. event.Get t key.now) (session self.old).calls r (session self.new).calls) };

    /// The rows from `low` on, below `high` or to the end.
    fn scan<R: Wait>(&mut self, rt: &R, low: &Key, high: &Option<Key>) -> Result<Rows, Refusal>
        ensures number { (session self.new).number ≡ (session self.old).number }
        ensures read { IfOk result (λ rows. (u : ℕ) × (n : ℕ) ×
            AddsLiveCall (λ t. event.Scan t low.now high.now) (out.Asked n) (Some (TellsRows u rows))
            (session self.old).calls (session self.new).calls) }
        ensures refused { IfErr result (λ r.
            RefusedCall (λ t. event.Scan t low.now high.now) (session self.old).calls r (session self.new).calls) };

    /// Sets a savepoint, and answers its number.
    fn save<R: Wait>(&mut self, rt: &R) -> Result<u64, Refusal>
        ensures number { (session self.new).number ≡ (session self.old).number }
        ensures saved { IfOk result (λ s. AddsLiveCall (λ t. event.Save t) (out.Saved s) None (session self.old).calls
            (session self.new).calls) }
        ensures refused { IfErr result (λ r.
            RefusedCall (λ t. event.Save t) (session self.old).calls r (session self.new).calls) };

    /// Rolls back to a savepoint; returns once that is done.
    fn back_to<R: Wait>(&mut self, rt: &R, savepoint: u64) -> Result<(), Refusal>
        ensures number { (session self.new).number ≡ (session self.old).number }
        ensures back { IfOk result (λ done. (u : ℕ) × (s : ℕ) ×
            AddsLiveCall (λ t. event.GoBack t savepoint) out.RollingBack (Some (TellsBack u s)) (session self.old).calls
            (session self.new).calls) }
        ensures refused { IfErr result (λ r.
            RefusedCall (λ t. event.GoBack t savepoint) (session self.old).calls r (session self.new).calls) };

    /// Rolls the transaction back; returns once that is done.
    fn rollback<R: Wait>(&mut self, rt: &R) -> Result<(), Refusal>
        ensures number { (session self.new).number ≡ (session self.old).number }
        ensures rolled_back { IfOk result (λ done. (u : ℕ) ×
            AddsLiveCall (λ t. event.Rollback t) out.RollingBack (Some (TellsRolledBack u)) (session self.old).calls
            (session self.new).calls × ((session self.new).calls.live ≡ None)) }
        ensures refused { IfErr result (λ r.
            RefusedCall (λ t. event.Rollback t) (session self.old).calls r (session self.new).calls) };

    /// Commits the transaction, and answers the number of its Commit record, once that is stable and the session has seen
    /// it so.
    fn commit<R: Wait>(&mut self, rt: &R) -> Result<u64, Refusal>
        ensures number { (session self.new).number ≡ (session self.old).number }
        ensures committed { IfOk result (λ n. (u : ℕ) ×
            AddsLiveCall (λ t. event.Commit t) (out.CommitLogged n) (Some (TellsCommitted u)) (session self.old).calls
            (session self.new).calls × ((session self.new).calls.live ≡ None)) }
        ensures seen { IfOk result (λ n. n ≤ (session self.new).seat.stable) }
        ensures refused { IfErr result (λ r.
            RefusedCall (λ t. event.Commit t) (session self.old).calls r (session self.new).calls) };

    /// Carries on what is unfinished of the session's transaction, and answers what the call would have.
    fn again<R: Wait>(&mut self, rt: &R) -> Result<Told, Refusal>
        ensures number { (session self.new).number ≡ (session self.old).number }
        ensures told { IfOk result (λ told. CarriesOn (session self.old).calls told (session self.new).calls) }
        ensures seen { IfOk result (IsSeenBy (session self.new).seat.stable) }
        ensures refused { IfErr result (λ r. RefusedAgain (session self.old).calls r (session self.new).calls) };
}

/// The calls of who has an engine, beside its clients'.
pub trait Commands {
    /// The crashes that were made and the failures that were set, in order.
    ghost given: { Self → List Event };

    /// The data component crashes. Nothing is kept that isn't stable.
    fn crash_dc<R: Wait>(&mut self, rt: &R)
        ensures { given self.new ≡ given self.old ++ event.CrashDc 0 0 ∷ [] };

    /// The transaction component crashes. Of what isn't stable of the log so many bytes are kept, or all of it where it has
    /// fewer.
    fn crash_tc<R: Wait>(&mut self, rt: &R, kept: u64)
        ensures { (frames : ℕ) × (bytes : ℕ) × (given self.new ≡ given self.old ++ event.CrashTc frames bytes ∷ []) };

    /// The call of this number, from now on, of the device of the transaction component's log fails.
    fn fail_tc<R: Wait>(&mut self, rt: &R, call: u64)
        ensures { given self.new ≡ given self.old ++ event.FailTc call ∷ [] };

    /// Brings both components up, in one session, and undoes who was lost.
    fn restart<R: Wait>(&mut self, rt: &R) -> Result<(), Refusal>
        ensures { given self.new ≡ given self.old };
}
