//! A session's calls, each in holds of the lock.
ghost use Rattle.std.specs.Prelude.{◌≡◌, true, false, None, Some, IfSome, IfNone};
ghost use Rattle.engine_guarded.specs.Callers.{CallsWith, Follows, IsStatus};
ghost use Rattle.engine_guarded.specs.engine_history.specs.Callers.{IsUntold};
ghost use Rattle.engine_guarded.specs.engine_history.specs.Sessions.{IsClosed, SessionCalls, is_pending, line_of};
ghost use Rattle.engine_guarded.specs.engine_history.specs.node_laws.specs.declared.event.Event.TheVariants as event;
ghost use Rattle.engine_guarded.specs.engine_answers.specs.Answers.{IsSecond, IsUnasked};
ghost use Rattle.engine_guarded.specs.engine_answers.specs.Asking.{event_of};
ghost use Rattle.engine_monitor.specs.Beginning.{BeginsAlone};
ghost use Rattle.engine_monitor.specs.Ending.{Finishes, calls_in};

use crate::ended::{Ended, ended_by};
use crate::held::Held;
use crate::known::Known;
use crate::resting::nap;
use crate::turn::Turn;
use engine_guarded::engine_answers::Ask;
use engine_guarded::engine_history::Naming;
use engine_guarded::{CallStatus, Caller, Heard, Kind, Outs};
use engine_marks::Marks;
use stable::{CrashLog, CrashPages};
use std::sync::Wait;

// Where a session was told of a commit the marks show how much is stable, and the session learns it. It has seen all steps.
fn tell_marks<J: Naming, D: CrashLog, P: CrashPages>(
    held: &mut Held<J, D, P>,
    marks: &Marks,
    caller: &Caller<J>,
    known: &mut Known<J>,
    status: &CallStatus,
)
    requires marks { marks.now ≡ J.marks }
    requires seen { caller.now.steps ≡ held.old.found.steps }
    ensures same { held.new.found ≡ held.old.found }
{
    if let CallStatus::Told(Heard::Committed) = status {
        held.mark(marks, caller);
        known.learn(held, marks);
    }
}

impl<J: Naming, D: CrashLog, P: CrashPages> Turn<'_, J, D, P> {
    /// One hold: a call of the session's transaction, if one is alive, as far as the node lets it come.
    pub(crate) fn ask_once<R: Wait>(
        &mut self,
        rt: &R,
        caller: &mut Caller<J>,
        known: &mut Known<J>,
        ask: Ask,
        outs: &mut Outs,
    ) -> Option<(u64, CallStatus)>
        requires rest { caller.old.busy ≡ false }
        requires closed { IsClosed (calls_in caller.old) }
        ensures number { caller.new.number ≡ caller.old.number }
        ensures rest { caller.new.busy ≡ false }
        ensures none { IfNone result (IsUnasked (calls_in caller.old) (calls_in caller.new)) }
        ensures closed { IfNone result (IsClosed (calls_in caller.new)) }
        ensures calls { IfSome result (λ made. ((calls_in caller.old).live ≡ Some made.0)
            × CallsWith (event_of made.0 ask) outs.new.call (calls_in caller.old) made.1 (calls_in caller.new)) }
    {
        let shared = self.shared;
        let (entries, marks) = (shared.published.entries(), shared.published.marks());
        let mut guard = self.take(rt);
        let held = &mut *guard;
        let made = held
            .guarded
            .ask(rt, entries, caller, ask, shared.defers, outs);
        if let Some((_, status)) = &made {
            tell_marks(held, marks, caller, known, status);
        }
        self.pause(guard);
        made
    }

    /// One hold: the call that begins a transaction, unless one is alive.
    pub(crate) fn begin_once<R: Wait>(
        &mut self,
        rt: &R,
        caller: &mut Caller<J>,
        outs: &mut Outs,
    ) -> Option<CallStatus>
        requires rest { caller.old.busy ≡ false }
        requires closed { IsClosed (calls_in caller.old) }
        ensures number { caller.new.number ≡ caller.old.number }
        ensures rest { caller.new.busy ≡ false }
        ensures none { IfNone result (IsSecond (calls_in caller.old) (calls_in caller.new)) }
        ensures closed { IfNone result (IsClosed (calls_in caller.new)) }
        ensures alone { IfSome result (λ status. BeginsAlone caller.old.number outs.new.call caller.new.steps) }
        ensures calls { IfSome result (λ status.
            CallsWith event.Begin outs.new.call (calls_in caller.old) status (calls_in caller.new)) }
    {
        let entries = self.shared.published.entries();
        let mut guard = self.take(rt);
        let begun = guard.guarded.begin(rt, entries, caller, outs);
        self.pause(guard);
        begun
    }

    /// One hold: a call of which nothing was told yet goes on, as far as the node lets it come.
    pub(crate) fn resume_once<R: Wait>(
        &mut self,
        rt: &R,
        caller: &mut Caller<J>,
        known: &mut Known<J>,
        txn: u64,
        outs: &mut Outs,
    ) -> CallStatus
        requires rest { caller.old.busy ≡ false }
        requires untold { line_of (calls_in caller.old).latest ≡ None }
        ensures number { caller.new.number ≡ caller.old.number }
        ensures rest { caller.new.busy ≡ false }
        ensures status { IsStatus (calls_in caller.old) (calls_in caller.new) result }
        ensures call { outs.new.call ≡ outs.old.call }
    {
        let shared = self.shared;
        let (entries, marks) = (shared.published.entries(), shared.published.marks());
        let kind = Kind::of(&outs.call);
        let mut guard = self.take(rt);
        let held = &mut *guard;
        let status = held.guarded.resume(rt, entries, caller, txn, kind, outs);
        tell_marks(held, marks, caller, known, &status);
        self.pause(guard);
        status
    }

    /// One hold: whether a crash has cut the session's latest call off, of which nothing was told yet.
    pub(crate) fn cut_once<R: Wait>(&mut self, rt: &R, caller: &mut Caller<J>) -> bool
        requires rest { caller.old.busy ≡ false }
        requires untold { line_of (calls_in caller.old).latest ≡ None }
        ensures number { caller.new.number ≡ caller.old.number }
        ensures rest { caller.new.busy ≡ false }
        ensures held { result ≡ false → caller.new ≡ caller.old }
        ensures untold { result ≡ true → IsUntold (calls_in caller.old) (calls_in caller.new) }
        ensures cut { result ≡ true → (calls_in caller.new).live ≡ None }
    {
        let entries = self.shared.published.entries();
        let mut guard = self.take(rt);
        let is_cut = guard.guarded.take_cut(rt, entries, caller);
        self.pause(guard);
        is_cut
    }

    /// One hold: the session is told how far the log is stable, by an entry of its own.
    pub(crate) fn learn_once<R: Wait>(&mut self, rt: &R, known: &mut Known<J>) {
        let marks = self.shared.published.marks();
        let mut guard = self.take(rt);
        known.learn(&mut *guard, marks);
        self.pause(guard);
    }

    /// Goes on until the session's latest call has ended. Where the node lets it come no further its thread gives the lock
    /// back and stays away from it for a while; a commit that shares its force takes it again at once.
    #[tactic(auto, using(crate::proofs::Ending::finishes, crate::proofs::Ending::follows_on, crate::proofs::Ending::untold_still))]
    pub(crate) fn carry_on<R: Wait>(
        &mut self,
        rt: &R,
        caller: &mut Caller<J>,
        known: &mut Known<J>,
        txn: u64,
        outs: &mut Outs,
        first: CallStatus,
    ) -> Ended
        requires rest { caller.old.busy ≡ false }
        requires made { (mid : SessionCalls) × (line_of mid.latest ≡ None)
            × Follows outs.old.call mid first (calls_in caller.old) }
        ensures number { caller.new.number ≡ caller.old.number }
        ensures rest { caller.new.busy ≡ false }
        ensures call { outs.new.call ≡ outs.old.call }
        ensures same { is_pending outs.old.call ≡ false → caller.new ≡ caller.old }
        ensures ends { (mid : SessionCalls) → Follows outs.old.call mid first (calls_in caller.old)
            → Finishes outs.old.call mid result (calls_in caller.new) }
    {
        let mut status = first;
        let mut is_late = !self.shared.defers;
        for _ in rt.forever() {
            if let Some(ended) = ended_by(&outs.call, status) {
                return ended;
            }
            self.leave();
            if is_late {
                nap(rt);
            }
            is_late = true;
            status = self.resume_once(rt, caller, known, txn, outs);
        }
        unreachable!()
    }
}
