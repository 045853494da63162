//! A session's call, under one hold of the lock.
ghost use Rattle.std.specs.Prelude.{◌≡◌, ℕ, ◌++◌, ◌∷◌, [], false, Some, None, IfSome, IfNone};
ghost use Rattle.engine_history.specs.Commands.{is_command};
ghost use Rattle.engine_history.specs.node_laws.specs.declared.event.Event.TheVariants as event;
ghost use Rattle.engine_history.specs.Kept.{calls_of};
ghost use Rattle.engine_history.specs.Sessions.{IsClosed, is_pending, line_of, calls_by};
ghost use Rattle.engine_history.specs.Views.{Sees};
ghost use Rattle.engine_answers.specs.Answers.{IsSecond, IsUnasked};
ghost use Rattle.engine_answers.specs.Asking.{event_of};
ghost use Rattle.engine_guarded.specs.Callers.{CallsWith, IsStatus};
ghost use Rattle.engine_guarded.specs.Running.{GoesOn, made};

use crate::caller::Caller;
use crate::entry::Entry;
use crate::guarded::Guarded;
use crate::rounds::Kind;
use crate::status::CallStatus;
use boxcar::Vec as Entries;
use engine_answers::Ask;
use engine_history::Naming;
use engine_history::node_laws::{Event, Out};
use stable::{CrashLog, CrashPages};
use std::sync::Wait;

/// What a session's latest call came to at once, and the step that was made last for it.
#[derive(Drop)]
pub struct Outs {
    pub call: Out,
    pub line: Out,
}

impl<J: Naming, D: CrashLog, P: CrashPages> Guarded<J, D, P> {
    // Carries a session's latest call on, as far as the node lets it, and then eases the node. One that defers its force
    // stays as it is: whoever resumes a Commit first forces for all.
    fn go_on<R: Wait>(
        &mut self,
        rt: &R,
        caller: &Caller<J>,
        txn: u64,
        kind: Kind,
        defers: bool,
        out: &mut Out,
    )
        ensures on { GoesOn self.old.steps self.new.steps }
        ensures done { kind ≡ Kind.Done → self.new.steps ≡ self.old.steps }
    {
        if defers && kind == Kind::Force {
            return;
        }
        self.carry_on(rt, caller, txn, kind, out);
        self.ease(rt, caller, kind);
    }

    // A call of a session that has seen all of its calls, as far as the node lets it come, or up to a force.
    fn make<R: Wait>(
        &mut self,
        rt: &R,
        entries: &Entries<Entry>,
        caller: &mut Caller<J>,
        txn: u64,
        event: &Event,
        defers: bool,
        outs: &mut Outs,
    ) -> CallStatus
        requires entries { entries.now ≡ J.entries }
        requires plain { is_command event.now ≡ false }
        requires sees { Sees (calls_of caller.old.number) caller.old.steps self.old.steps }
        requires closed { IsClosed (calls_by caller.old.number caller.old.steps) }
        ensures caller { caller.new ≡ record { number = caller.old.number; steps = self.new.steps; busy = false } }
        ensures calls { CallsWith event.now outs.new.call (calls_by caller.old.number caller.old.steps) result
            (calls_by caller.old.number self.new.steps) }
        ensures entered { is_pending outs.new.call ≡ false
            → self.new.steps ≡ self.old.steps ++ made (Some caller.old.number) event.now outs.new.call ∷ [] }
    {
        let Outs { call, line } = outs;
        self.call(rt, caller, event, call);
        self.go_on(rt, caller, txn, Kind::of(call), defers, line);
        self.finish(rt, entries, caller)
    }

    /// A call of the session's transaction, if one is alive, as far as the node lets it come. A Commit that defers its
    /// force has its record in the log by then: whoever resumes one first forces for all.
    pub fn ask<R: Wait>(
        &mut self,
        rt: &R,
        entries: &Entries<Entry>,
        caller: &mut Caller<J>,
        ask: Ask,
        defers: bool,
        outs: &mut Outs,
    ) -> Option<(u64, CallStatus)>
        requires entries { entries.now ≡ J.entries }
        requires rest { caller.old.busy ≡ false }
        requires closed { IsClosed (calls_by caller.old.number caller.old.steps) }
        ensures caller { caller.new ≡ record { number = caller.old.number; steps = self.new.steps; busy = false } }
        ensures none { IfNone result (IsUnasked (calls_by caller.old.number caller.old.steps)
            (calls_by caller.old.number self.new.steps)) }
        ensures calls { IfSome result (λ made. ((calls_by caller.old.number caller.old.steps).live ≡ Some made.0)
            × CallsWith (event_of made.0 ask) outs.new.call (calls_by caller.old.number caller.old.steps) made.1
            (calls_by caller.old.number self.new.steps)) }
    {
        self.see(entries, caller);
        let Some(txn) = self.live(caller) else {
            self.finish(rt, entries, caller);
            return None;
        };
        let event = ask.into_event(txn);
        let status = self.make(rt, entries, caller, txn, &event, defers, outs);
        Some((txn, status))
    }

    /// The call that begins a transaction, unless one is alive.
    pub fn begin<R: Wait>(
        &mut self,
        rt: &R,
        entries: &Entries<Entry>,
        caller: &mut Caller<J>,
        outs: &mut Outs,
    ) -> Option<CallStatus>
        requires entries { entries.now ≡ J.entries }
        requires rest { caller.old.busy ≡ false }
        requires closed { IsClosed (calls_by caller.old.number caller.old.steps) }
        ensures caller { caller.new ≡ record { number = caller.old.number; steps = self.new.steps; busy = false } }
        ensures none { IfNone result (IsSecond (calls_by caller.old.number caller.old.steps)
            (calls_by caller.old.number self.new.steps)) }
        ensures closed { IfNone result (IsClosed (calls_by caller.old.number self.new.steps)) }
        ensures alone { IfSome result (λ status. (calls_by caller.old.number self.old.steps).live ≡ None) }
        ensures entered { IfSome result (λ status. is_pending outs.new.call ≡ false
            → self.new.steps ≡ self.old.steps ++ made (Some caller.old.number) event.Begin outs.new.call ∷ []) }
        ensures calls { IfSome result (λ status.
            CallsWith event.Begin outs.new.call (calls_by caller.old.number caller.old.steps) status
            (calls_by caller.old.number self.new.steps)) }
    {
        self.see(entries, caller);
        if let Some(_) = self.live(caller) {
            self.finish(rt, entries, caller);
            return None;
        }
        Some(self.make(rt, entries, caller, 0, &Event::Begin, false, outs))
    }

    /// Carries on a call of which nothing was told yet, as far as the node lets it come, also where a step of it has
    /// failed.
    pub fn resume<R: Wait>(
        &mut self,
        rt: &R,
        entries: &Entries<Entry>,
        caller: &mut Caller<J>,
        txn: u64,
        kind: Kind,
        outs: &mut Outs,
    ) -> CallStatus
        requires entries { entries.now ≡ J.entries }
        requires rest { caller.old.busy ≡ false }
        requires untold { line_of (calls_by caller.old.number caller.old.steps).latest ≡ None }
        ensures caller { caller.new ≡ record { number = caller.old.number; steps = self.new.steps; busy = false } }
        ensures status { IsStatus (calls_by caller.old.number caller.old.steps) (calls_by caller.old.number self.new.steps)
            result }
        ensures call { outs.new.call ≡ outs.old.call }
    {
        self.see(entries, caller);
        if !self.is_over(caller) {
            self.go_on(rt, caller, txn, kind, false, &mut outs.line);
        }
        self.finish(rt, entries, caller)
    }
}
