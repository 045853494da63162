//! A session's call, from its entry to what was told of it.
ghost use Rattle.std.specs.Prelude.{◌≡◌, true, ℕ, Some, None, IfOk, IfErr, IfSome, IfNone};
ghost use Rattle.engine_answers.specs.engine_history.specs.Sessions.{IsClosed, is_pending};
ghost use Rattle.engine_answers.specs.engine_history.specs.Slots.{Shown};
ghost use Rattle.engine_answers.specs.node_laws.specs.declared.event.Event.TheVariants as event;
ghost use Rattle.engine_answers.specs.Again.{Resumes};
ghost use Rattle.engine_answers.specs.Answers.{BeganAlone, Ends, Finishes, IsSecond, IsUncalled};
ghost use Rattle.engine_answers.specs.Asking.{event_of};
ghost use Rattle.engine_answers.specs.Unfinished.{IsBetweenCalls, call_in, left_by};

use crate::access::Called;
use crate::freeing::free;
use crate::monitor::Job;
use crate::shared::Shared;
use crate::steps::Rest;
use crossbeam_channel::Sender;
use engine_answers::engine_history::{CallStatus, Caller, Gate, Naming};
use engine_answers::{Ask, Ended, Unfinished, left_by};
use record_key::Refusal;
use stable::{CrashLog, CrashPages};
use std::sync::Wait;

impl<J: Naming, G: Gate, D: CrashLog, P: CrashPages> Shared<J, G, D, P> {
    // Goes on until something is told of the session's latest call, or nothing more will be, or a step fails.
    fn carry_on<R: Wait>(
        &self,
        rt: &R,
        work: &Sender<Job>,
        caller: &mut Caller<J>,
        call: Unfinished,
    ) -> Ended
        requires shown { Shown J.entries call.call }
        requires awaited { is_pending call.call.value.step.value.out ≡ true }
        requires latest { caller.old.calls.latest ≡ Some (call_in call.call) }
        ensures number { caller.new.number ≡ caller.old.number }
        ensures ends { Finishes J.entries call.call caller.old.calls result caller.new.calls }
        ensures rest { IsBetweenCalls J.entries caller.new.calls (left_by result) }
    {
        let monitor = &self.access.monitor;
        let session = caller.number();
        let Unfinished { txn, call } = call;
        let rest = Rest::of(monitor.out(&call));
        for _ in rt.forever() {
            match monitor.look(rt, caller) {
                CallStatus::Line(line) => return Ended::Told(call, line),
                CallStatus::CutOff => return Ended::CutOff,
                CallStatus::Refused(failure) => {
                    return Ended::Unfinished(Unfinished { txn, call }, failure);
                }
                CallStatus::Nothing => {}
            }
            self.step(rt, work, session, txn, rest);
        }
        unreachable!()
    }

    // A call that has its entry, up to what was told of it.
    fn finish<R: Wait>(
        &self,
        rt: &R,
        work: &Sender<Job>,
        caller: &mut Caller<J>,
        call: Unfinished,
    ) -> Ended
        requires shown { Shown J.entries call.call }
        requires latest { caller.old.calls.latest ≡ Some (call_in call.call) }
        ensures number { caller.new.number ≡ caller.old.number }
        ensures ends { Finishes J.entries call.call caller.old.calls result caller.new.calls }
        ensures rest { IsBetweenCalls J.entries caller.new.calls (left_by result) }
    {
        if !self.access.monitor.out(&call.call).is_pending() {
            let Unfinished { txn: _, call } = call;
            return Ended::AtOnce(call);
        }
        self.carry_on(rt, work, caller, call)
    }

    /// The call that begins a transaction, unless the session has one that is alive.
    pub fn begin<R: Wait>(
        &self,
        rt: &R,
        work: &Sender<Job>,
        caller: &mut Caller<J>,
        unfinished: &mut Option<Unfinished>,
    ) -> Option<Ended>
        requires rest { IsBetweenCalls J.entries caller.old.calls unfinished.old }
        ensures number { caller.new.number ≡ caller.old.number }
        ensures rest { IsBetweenCalls J.entries caller.new.calls unfinished.new }
        ensures none { IfNone result (IsSecond caller.old.calls caller.new.calls) }
        ensures ends { IfSome result (λ ended.
            Ends J.entries event.Begin caller.old.calls ended caller.new.calls) }
        ensures alone { IfSome result (BeganAlone caller.old.number) }
    {
        let _ = free(rt, &self.access.monitor, caller, unfinished);
        if let Some(_) = &*unfinished {
            return None;
        }
        let token = self.access.begin(rt, caller)?;
        let call = Unfinished {
            txn: 0,
            call: token,
        };
        let ended = self.finish(rt, work, caller, call);
        *unfinished = left_by(&ended);
        Some(ended)
    }

    /// A call of a session's transaction, from its entry to what was told of it. Refused with no entry where no
    /// transaction is alive, and as long as an earlier call of it is unfinished.
    pub fn run<R: Wait>(
        &self,
        rt: &R,
        work: &Sender<Job>,
        caller: &mut Caller<J>,
        unfinished: &mut Option<Unfinished>,
        ask: Ask,
    ) -> Result<Ended, Refusal>
        requires rest { IsBetweenCalls J.entries caller.old.calls unfinished.old }
        ensures number { caller.new.number ≡ caller.old.number }
        ensures rest { IsBetweenCalls J.entries caller.new.calls unfinished.new }
        ensures uncalled { IfErr result (λ r. IsUncalled caller.old.calls r caller.new.calls) }
        ensures ends { IfOk result (λ ended. (t : ℕ) × (caller.old.calls.live ≡ Some t)
            × Ends J.entries (event_of t ask) caller.old.calls ended caller.new.calls) }
    {
        free(rt, &self.access.monitor, caller, unfinished)?;
        // Read before the request is sent, so that no restart after it is missed.
        let restarts = self.access.monitor.restarts();
        let Some(Called { txn, token, sent }) = self.access.call(rt, caller, ask) else {
            return Err(Refusal::NotOpen);
        };
        if let Some(sent) = &sent {
            let after = self.deliver(rt, work, caller.number(), sent);
            self.access
                .monitor
                .follow(rt, caller.number(), restarts, after);
        }
        let ended = self.finish(rt, work, caller, Unfinished { txn, call: token });
        *unfinished = left_by(&ended);
        Ok(ended)
    }

    /// Carries on what is unfinished. Refused Unsent where nothing is.
    pub fn again<R: Wait>(
        &self,
        rt: &R,
        work: &Sender<Job>,
        caller: &mut Caller<J>,
        unfinished: &mut Option<Unfinished>,
    ) -> Result<Ended, Refusal>
        requires rest { IsBetweenCalls J.entries caller.old.calls unfinished.old }
        ensures number { caller.new.number ≡ caller.old.number }
        ensures rest { IsBetweenCalls J.entries caller.new.calls unfinished.new }
        ensures none { IfErr result (λ r.
            (r ≡ Refusal.Unsent) × IsClosed caller.old.calls × (caller.new.calls ≡ caller.old.calls)) }
        ensures resumes { IfOk result (λ ended. Resumes J.entries caller.old.calls ended caller.new.calls) }
    {
        let Some(call) = unfinished.take() else {
            return Err(Refusal::Unsent);
        };
        self.access.monitor.resume(rt, caller);
        let ended = self.carry_on(rt, work, caller, call);
        *unfinished = left_by(&ended);
        Ok(ended)
    }
}
