//! A session's call, from the hold in which it is made to its end.
ghost use Rattle.std.specs.Prelude.{◌≡◌, ℕ, false, None, Some, IfOk, IfErr, IfSome, IfNone, OnOk};
ghost use Rattle.engine_guarded.specs.engine_history.specs.Sessions.{call_list, is_pending};
ghost use Rattle.engine_guarded.specs.engine_history.specs.node_laws.specs.declared.event.Event.TheVariants as event;
ghost use Rattle.engine_guarded.specs.engine_answers.specs.Answers.{IsSecond, IsUncalled};
ghost use Rattle.engine_guarded.specs.engine_answers.specs.Asking.{event_of};
ghost use Rattle.engine_monitor.specs.Beginning.{ShowsBegin};
ghost use Rattle.engine_monitor.specs.Ending.{Ends, IsBetweenCalls, IsLeftWith, Resumes, calls_in};

use crate::answers::bar;
use crate::ended::{Ended, Unfinished, left_by};
use crate::known::Known;
use crate::sort::Sort;
use crate::turn::Turn;
use engine_guarded::engine_answers::Ask;
use engine_guarded::engine_history::Naming;
use engine_guarded::{Caller, Outs};
use record_key::Refusal;
use stable::{CrashLog, CrashPages};
use std::sync::Wait;

impl<J: Naming, D: CrashLog, P: CrashPages> Turn<'_, J, D, P> {
    // Lets the next call be made. As long as an earlier one is unfinished it is refused as the transaction component refuses
    // a transaction's other calls; and NotOpen where a crash has cut that off, which is forgotten then.
    fn free<R: Wait>(
        &mut self,
        rt: &R,
        caller: &mut Caller<J>,
        unfinished: &mut Option<Unfinished>,
        outs: &Outs,
    ) -> Result<(), Refusal>
        requires rest { IsBetweenCalls caller.old unfinished.old outs.now.call }
        ensures number { caller.new.number ≡ caller.old.number }
        ensures rest { IsBetweenCalls caller.new unfinished.new outs.now.call }
        ensures calls { call_list (calls_in caller.new) ≡ call_list (calls_in caller.old) }
        ensures free { OnOk result ((caller.new ≡ caller.old) × (unfinished.new ≡ None)) }
        ensures barred { IfErr result (λ r. IsUncalled (calls_in caller.old) r (calls_in caller.new)) }
    {
        if let None = &*unfinished {
            return Ok(());
        }
        if !self.cut_once(rt, caller) {
            return Err(bar(&outs.call));
        }
        *unfinished = None;
        Err(Refusal::NotOpen)
    }

    /// The call that begins a transaction, unless the session has one that is alive.
    pub(crate) fn begin<R: Wait>(
        &mut self,
        rt: &R,
        caller: &mut Caller<J>,
        known: &mut Known<J>,
        unfinished: &mut Option<Unfinished>,
        outs: &mut Outs,
    ) -> Option<Ended>
        requires rest { IsBetweenCalls caller.old unfinished.old outs.old.call }
        ensures number { caller.new.number ≡ caller.old.number }
        ensures rest { IsBetweenCalls caller.new unfinished.new outs.new.call }
        ensures none { IfNone result (IsSecond (calls_in caller.old) (calls_in caller.new)) }
        ensures ends { IfSome result (λ ended.
            Ends event.Begin outs.new.call (calls_in caller.old) ended (calls_in caller.new)) }
        ensures alone { IfSome result (λ ended. is_pending outs.new.call ≡ false
            → ShowsBegin J.entries caller.old.number outs.new.call) }
    {
        let _ = self.free(rt, caller, unfinished, outs);
        if let Some(_) = &*unfinished {
            return None;
        }
        let status = self.begin_once(rt, caller, outs)?;
        caller.shown();
        let ended = self.carry_on(rt, caller, known, 0, outs, status);
        *unfinished = left_by(&ended, 0, Sort::AtOnce);
        Some(ended)
    }

    /// A call of a session's transaction, up to what was told of it. Refused with no entry where no transaction is alive,
    /// and as long as an earlier call of it is unfinished.
    pub(crate) fn run<R: Wait>(
        &mut self,
        rt: &R,
        caller: &mut Caller<J>,
        known: &mut Known<J>,
        unfinished: &mut Option<Unfinished>,
        outs: &mut Outs,
        ask: Ask,
    ) -> Result<Ended, Refusal>
        requires rest { IsBetweenCalls caller.old unfinished.old outs.old.call }
        ensures number { caller.new.number ≡ caller.old.number }
        ensures rest { IsBetweenCalls caller.new unfinished.new outs.new.call }
        ensures uncalled { IfErr result (λ r. IsUncalled (calls_in caller.old) r (calls_in caller.new)) }
        ensures ends { IfOk result (λ ended. (t : ℕ) × ((calls_in caller.old).live ≡ Some t)
            × Ends (event_of t ask) outs.new.call (calls_in caller.old) ended (calls_in caller.new)) }
    {
        self.free(rt, caller, unfinished, outs)?;
        let sort = Sort::of(&ask);
        let Some((txn, status)) = self.ask_once(rt, caller, known, ask, outs) else {
            return Err(Refusal::NotOpen);
        };
        let ended = self.carry_on(rt, caller, known, txn, outs, status);
        *unfinished = left_by(&ended, txn, sort);
        Ok(ended)
    }

    /// Carries on what is unfinished, and tells what that asks for. Refused Unsent where nothing is.
    pub(crate) fn again<R: Wait>(
        &mut self,
        rt: &R,
        caller: &mut Caller<J>,
        known: &mut Known<J>,
        unfinished: &mut Option<Unfinished>,
        outs: &mut Outs,
    ) -> Result<(Sort, Ended), Refusal>
        requires rest { IsBetweenCalls caller.old unfinished.old outs.old.call }
        ensures number { caller.new.number ≡ caller.old.number }
        ensures rest { IsBetweenCalls caller.new unfinished.new outs.new.call }
        ensures none { IfErr result (λ r. (r ≡ Refusal.Unsent) × IsLeftWith (calls_in caller.old) None outs.old.call
            × (calls_in caller.new ≡ calls_in caller.old)) }
        ensures resumes { IfOk result (λ done.
            Resumes done.0 outs.new.call (calls_in caller.old) done.1 (calls_in caller.new)) }
    {
        let Some(call) = unfinished.take() else {
            return Err(Refusal::Unsent);
        };
        let Unfinished { txn, sort } = call;
        let status = self.resume_once(rt, caller, known, txn, outs);
        let ended = self.carry_on(rt, caller, known, txn, outs, status);
        *unfinished = left_by(&ended, txn, sort);
        Ok((sort, ended))
    }
}
