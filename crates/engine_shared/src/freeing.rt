//! Whether a session's next call may be entered.
ghost use Rattle.std.specs.Prelude.{◌≡◌, None, IfErr, OnOk};
ghost use Rattle.engine_answers.specs.engine_history.specs.Sessions.{call_list};
ghost use Rattle.engine_answers.specs.Answers.{IsUncalled};
ghost use Rattle.engine_answers.specs.Unfinished.{IsBetweenCalls};

use crate::monitor::Monitor;
use engine_answers::engine_history::{Caller, Naming};
use engine_answers::{Unfinished, bar};
use record_key::Refusal;
use std::sync::Wait;

/// Lets the next call be entered. As long as an earlier one is unfinished it is refused as the transaction component
/// refuses a transaction's other calls; and NotOpen where a crash has cut that off, which is forgotten then.
pub(crate) fn free<J: Naming, R: Wait>(
    rt: &R,
    monitor: &Monitor<J>,
    caller: &mut Caller<J>,
    unfinished: &mut Option<Unfinished>,
) -> Result<(), Refusal>
    requires rest { IsBetweenCalls J.entries caller.old.calls unfinished.old }
    ensures number { caller.new.number ≡ caller.old.number }
    ensures rest { IsBetweenCalls J.entries caller.new.calls unfinished.new }
    ensures calls { call_list caller.new.calls ≡ call_list caller.old.calls }
    ensures free { OnOk result ((caller.new.calls ≡ caller.old.calls) × (unfinished.new ≡ None)) }
    ensures barred { IfErr result (λ r. IsUncalled caller.old.calls r caller.new.calls) }
{
    let Some(earlier) = &*unfinished else {
        return Ok(());
    };
    let refusal = bar(monitor.out(&earlier.call));
    if !monitor.take_cut(rt, caller) {
        return Err(refusal);
    }
    *unfinished = None;
    Err(Refusal::NotOpen)
}
