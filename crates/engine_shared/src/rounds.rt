//! How the components are brought up, and in one session.
ghost use Rattle.std.specs.Prelude.{◌≡◌, true, false, IfOk, IfErr, OnOk, IfSome};
ghost use Rattle.engine_answers.specs.node_laws.specs.Halves.{of_tc};
ghost use Rattle.engine_shared.specs.Outages.{IsOutage};
ghost use Rattle.engine_answers.specs.engine_history.specs.Commands.{is_command};
ghost use Rattle.engine_answers.specs.engine_history.specs.Latched.{delivers};
ghost use Rattle.engine_answers.specs.engine_history.specs.Witnessed.{DcRan, WereUp};

use crate::shared::Shared;
use codec::{Reply, Request};
use engine_answers::engine_history::{Gate, KeptOut, Naming, Next, Operator, OutForm};
use engine_answers::node_laws::{Event, Out};
use record_key::Refusal;
use stable::{CrashLog, CrashPages};
use std::sync::Wait;

// Nobody looks on while the components are brought up.
struct Nobody;

impl Gate for Nobody {
    fn before(&self, _request: &Request) {}

    fn after(&self, _reply: &Reply) {}
}

// Whether a round goes on that came to this. Refused for want of memory or numbers, and where a device failed.
fn passed(out: &KeptOut) -> Result<bool, Refusal>
    ensures refused { IfErr result IsOutage }
    ensures goes_on { IfOk result (λ left. left ≡ true) }
{
    match out.form() {
        OutForm::Refused(Refusal::NoMemory) => Err(Refusal::NoMemory),
        OutForm::Refused(Refusal::Device) => Err(Refusal::Device),
        OutForm::Refused(Refusal::NumbersSpent) => Err(Refusal::NumbersSpent),
        _ => Ok(true),
    }
}

impl<J: Naming, G, D: CrashLog, P: CrashPages> Shared<J, G, D, P> {
    /// Brings both components up, in one session, and undoes who was lost. Refused NoMemory, Device, NumbersSpent; what
    /// was done by then stands.
    pub fn bring_up<R: Wait>(&self, rt: &R, operator: &mut Operator<J>) -> Result<(), Refusal>
        ensures operator { operator.new ≡ operator.old }
        ensures up { OnOk result (WereUp J.start J.entries operator.old) }
        ensures refused { IfErr result IsOutage }
    {
        for _ in rt.forever() {
            if !self.round(rt, operator)? {
                self.access.monitor.brought_up(rt);
                return Ok(());
            }
        }
        unreachable!()
    }

    // One round, if one is left.
    fn round<R: Wait>(&self, rt: &R, operator: &mut Operator<J>) -> Result<bool, Refusal>
        ensures operator { operator.new ≡ operator.old }
        ensures up { IfOk result (λ left. left ≡ false → WereUp J.start J.entries operator.old) }
        ensures refused { IfErr result IsOutage }
    {
        let Some(session) = self.session(rt, operator) else {
            return self.restart_dc(rt);
        };
        match self.access.next(rt, operator, session) {
            Next::Nothing => Ok(false),
            Next::Restart => self.pass(rt, Event::RestartTc),
            Next::Lose => self.pass(rt, Event::Recover),
            Next::Force => self.pass(rt, Event::Force),
            Next::Connect => self.exchange_up(rt, Event::Reconnect),
            Next::Recover => self.exchange_up(rt, Event::Recover),
        }
    }

    // The session that the data component runs, where it isn't down.
    fn session<R: Wait>(&self, rt: &R, operator: &mut Operator<J>) -> Option<u64>
        ensures operator { operator.new ≡ operator.old }
        ensures ran { IfSome result (DcRan J.start J.entries operator.old) }
    {
        let monitor = &self.access.monitor;
        let mut latched = self.dc.lock(rt);
        latched.look(rt, monitor.published.entries(), &monitor.history, operator);
        latched.kept();
        latched.session().ok()
    }

    // The data component is restarted.
    fn restart_dc<R: Wait>(&self, rt: &R) -> Result<bool, Refusal>
        ensures refused { IfErr result IsOutage }
        ensures goes_on { IfOk result (λ left. left ≡ true) }
    {
        let monitor = &self.access.monitor;
        let token = self.dc.lock(rt).turn(
            rt,
            monitor.published.entries(),
            &monitor.history,
            Event::RestartDc,
        );
        passed(monitor.out(&token))
    }

    // An event of the transaction component.
    fn pass<R: Wait>(&self, rt: &R, event: Event) -> Result<bool, Refusal>
        requires tc { of_tc event ≡ true }
        requires plain { delivers event ≡ false }
        requires mild { is_command event ≡ false }
        ensures refused { IfErr result IsOutage }
        ensures goes_on { IfOk result (λ left. left ≡ true) }
    {
        let token = self.access.enter(rt, event);
        passed(self.access.monitor.out(&token))
    }

    // An event that sends a request, which is served, and its reply taken.
    fn exchange_up<R: Wait>(&self, rt: &R, event: Event) -> Result<bool, Refusal>
        requires tc { of_tc event ≡ true }
        requires plain { delivers event ≡ false }
        requires mild { is_command event ≡ false }
        ensures refused { IfErr result IsOutage }
        ensures goes_on { IfOk result (λ left. left ≡ true) }
    {
        let token = self.access.enter(rt, event);
        let out = self.access.monitor.out(&token);
        match number_sent(out) {
            Some(number) => self.serve_up(rt, number),
            None => passed(out),
        }
    }

    // The request is served, a leaf that redo has filled is split, and the reply is taken.
    fn serve_up<R: Wait>(&self, rt: &R, number: u64) -> Result<bool, Refusal>
        ensures refused { IfErr result IsOutage }
        ensures goes_on { IfOk result (λ left. left ≡ true) }
    {
        let monitor = &self.access.monitor;
        let mut latched = self.dc.lock(rt);
        let served = latched.serve(
            rt,
            monitor.published.entries(),
            &monitor.history,
            &Nobody,
            number,
        );
        monitor.tend(rt, &mut latched);
        drop(latched);
        let Ok(token) = served else {
            return Ok(true);
        };
        let out = monitor.out(&token);
        let OutForm::Replied(reply) = out.form() else {
            return passed(out);
        };
        match self.access.take(rt, *reply) {
            Some(token) => passed(monitor.out(&token)),
            None => Ok(true),
        }
    }
}

// The number of the request that was sent, if one was.
fn number_sent(out: &KeptOut) -> Option<u64> {
    match (out.form(), out.other()) {
        (OutForm::Sent(request), _) | (_, Some(Out::Connects { request, .. })) => Some(*request),
        _ => None,
    }
}
