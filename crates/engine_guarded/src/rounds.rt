//! The steps that carry a session's call on, and bring the components up.
ghost use Rattle.std.specs.Prelude.{◌≡◌, false, IfErr, OnOk};
ghost use Rattle.engine_history.specs.Commands.{is_command};
ghost use Rattle.engine_history.specs.Sessions.{is_pending};
ghost use Rattle.engine_history.specs.node_laws.specs.Rounds.{AreRunning};
ghost use Rattle.engine_guarded.specs.Found.{IsOutage};
ghost use Rattle.engine_guarded.specs.Running.{GoesOn};

use crate::caller::Caller;
use crate::guarded::Guarded;
use engine_history::Naming;
use engine_history::node_laws::{Event, Out, Round};
use record_key::Refusal;
use stable::{CrashLog, CrashPages};
use std::sync::Wait;

/// How a session's call goes on that came to this.
#[derive(Clone, Copy, PartialEq, Eq)]
pub enum Kind {
    /// Its request is sent, served and answered.
    Exchange,
    /// Its operations are undone.
    Undo,
    /// Its Commit record is made stable.
    Force,
    /// It doesn't.
    Done,
}

impl Kind {
    /// By what the call came to.
    pub fn of(out: &Out) -> Kind
        ensures { is_pending out.now ≡ false → result ≡ Kind.Done }
    {
        match out {
            Out::Logged(_) | Out::Asked(_) => Kind::Exchange,
            Out::RollingBack => Kind::Undo,
            Out::CommitLogged(_) => Kind::Force,
            _ => Kind::Done,
        }
    }
}

// The number of the request that was sent, if one was.
fn sent(out: &Out) -> Option<u64> {
    match out {
        Out::Sent(number) => Some(*number),
        Out::Connects { request, .. } => Some(*request),
        _ => None,
    }
}

impl<J: Naming, D: CrashLog, P: CrashPages> Guarded<J, D, P> {
    /// An event that sends a request, the request's delivery, and that of its reply. Whether a reply was taken.
    pub fn exchange<R: Wait>(&mut self, rt: &R, event: &Event, out: &mut Out) -> bool
        requires plain { is_command event.now ≡ false }
        ensures on { GoesOn self.old.steps self.new.steps }
    {
        self.step(rt, event, out);
        let Some(number) = sent(out) else {
            return false;
        };
        self.step(rt, &Event::Request { number }, out);
        let Out::Replied(number) = out else {
            return false;
        };
        let number = *number;
        self.step(rt, &Event::Reply { number }, out);
        self.took(out)
    }

    // One compensation of a rollback, with its answer: whether nothing was told yet, and it was answered.
    fn undo_one<R: Wait>(&mut self, rt: &R, caller: &Caller<J>, txn: u64, out: &mut Out) -> bool
        ensures on { GoesOn self.old.steps self.new.steps }
    {
        self.step(rt, &Event::Undo { txn }, out);
        if self.must_look(caller) || !self.exchange(rt, &Event::Send { txn }, out) {
            return false;
        }
        !self.must_look(caller)
    }

    // The compensations of a rollback, each answered before the next, until something was told or one isn't answered.
    fn undo<R: Wait>(&mut self, rt: &R, caller: &Caller<J>, txn: u64, out: &mut Out)
        ensures on { GoesOn self.old.steps self.new.steps }
    {
        for _ in rt.forever() {
            if !self.undo_one(rt, caller, txn, out) {
                break;
            }
        }
    }

    /// Carries a session's latest call on, as far as the node lets it.
    pub fn carry_on<R: Wait>(
        &mut self,
        rt: &R,
        caller: &Caller<J>,
        txn: u64,
        kind: Kind,
        out: &mut Out,
    )
        ensures on { GoesOn self.old.steps self.new.steps }
        ensures done { kind ≡ Kind.Done → self.new.steps ≡ self.old.steps }
    {
        match kind {
            Kind::Exchange => {
                self.exchange(rt, &Event::Send { txn }, out);
            }
            Kind::Undo => self.undo(rt, caller, txn, out),
            Kind::Force => self.step(rt, &Event::Force, out),
            Kind::Done => {}
        }
    }

    // An event that may be refused for want of memory or numbers, and where a device fails.
    fn pass<R: Wait>(&mut self, rt: &R, event: &Event, out: &mut Out) -> Result<(), Refusal>
        requires plain { is_command event.now ≡ false }
        ensures on { GoesOn self.old.steps self.new.steps }
        ensures refused { IfErr result IsOutage }
    {
        self.step(rt, event, out);
        passed(out)
    }

    // The same of one that sends a request, which is answered. A leaf that redo has filled is split, and every message let
    // go, unless a session waits for one.
    fn recover<R: Wait>(&mut self, rt: &R, event: &Event, out: &mut Out) -> Result<(), Refusal>
        requires plain { is_command event.now ≡ false }
        ensures on { GoesOn self.old.steps self.new.steps }
        ensures refused { IfErr result IsOutage }
    {
        self.exchange(rt, event, out);
        let done = passed(out);
        self.step(rt, &Event::Tend, out);
        self.forget();
        done
    }

    // One round of bringing the components up, if one is left.
    fn round<R: Wait>(&mut self, rt: &R, out: &mut Out) -> Result<bool, Refusal>
        ensures on { GoesOn self.old.steps self.new.steps }
        ensures refused { IfErr result IsOutage }
        ensures up { result ≡ Ok false → AreRunning self.new.node }
    {
        let Some(round) = self.world().next_round() else {
            return Ok(false);
        };
        match round {
            Round::RestartDc => self.pass(rt, &Event::RestartDc, out)?,
            Round::RestartTc => self.pass(rt, &Event::RestartTc, out)?,
            Round::Connect => self.recover(rt, &Event::Reconnect, out)?,
            Round::Recover => self.recover(rt, &Event::Recover, out)?,
            Round::Lose => self.pass(rt, &Event::Recover, out)?,
            Round::Force => self.pass(rt, &Event::Force, out)?,
            Round::Exchange { .. } | Round::Undo { .. } => return Ok(false),
        }
        Ok(true)
    }

    /// Brings both components up, in one session, and undoes who was lost. Refused NoMemory, Device, NumbersSpent; what
    /// was done by then stands.
    pub fn bring_up<R: Wait>(&mut self, rt: &R, out: &mut Out) -> Result<(), Refusal>
        ensures on { GoesOn self.old.steps self.new.steps }
        ensures refused { IfErr result IsOutage }
        ensures up { OnOk result (AreRunning self.new.node) }
    {
        for _ in rt.forever() {
            if !self.round(rt, out)? {
                self.begin_pace();
                return Ok(());
            }
        }
        unreachable!()
    }
}

// Whether a step may be followed by another that came to this. Refused for want of memory or numbers, and where a device
// failed.
fn passed(out: &Out) -> Result<(), Refusal>
    ensures { IfErr result IsOutage }
{
    match out {
        Out::Refused(Refusal::NoMemory) => Err(Refusal::NoMemory),
        Out::Refused(Refusal::Device) => Err(Refusal::Device),
        Out::Refused(Refusal::NumbersSpent) => Err(Refusal::NumbersSpent),
        _ => Ok(()),
    }
}
