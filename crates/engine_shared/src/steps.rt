//! The steps by which a call is carried on.
ghost use Rattle.std.specs.Prelude.{◌≡◌};
ghost use Rattle.engine_answers.specs.engine_history.specs.Slots.{Shown};

use crate::after::After;
use crate::monitor::Job;
use crate::shared::Shared;
use boxcar::Pushed;
use crossbeam_channel::Sender;
use engine_answers::engine_history::{Entry, Gate, KeptOut, Naming, OutForm, hold_soon};
use engine_answers::node_laws::Event;
use record_key::Refusal;
use stable::{CrashLog, CrashPages};
use std::sync::Wait;

/// What is left to do of a call that is told of later.
#[derive(Clone, Copy)]
pub(crate) enum Rest {
    /// Its request is sent until it is answered.
    Request,
    /// Its transaction is undone, step by step.
    Undo,
    /// The log is made stable.
    Force,
}

impl Rest {
    /// What is left to do of a call that came to this.
    pub(crate) fn of(out: &KeptOut) -> Rest {
        match out.form() {
            OutForm::RollingBack => Rest::Undo,
            OutForm::CommitLogged(_) => Rest::Force,
            _ => Rest::Request,
        }
    }
}

impl<J: Naming, G: Gate, D: CrashLog, P: CrashPages> Shared<J, G, D, P> {
    /// Has the request served, if the entry is that of one that was sent: by the session itself where the data component
    /// is free soon, else by a worker.
    pub(crate) fn deliver<R: Wait>(
        &self,
        rt: &R,
        work: &Sender<Job>,
        session: u64,
        token: &Pushed<Entry>,
    ) -> After
        requires shown { Shown J.entries token.now }
    {
        match self.access.monitor.out(token).form() {
            OutForm::Sent(number) => self.have_served(rt, work, Some(session), token, *number),
            OutForm::Refused(Refusal::Unsent | Refusal::NoMemory | Refusal::Device) => After::Look,
            _ => After::Wait,
        }
    }

    // A session that serves its request itself saves two changes of thread, which take longer than a request; so it looks
    // for a while whether the data component is free. But it doesn't sleep for it, where workers do.
    fn have_served<R: Wait>(
        &self,
        rt: &R,
        work: &Sender<Job>,
        session: Option<u64>,
        token: &Pushed<Entry>,
        number: u64,
    ) -> After
        requires shown { Shown J.entries token.now }
    {
        self.look_on(token);
        if let Some(latched) = hold_soon(&self.dc) {
            return self.exchange(rt, latched, number);
        }
        match work.send(rt, Job { number, session }) {
            Ok(()) => After::Wait,
            Err(_) => After::Look,
        }
    }

    // Sends the transaction's request, if there is one to be sent.
    fn send<R: Wait>(&self, rt: &R, work: &Sender<Job>, session: u64, txn: u64) -> After {
        let token = self.access.enter(rt, Event::Send { txn });
        self.deliver(rt, work, session, &token)
    }

    // One step back.
    fn undo<R: Wait>(&self, rt: &R, work: &Sender<Job>, session: u64, txn: u64) -> After {
        let token = self.access.enter(rt, Event::Undo { txn });
        match self.access.monitor.out(&token).form() {
            OutForm::Refused(Refusal::NoMemory | Refusal::Device) => After::Look,
            OutForm::Compensated(_) | OutForm::Refused(_) => self.send(rt, work, session, txn),
            _ => After::Look,
        }
    }

    // The log is made stable, unless another session's force has told of the call.
    fn force<R: Wait>(&self, rt: &R, work: &Sender<Job>, session: u64) -> After {
        if self.access.monitor.must_look(rt, session) {
            return After::Look;
        }
        let (tell, low) = self.access.force(rt);
        if let Some(tell) = tell {
            self.tell(rt, work, &tell);
        }
        if let Some(low) = low {
            self.announce(rt, work, &low);
        }
        After::Look
    }

    // A low number is handed over to the workers, where it is due.
    fn announce<R: Wait>(&self, rt: &R, work: &Sender<Job>, token: &Pushed<Entry>)
        requires shown { Shown J.entries token.now }
    {
        let monitor = &self.access.monitor;
        if monitor.is_low_due(token) {
            self.look_on(token);
            monitor.hand_over(rt, work, token);
        }
    }

    // The data component is told how much of the log is stable. Nobody waits for what comes of it.
    fn tell<R: Wait>(&self, rt: &R, work: &Sender<Job>, token: &Pushed<Entry>)
        requires shown { Shown J.entries token.now }
    {
        if let OutForm::Sent(number) = self.access.monitor.out(token).form() {
            self.have_served(rt, work, None, token, *number);
        }
    }

    // One step towards what is told of a call.
    fn go_on<R: Wait>(
        &self,
        rt: &R,
        work: &Sender<Job>,
        session: u64,
        txn: u64,
        rest: Rest,
    ) -> After {
        match rest {
            Rest::Request => self.send(rt, work, session, txn),
            Rest::Undo => self.undo(rt, work, session, txn),
            Rest::Force => self.force(rt, work, session),
        }
    }

    /// One step towards what is told of a call, and the wait for what follows it. What it fails by is in the history.
    pub(crate) fn step<R: Wait>(
        &self,
        rt: &R,
        work: &Sender<Job>,
        session: u64,
        txn: u64,
        rest: Rest,
    ) {
        let restarts = self.access.monitor.restarts();
        let after = self.go_on(rt, work, session, txn, rest);
        self.access.monitor.follow(rt, session, restarts, after);
    }
}
