//! What a worker does.
ghost use Rattle.std.specs.Prelude.{IfSome};
ghost use Rattle.engine_answers.specs.engine_history.specs.Slots.{Shown};

use crate::after::After;
use crate::monitor::Job;
use crate::shared::Shared;
use boxcar::Pushed;
use crossbeam_channel::Receiver;
use engine_answers::engine_history::{Entry, Gate, LatchedDc, Naming, OutForm, hold};
use record_key::Refusal;
use stable::{CrashLog, CrashPages};
use std::sync::{MutexGuard, Wait};

/// Serves requests until the engine and every session are gone.
pub fn work<J, G, D, P, R>(rt: &R, shared: &Shared<J, G, D, P>, jobs: &Receiver<Job>)
where
    J: Naming,
    G: Gate,
    D: CrashLog,
    P: CrashPages,
    R: Wait,
{
    for _ in rt.forever() {
        let Ok(job) = jobs.recv(rt) else {
            break;
        };
        shared.serve(rt, job);
    }
}

impl<J: Naming, G: Gate, D: CrashLog, P: CrashPages> Shared<J, G, D, P> {
    // Serves one request, and hands its reply over.
    fn serve<R: Wait>(&self, rt: &R, job: Job) {
        let monitor = &self.access.monitor;
        if self.exchange(rt, hold(rt, &self.dc), job.number) == After::Look {
            monitor.wake_session(rt, job.session);
        }
        monitor.wake();
    }

    /// The program sees the request that an entry sent, with no lock held: once, before that is served or handed over.
    pub(crate) fn look_on(&self, token: &Pushed<Entry>)
        requires { Shown J.entries token.now }
    {
        if let Some(request) = self.published().entries().value(token).sent() {
            self.gate.before(request);
        }
    }

    /// The request is served, the leaves are kept small, and its reply is taken. The session has to look again; but not
    /// where the data component is down, in redo or in another session, since who restarts it says when it is up.
    pub(crate) fn exchange<R: Wait>(
        &self,
        rt: &R,
        latched: MutexGuard<'_, LatchedDc<J, D, P>>,
        number: u64,
    ) -> After {
        match self.served(rt, latched, number) {
            Some(token) => self.take_over(rt, &token),
            None => After::Look,
        }
    }

    // The request is served, if the history holds it as sent, and the leaves are kept small.
    fn served<R: Wait>(
        &self,
        rt: &R,
        latched: MutexGuard<'_, LatchedDc<J, D, P>>,
        number: u64,
    ) -> Option<Pushed<Entry>>
        ensures { IfSome result (λ token. Shown J.entries token) }
    {
        let monitor = &self.access.monitor;
        let entries = monitor.published.entries();
        let mut latched = latched;
        let served = latched.serve(rt, entries, &monitor.history, &self.gate, number);
        monitor.tend(rt, &mut latched);
        served.ok()
    }

    // The reply that an entry gave is taken.
    fn take_over<R: Wait>(&self, rt: &R, token: &Pushed<Entry>) -> After
        requires { Shown J.entries token.now }
    {
        let entry = self.published().entries().value(token);
        if let Some(reply) = entry.given() {
            self.gate.after(reply);
        }
        match entry.out().form() {
            OutForm::Replied(reply) => {
                self.access.take(rt, *reply);
                After::Look
            }
            OutForm::Refused(Refusal::NotConnected | Refusal::Redoing | Refusal::Stale) =>
                After::Wait,
            _ => After::Look,
        }
    }
}
