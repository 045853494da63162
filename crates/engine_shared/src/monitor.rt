//! What every thread looks at: the entries, and what sessions wait for.
ghost use Rattle.std.specs.Prelude.{◌≡◌, ℕ, true, false, Some, None, IfSome};
ghost use Rattle.engine_answers.specs.engine_history.specs.Callers.{IsStatus, IsUntold};
ghost use Rattle.engine_answers.specs.engine_history.specs.Sessions.{IsClosed, call_list, line_of};
ghost use Rattle.engine_answers.specs.engine_history.specs.Slots.{Shown};

use crate::after::After;
use boxcar::Pushed;
use crossbeam_channel::Sender;
use engine_answers::engine_history::{
    CallStatus, Caller, Entry, EventHistory, KeptOut, LatchedDc, Naming, OutForm, Published, hold,
};
use engine_answers::node_laws::Event;
use stable::{CrashLog, CrashPages};
use std::sync::atomic::{AtomicU64, Ordering};
use std::sync::{Condvar, Mutex, Wait};

/// How far a low number is at least above the last one that was handed over, before it is handed over itself; as far as
/// there are leaves where these are more, so that raising them takes bounded time for each operation.
const LOW_STEP: u64 = 4096;

/// A request on its way to a worker: its number, and the session that waits for what comes of it, if one does.
#[derive(Clone, Copy, Drop)]
pub struct Job {
    pub(crate) number: u64,
    pub(crate) session: Option<u64>,
}

/// The history under its lock, with what is read of it without, and the condition on which sessions wait beside it.
#[derive(Drop)]
pub struct Monitor<J: Naming> {
    pub(crate) published: Published<J>,
    pub(crate) history: Mutex<EventHistory<J>>,
    condition: Condvar,
    restarts: AtomicU64,
    // The last low number that was handed over since the components were brought up.
    low: AtomicU64,
    // How many leaves there were when the latest was split or joined.
    leaves: AtomicU64,
}

// The low number that an entry announces, 0 where it announces none.
fn low_in(entry: &Entry) -> u64 {
    match entry.step.event.lent().get() {
        Event::LowWater { low } => *low,
        _ => 0,
    }
}

impl<J: Naming> Monitor<J> {
    pub(crate) fn new(published: Published<J>, history: EventHistory<J>) -> Monitor<J> {
        Monitor {
            published,
            history: Mutex::new(history),
            condition: Condvar::new(),
            restarts: AtomicU64::new(0),
            low: AtomicU64::new(0),
            leaves: AtomicU64::new(0),
        }
    }

    /// How often the components were brought up.
    pub(crate) fn restarts(&self) -> u64 {
        self.restarts.load(Ordering::SeqCst)
    }

    /// The components were brought up: who waits looks again.
    pub(crate) fn brought_up<R: Wait>(&self, rt: &R) {
        self.low.store(0, Ordering::SeqCst);
        self.restarts.fetch_add(1, Ordering::SeqCst);
        // Who is about to wait has seen the count, or waits by now.
        drop(self.history.lock(rt));
        self.wake();
    }

    /// Who waits looks again.
    pub(crate) fn wake(&self) {
        self.condition.notify_all();
    }

    /// What the session sent was answered or lost.
    pub(crate) fn wake_session<R: Wait>(&self, rt: &R, session: Option<u64>) {
        if let Some(session) = session {
            hold(rt, &self.history).wake_session(session);
        }
    }

    /// The session's latest call goes on: what failed of it so far is no matter any more.
    pub(crate) fn resume<R: Wait>(&self, rt: &R, caller: &Caller<J>) {
        hold(rt, &self.history).resume(caller);
    }

    /// Whether a session that waits has something to do.
    pub(crate) fn must_look<R: Wait>(&self, rt: &R, session: u64) -> bool {
        hold(rt, &self.history).must_look(session)
    }

    /// Waits until something was told of the session's call, or failed of it, or another step may be made.
    fn wait<R: Wait>(&self, rt: &R, session: u64, restarts: u64) {
        let _history = self
            .condition
            .wait_while(rt, hold(rt, &self.history), |history| {
                !history.must_look(session) && self.restarts() == restarts
            });
    }

    /// Waits where that is to follow a step of the session's call.
    pub(crate) fn follow<R: Wait>(&self, rt: &R, session: u64, restarts: u64, after: After) {
        if after == After::Wait {
            self.wait(rt, session, restarts);
        }
    }

    /// What a session finds that waits.
    pub(crate) fn look<R: Wait>(&self, rt: &R, caller: &mut Caller<J>) -> CallStatus
        requires untold { line_of caller.old.calls.latest ≡ None }
        ensures number { caller.new.number ≡ caller.old.number }
        ensures status { IsStatus J.entries caller.old.calls caller.new.calls result }
    {
        hold(rt, &self.history).take_status(self.published.entries(), caller)
    }

    /// Whether nothing more is told of the session's latest call, which the session has then seen.
    pub(crate) fn take_cut<R: Wait>(&self, rt: &R, caller: &mut Caller<J>) -> bool
        requires untold { line_of caller.old.calls.latest ≡ None }
        ensures number { caller.new.number ≡ caller.old.number }
        ensures cut { result ≡ true → IsUntold caller.old.calls caller.new.calls × (caller.new.calls.live ≡ None) }
        ensures still { result ≡ false → caller.new.calls ≡ caller.old.calls }
    {
        hold(rt, &self.history).take_cut(self.published.entries(), caller)
    }

    /// The session's transaction, if that is alive, where the session has seen all entries.
    pub(crate) fn see<R: Wait>(&self, rt: &R, caller: &mut Caller<J>) -> Option<u64>
        requires closed { IsClosed caller.old.calls }
        ensures number { caller.new.number ≡ caller.old.number }
        ensures calls { call_list caller.new.calls ≡ call_list caller.old.calls }
        ensures closed { IsClosed caller.new.calls }
        ensures live { result ≡ caller.new.calls.live }
        ensures kept { IfSome result (λ t. caller.old.calls.live ≡ Some t) }
    {
        hold(rt, &self.history).see(self.published.entries(), caller)
    }

    /// What an entry came to.
    pub(crate) fn out(&self, token: &Pushed<Entry>) -> &KeptOut
        requires shown { Shown J.entries token.now }
        ensures { result.now ≡ token.now.value.step.value.out }
    {
        self.published.entries().value(token).out()
    }

    /// Whether a low number is so far above the last one that was due that it is handed over: to raise it is to visit
    /// each leaf. One that isn't is a message that is lost; the next one says more.
    pub(crate) fn is_low_due(&self, token: &Pushed<Entry>) -> bool
        requires shown { Shown J.entries token.now }
    {
        let low = low_in(self.published.entries().value(token));
        let step = LOW_STEP.max(self.leaves.load(Ordering::SeqCst));
        let is_due = low.saturating_sub(self.low.load(Ordering::SeqCst)) >= step;
        if is_due {
            self.low.store(low, Ordering::SeqCst);
        }
        is_due
    }

    /// Keeps the leaves small. Where their count has changed it is noted.
    pub(crate) fn tend<D: CrashLog, P: CrashPages, R: Wait>(
        &self,
        rt: &R,
        latched: &mut LatchedDc<J, D, P>,
    ) {
        if latched
            .tend(rt, self.published.entries(), &self.history)
            .is_some()
        {
            self.leaves.store(latched.leaves() as u64, Ordering::SeqCst);
        }
    }

    /// Hands a request over to the workers, if the entry is that of one that was sent; nobody waits for it.
    pub(crate) fn hand_over<R: Wait>(&self, rt: &R, work: &Sender<Job>, token: &Pushed<Entry>)
        requires shown { Shown J.entries token.now }
    {
        if let OutForm::Sent(number) = self.out(token).form() {
            let job = Job {
                number: *number,
                session: None,
            };
            let _ = work.send(rt, job);
        }
    }
}
