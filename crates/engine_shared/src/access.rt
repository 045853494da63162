//! Where calls are entered: the transaction component under its lock, and the monitor.
ghost use Rattle.std.specs.Prelude.{◌≡◌, ◌≤◌, ◌++◌, ◌∷◌, true, false, ℕ, [], Some, None, IfSome, IfNone};
ghost use Rattle.engine_marks.specs.Seen.{reader};
ghost use Rattle.engine_answers.specs.node_laws.specs.declared.event.Event.{Event};
ghost use Rattle.engine_answers.specs.node_laws.specs.declared.event.Event.TheVariants as event;
ghost use Rattle.engine_answers.specs.node_laws.specs.Halves.{of_tc};
ghost use Rattle.engine_answers.specs.engine_history.specs.Adding.{WasSent};
ghost use Rattle.engine_answers.specs.engine_history.specs.Commands.{is_command};
ghost use Rattle.engine_answers.specs.engine_history.specs.Latched.{TcFound, delivers};
ghost use Rattle.engine_answers.specs.engine_history.specs.Forcing.{Forces};
ghost use Rattle.engine_answers.specs.engine_history.specs.Sessions.{IsClosed};
ghost use Rattle.engine_answers.specs.engine_history.specs.Slots.{Slot, Shown};
ghost use Rattle.engine_answers.specs.engine_history.specs.Steps.{replies};
ghost use Rattle.engine_answers.specs.engine_history.specs.Witnessed.{LeftBytes, TcRan, WasStable};
ghost use Rattle.engine_answers.specs.Answers.{BeginsAlone, CallsUntold, IsUnasked, IsSecond};
ghost use Rattle.engine_answers.specs.Asking.{event_of};
ghost use Rattle.engine_shared.specs.Entered.{IsEntered};

use crate::monitor::Monitor;
use boxcar::Pushed;
use engine_answers::Ask;
use engine_answers::engine_history::{
    Caller, Entry, KeptOut, LatchedTc, Naming, Next, Operator, OutForm, hold,
};
use engine_answers::node_laws::Event;
use engine_marks::Seat;
use stable::CrashLog;
use std::sync::{Mutex, Wait};

/// A call that has its entry: its transaction, and the entries of the call and of its request that was sent with it.
pub(crate) struct Called {
    pub(crate) txn: u64,
    pub(crate) token: Pushed<Entry>,
    pub(crate) sent: Option<Pushed<Entry>>,
}

/// The latched transaction component, and the monitor.
#[derive(Drop)]
pub struct Access<J: Naming, D: CrashLog> {
    pub(crate) monitor: Monitor<J>,
    pub(crate) tc: Mutex<LatchedTc<J, D>>,
}

// Whether a call that came to this has a request.
fn has_request(out: &KeptOut) -> bool {
    matches!(out.form(), OutForm::Logged(_) | OutForm::Asked(_))
}

impl<J: Naming, D: CrashLog> Access<J, D> {
    pub(crate) fn new(monitor: Monitor<J>, tc: LatchedTc<J, D>) -> Access<J, D> {
        Access {
            monitor,
            tc: Mutex::new(tc),
        }
    }

    /// An event of the transaction component that is no call and no command, and its entry.
    pub fn enter<R: Wait>(&self, rt: &R, event: Event) -> Pushed<Entry>
        requires tc { of_tc event ≡ true }
        requires plain { delivers event ≡ false }
        requires mild { is_command event ≡ false }
        ensures shown { Shown J.entries result }
        ensures event { result.value.step.value.event ≡ event }
    {
        hold(rt, &self.tc).enter(rt, &self.monitor.published, &self.monitor.history, event)
    }

    /// Enters a call of the session's transaction, if one is alive, and that its request is sent, if it has one.
    pub(crate) fn call<R: Wait>(&self, rt: &R, caller: &mut Caller<J>, ask: Ask) -> Option<Called>
        requires closed { IsClosed caller.old.calls }
        ensures number { caller.new.number ≡ caller.old.number }
        ensures none { IfNone result (IsUnasked caller.old.calls caller.new.calls) }
        ensures calls { IfSome result (λ made. (caller.old.calls.live ≡ Some made.txn)
            × CallsUntold J.entries (event_of made.txn ask) caller.old.calls made.token caller.new.calls) }
        ensures sent { IfSome result (λ made. IfSome made.sent (λ token. Shown J.entries token)) }
        ensures closed { IfNone result (IsClosed caller.new.calls) }
    {
        let Access { monitor, tc } = self;
        let mut latched = hold(rt, tc);
        let txn = monitor.see(rt, caller)?;
        let token = latched.call(
            rt,
            &monitor.published,
            &monitor.history,
            ask.into_event(txn),
            caller,
        );
        let sent = if has_request(monitor.out(&token)) {
            Some(latched.enter(
                rt,
                &monitor.published,
                &monitor.history,
                Event::Send { txn },
            ))
        } else {
            None
        };
        Some(Called { txn, token, sent })
    }

    /// Enters the call that begins a transaction, unless the session has one that is alive.
    pub(crate) fn begin<R: Wait>(&self, rt: &R, caller: &mut Caller<J>) -> Option<Pushed<Entry>>
        requires closed { IsClosed caller.old.calls }
        ensures number { caller.new.number ≡ caller.old.number }
        ensures none { IfNone result (IsSecond caller.old.calls caller.new.calls) }
        ensures calls { IfSome result (λ token.
            CallsUntold J.entries event.Begin caller.old.calls token caller.new.calls) }
        ensures alone { IfSome result (λ token. BeginsAlone caller.old.number token) }
        ensures closed { IfNone result (IsClosed caller.new.calls) }
    {
        let Access { monitor, tc } = self;
        let mut latched = hold(rt, tc);
        if monitor.see(rt, caller).is_some() {
            return None;
        }
        Some(latched.call(
            rt,
            &monitor.published,
            &monitor.history,
            Event::Begin,
            caller,
        ))
    }

    /// Makes the log stable; says how much is stable, and announces what is answered: the entries of both.
    pub(crate) fn force<R: Wait>(&self, rt: &R) -> (Option<Pushed<Entry>>, Option<Pushed<Entry>>)
        ensures forced { (old : TcFound) × (new : TcFound) × Forces J.start J.entries old result.0 result.1 new }
        ensures tell { IfSome result.0 (λ token. Shown J.entries token) }
        ensures low { IfSome result.1 (λ token. Shown J.entries token) }
    {
        let Access { monitor, tc } = self;
        hold(rt, tc).force(rt, &monitor.published, &monitor.history)
    }

    /// Lets a session see that the log is stable up to the record, and makes it so where it isn't. Where that fails it is
    /// tried again. The data component is told of it with the next commit.
    pub fn learn<R: Wait>(&self, rt: &R, seat: &mut Seat, number: u64)
        requires seat { seat.old.marks ≡ J.marks }
        ensures seat { seat.new.marks ≡ J.marks }
        ensures stable { number ≤ seat.new.stable }
        ensures stood { WasStable J.start J.entries number }
    {
        for _ in rt.forever() {
            let stable = hold(rt, &self.tc).teach(&self.monitor.published, seat);
            if number <= stable {
                return;
            }
            self.force(rt);
        }
        unreachable!()
    }

    /// The reply of this number is taken, where the history holds it as given: the entry.
    pub(crate) fn take<R: Wait>(&self, rt: &R, number: u64) -> Option<Pushed<Entry>>
        ensures shown { IfSome result (λ token. Shown J.entries token) }
        ensures event { IfSome result (λ token. token.value.step.value.event ≡ event.Reply number) }
        ensures sent { IfSome result (WasSent replies number) }
    {
        hold(rt, &self.tc)
            .take(rt, &self.monitor.published, &self.monitor.history, number)
            .ok()
    }

    /// What is to be done next to bring the component up, beside a data component that runs this session.
    pub(crate) fn next<R: Wait>(&self, rt: &R, operator: &mut Operator<J>, session: u64) -> Next
        ensures operator { operator.new ≡ operator.old }
        ensures ran { result ≡ Next.Nothing → TcRan J.start J.entries operator.old session }
    {
        let Access { monitor, tc } = self;
        let mut latched = tc.lock(rt);
        latched.look(rt, monitor.published.entries(), &monitor.history, operator);
        latched.kept();
        latched.next(session)
    }

    /// The component crashes, and keeps so many bytes of what isn't stable of its log.
    pub fn crash<R: Wait>(&self, rt: &R, kept: u64, operator: &mut Operator<J>)
        ensures { (entry : Slot) × LeftBytes J.start J.entries kept operator.old entry operator.new }
    {
        let Access { monitor, tc } = self;
        tc.lock(rt)
            .crash(rt, &monitor.published, &monitor.history, kept, operator);
        monitor.wake();
    }

    /// The call of this number, from now on, of the device of the component's log fails.
    pub fn fail<R: Wait>(&self, rt: &R, call: u64, operator: &mut Operator<J>)
        ensures given { operator.new ≡ operator.old ++ event.FailTc call ∷ [] }
        ensures entered { IsEntered J.entries (event.FailTc call) }
    {
        let Access { monitor, tc } = self;
        tc.lock(rt).command(
            rt,
            &monitor.published,
            &monitor.history,
            Event::FailTc { call },
            operator,
        );
    }
}
