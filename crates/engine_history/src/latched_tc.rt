//! What lies under the lock of the transaction component.
ghost use Rattle.std.specs.Prelude.{◌≡◌, ◌+◌, ◌≤◌, ◌++◌, ◌∷◌, ℕ, [], true, false, max, IsTrue, Option, None, Some, IfOk, OnErr, IfSome};
ghost use Rattle.engine_marks.specs.Seen.{raiser, reader};
ghost use Rattle.node_sides.specs.tc_core.specs.Kept.{IsTc};
ghost use Rattle.node_sides.specs.tc_core.specs.Replies.{is_of_another};
ghost use Rattle.node_sides.specs.node_laws.specs.declared.event.Event.TheVariants as event;
ghost use Rattle.node_sides.specs.node_laws.specs.Halves.{of_tc, TcLeads, TcTakes};
ghost use Rattle.node_sides.specs.node_laws.specs.Messages.{message_at};
ghost use Rattle.engine_history.specs.Adding.{AddsEntry, WasSent};
ghost use Rattle.engine_history.specs.Commands.{commands, is_command};
ghost use Rattle.engine_history.specs.Latched.{delivers};
ghost use Rattle.engine_history.specs.Forcing.{Announces, Forces};
ghost use Rattle.engine_history.specs.Marking.{announced, low_of, IsLowOf};
ghost use Rattle.engine_history.specs.Sessions.{IsCalled, IsClosed, IsLeft, calls_by};
ghost use Rattle.engine_history.specs.Slots.{Shown};
ghost use Rattle.engine_history.specs.Steps.{GivesTc, is_tc, tc_start, count, replies};
ghost use Rattle.engine_history.specs.Witnessed.{AreWitnessed, LeftBytes, RunsIn, WasStable};

use crate::caller::Caller;
use crate::copying::{copied, lent};
use crate::entry::Entry;
use crate::event_history::EventHistory;
use crate::growth::boxed;
use crate::holding::hold;
use crate::kept_event::KeptEvent;
use crate::kept_out::KeptOut;
use crate::lines::Unsent;
use crate::message::Message;
use crate::naming::Naming;
use crate::next::Next;
use crate::operator::Operator;
use crate::published::Published;
use crate::step::Step;
use crate::view::Cursor;
use boxcar::{Pushed, Vec as Entries};
use codec::Reply;
use engine_agreement::Mark;
use engine_marks::{Marks, Seat};
use node_sides::TcSide;
use node_sides::node_laws::{Event, Out};
use node_sides::tc_core::Phase;
use stable::CrashLog;
use std::alloc::Global;
use std::marker::Model;
use std::sync::{Mutex, Wait};
use std::thread;

/// The transaction component with what it has seen of the history. Contracts see the steps up to there, and the
/// component.
#[derive(Drop)]
pub struct LatchedTc<J: Naming, D: CrashLog> {
    alloc: Global,
    side: TcSide<D>,
    sent: u64,
    cursor: Cursor<J>,
    seat: Seat,
}

impl<J: Naming, D: CrashLog> Model for LatchedTc<J, D> {
    ghost use Rattle.std.specs.Coded.{codes};
    ghost use Rattle.atomic_table.specs.Seated.{table_id_coded};
    ghost use Rattle.engine_history.specs.Latched.{TcFound, LatchedTcKept};

    ghost Value = { TcFound };

    ghost coded = { Prim.hlevel (codes, table_id_coded) };

    ghost view = { λ d. record {
      steps = d.cursor.steps;
      state = record { side = d.side; sent = d.sent };
      seat = d.seat;
    } };

    ghost invariant = { λ d. LatchedTcKept J.start J.names J.marks d.cursor record { side = d.side; sent = d.sent } d.seat };
}

/// The number of the next message. No component sends so many that there is none.
pub fn next_number<R: Wait>(rt: &R, sent: u64) -> u64
    ensures { result ≡ sent + 1 }
{
    for _ in rt.forever() {
        if sent < u64::MAX {
            return sent + 1;
        }
        thread::yield_now();
    }
    unreachable!()
}

impl<J: Naming, D: CrashLog> LatchedTc<J, D> {
    /// The component at its start.
    pub fn new(alloc: Global, side: TcSide<D>, mark: Mark, seat: Seat) -> LatchedTc<J, D>
        requires start { side ≡ J.start.tc }
        requires mark { (mark.name ≡ J.names 0) × (mark.number ≡ 0) }
        requires seat { seat ≡ raiser J.marks 0 0 }
        ensures { result.state ≡ tc_start J.start }
    {
        LatchedTc {
            alloc,
            side,
            sent: 0,
            cursor: Cursor::new(mark),
            seat,
        }
    }

    /// What is found under the lock is what the entries give up to the last one that it has seen. The stable mark is no
    /// more than what is stable of the log, and the low mark is the greatest number that these entries have announced.
    pub fn kept(&self)
        ensures gives { GivesTc J.start self.now.steps self.now.state }
        ensures stable { self.now.seat.stable ≤ self.now.state.side.tc.stable }
        ensures low { self.now.seat.low ≡ announced self.now.steps }
        ensures shown { AreWitnessed J.entries self.now.steps }
    {
        self.cursor.kept();
    }

    /// The component, which is what all entries give.
    pub fn into_side(self, entries: &Entries<Entry>, history: &mut EventHistory<J>) -> TcSide<D>
        requires entries { entries.now ≡ J.entries }
        ensures same { history.new ≡ history.old }
        ensures side { result ≡ self.state.side }
        ensures gives { (sent : ℕ) × GivesTc J.start history.old record { side = result; sent = sent } }
    {
        let LatchedTc {
            alloc: _,
            side,
            sent: _,
            mut cursor,
            seat: _,
        } = self;
        history.look_tc(entries, &mut cursor);
        side
    }

    /// A step that is no client's call and no command and delivers nothing, and its entry.
    pub fn enter<R: Wait>(
        &mut self,
        rt: &R,
        published: &Published<J>,
        history: &Mutex<EventHistory<J>>,
        event: Event,
    ) -> Pushed<Entry>
        requires tc { of_tc event ≡ true }
        requires plain { delivers event ≡ false }
        requires mild { is_command event ≡ false }
        ensures shown { Shown J.entries result }
        ensures event { result.value.step.value.event ≡ event }
        ensures added { AddsEntry is_tc self.old.steps result self.new.steps }
    {
        let LatchedTc {
            alloc,
            side,
            sent,
            cursor,
            seat,
        } = self;
        let (step, after) = stepped(rt, *alloc, side, *sent, None, event);
        *sent = after;
        mark(published.marks(), seat, side, &step);
        hold(rt, history).enter_tc(rt, published.entries(), cursor, step)
    }

    /// A command of the engine, and its entry.
    pub fn command<R: Wait>(
        &mut self,
        rt: &R,
        published: &Published<J>,
        history: &Mutex<EventHistory<J>>,
        event: Event,
        operator: &mut Operator<J>,
    ) -> Pushed<Entry>
        requires tc { of_tc event ≡ true }
        requires command { is_command event ≡ true }
        ensures shown { Shown J.entries result }
        ensures event { result.value.step.value.event ≡ event }
        ensures added { AddsEntry is_tc self.old.steps result self.new.steps }
        ensures stood { GivesTc J.start result.value.before.steps self.old.state }
        ensures given { operator.new ≡ operator.old ++ event ∷ [] }
        ensures first { commands result.value.before.steps ≡ operator.old }
    {
        let LatchedTc {
            alloc,
            side,
            sent,
            cursor,
            seat,
        } = self;
        let (step, after) = stepped(rt, *alloc, side, *sent, None, event);
        *sent = after;
        mark(published.marks(), seat, side, &step);
        hold(rt, history).command_tc(rt, published.entries(), cursor, step, operator)
    }

    /// A session's call, and its entry.
    pub fn call<R: Wait>(
        &mut self,
        rt: &R,
        published: &Published<J>,
        history: &Mutex<EventHistory<J>>,
        event: Event,
        caller: &mut Caller<J>,
    ) -> Pushed<Entry>
        requires tc { of_tc event ≡ true }
        requires plain { delivers event ≡ false }
        requires mild { is_command event ≡ false }
        requires closed { IsClosed caller.old.calls }
        ensures shown { Shown J.entries result }
        ensures event { result.value.step.value.event ≡ event }
        ensures added { AddsEntry is_tc self.old.steps result self.new.steps }
        ensures number { caller.new.number ≡ caller.old.number }
        ensures called { IsCalled caller.old.calls event result.value.step.value.out caller.new.calls }
        ensures own { result.value.step.value.caller ≡ Some caller.old.number }
        ensures left { IsLeft caller.old.calls.live (calls_by caller.old.number result.value.before.steps).live }
    {
        let LatchedTc {
            alloc,
            side,
            sent,
            cursor,
            seat,
        } = self;
        let (step, after) = stepped(rt, *alloc, side, *sent, Some(caller.number()), event);
        *sent = after;
        mark(published.marks(), seat, side, &step);
        hold(rt, history).call(rt, published.entries(), cursor, step, caller)
    }

    /// Takes the reply of this number, if the history holds it as given, and enters that. Unsent just where nothing that
    /// it has seen then gave it.
    pub fn take<R: Wait>(
        &mut self,
        rt: &R,
        published: &Published<J>,
        history: &Mutex<EventHistory<J>>,
        number: u64,
    ) -> Result<Pushed<Entry>, Unsent>
        ensures shown { IfOk result (λ token. Shown J.entries token) }
        ensures event { IfOk result (λ token. token.value.step.value.event ≡ event.Reply number) }
        ensures added { IfOk result (λ token. AddsEntry is_tc self.old.steps token self.new.steps) }
        ensures sent { IfOk result (WasSent replies number) }
        ensures unsent { OnErr result (message_at (replies self.new.steps) number ≡ None) }
    {
        let LatchedTc {
            alloc,
            side,
            sent: _,
            cursor,
            seat,
        } = self;
        let given = hold(rt, history).look_reply(published.entries(), cursor, number)?;
        let Some(reply) = published.entries().value(&given).given() else {
            unreachable!();
        };
        let step = taken(rt, *alloc, side, number, reply);
        mark(published.marks(), seat, side, &step);
        Ok(hold(rt, history).enter_tc(rt, published.entries(), cursor, step))
    }

    /// Makes the log stable, and enters that. Where that told a commit, the data component is told how much is stable, and
    /// what may be announced as answered is announced: the entries of both.
    pub fn force<R: Wait>(
        &mut self,
        rt: &R,
        published: &Published<J>,
        history: &Mutex<EventHistory<J>>,
    ) -> (Option<Pushed<Entry>>, Option<Pushed<Entry>>)
        ensures forces { Forces J.start J.entries self.old result.0 result.1 self.new }
        ensures tell { IfSome result.0 (λ token. Shown J.entries token) }
        ensures low { IfSome result.1 (λ token. Shown J.entries token) }
    {
        let token = self.enter(rt, published, history, Event::Force);
        self.kept();
        if !published.entries().value(&token).step.out.tells_commit() {
            return (None, None);
        }
        let tell = self.enter(rt, published, history, Event::Tell);
        self.kept();
        let low = self.announce(rt, published, history);
        (Some(tell), low)
    }

    /// The component crashes, and keeps so many bytes of what isn't stable of its log; and the entry of that.
    pub fn crash<R: Wait>(
        &mut self,
        rt: &R,
        published: &Published<J>,
        history: &Mutex<EventHistory<J>>,
        kept: u64,
        operator: &mut Operator<J>,
    ) -> Pushed<Entry>
        ensures added { AddsEntry is_tc self.old.steps result self.new.steps }
        ensures left { LeftBytes J.start J.entries kept operator.old result operator.new }
    {
        let (frames, bytes) = self.side.cut_after(kept).unwrap_or((0, kept));
        self.command(
            rt,
            published,
            history,
            Event::CrashTc { frames, bytes },
            operator,
        )
    }

    /// The component and the engine itself have seen all entries.
    pub fn look<R: Wait>(
        &mut self,
        rt: &R,
        entries: &Entries<Entry>,
        history: &Mutex<EventHistory<J>>,
        operator: &mut Operator<J>,
    )
        requires entries { entries.now ≡ J.entries }
        ensures state { self.new.state ≡ self.old.state }
        ensures operator { operator.new ≡ operator.old }
        ensures all { commands self.new.steps ≡ operator.old }
    {
        let LatchedTc {
            alloc: _,
            side: _,
            sent: _,
            cursor,
            seat: _,
        } = self;
        let mut history = hold(rt, history);
        history.look_tc(entries, cursor);
        history.review(entries, operator);
    }

    // Announces all that is answered, where that is more than what is announced.
    fn announce<R: Wait>(
        &mut self,
        rt: &R,
        published: &Published<J>,
        history: &Mutex<EventHistory<J>>,
    ) -> Option<Pushed<Entry>>
        ensures announces { Announces self.old result self.new }
        ensures shown { IfSome result (λ token. Shown J.entries token) }
    {
        let low = self.side.greatest_low().unwrap_or(0);
        if low <= published.marks().read(&mut self.seat).1 {
            return None;
        }
        Some(self.enter(rt, published, history, Event::LowWater { low }))
    }

    /// A seat learns what this component's has seen of the marks: how far the log is stable. The seat had seen no more.
    pub fn teach(&mut self, published: &Published<J>, seat: &mut Seat) -> u64
        requires seat { seat.old.marks ≡ J.marks }
        ensures same { (self.new.steps ≡ self.old.steps) × (self.new.state ≡ self.old.state) }
        ensures learned { seat.new ≡ reader J.marks self.old.seat.stable self.old.seat.low }
        ensures stable { result ≡ self.old.seat.stable }
        ensures stood { WasStable J.start J.entries result }
        ensures bounded { seat.old.stable ≤ self.old.state.side.tc.stable }
    {
        self.cursor.kept();
        published.marks().learn(&mut self.seat, seat);
        published.marks().read(&mut self.seat).0
    }

    /// What is to be done next to bring the component up, beside a data component that runs this session.
    pub fn next(&self, session: u64) -> Next
        ensures nothing { result ≡ Next.Nothing → RunsIn session self.now.state.side }
        ensures left { RunsIn session self.now.state.side → result ≡ Next.Nothing }
    {
        let (Ok(phase), Ok(own), Ok(stable)) = (
            self.side.phase(),
            self.side.session(),
            self.side.stable_end(),
        ) else {
            return Next::Restart;
        };
        match phase {
            Phase::Unconnected | Phase::Connecting => Next::Connect,
            _ if session != own => Next::Connect,
            Phase::Running => Next::Nothing,
            Phase::Undoing { waiting: None } => Next::Lose,
            Phase::Undoing {
                waiting: Some(number),
            } if stable < number => Next::Force,
            _ => Next::Recover,
        }
    }
}

// The same reply again. Where memory for it is refused it is tried again until it is made.
fn copy<R: Wait>(rt: &R, reply: &Reply) -> Reply
    ensures { result ≡ reply.now }
{
    for _ in rt.forever() {
        if let Ok(copy) = copied(reply) {
            return copy;
        }
        thread::yield_now();
    }
    unreachable!()
}

// The marks show what a step told: a commit, how much of the log is stable; a low mark, that number.
fn mark<D: CrashLog>(marks: &Marks, seat: &mut Seat, side: &TcSide<D>, step: &Box<Step>)
    requires seat { (seat.old.marks ≡ marks.now) × IsTrue seat.old.raises }
    requires stable { seat.old.stable ≤ side.now.tc.stable }
    requires low { IsLowOf step.now.value.event step.now.value.out side.now }
    ensures seat { (seat.new.marks ≡ seat.old.marks) × (seat.new.raises ≡ seat.old.raises) }
    ensures stable { seat.new.stable ≤ side.now.tc.stable }
    ensures low { seat.new.low ≡ max seat.old.low (low_of step.now.value.event step.now.value.out) }
{
    let low = step.event.low_sent(&step.out);
    if low == 0 && !step.out.tells_commit() {
        return;
    }
    let Ok(end) = side.stable_end() else {
        return;
    };
    marks.raise_stable(seat, end);
    marks.raise_low(seat, low);
}

// Whether this session runs.
fn runs<D: CrashLog>(side: &TcSide<D>, session: u64) -> bool
    ensures { result ≡ true → is_of_another side.now.tc.session session ≡ false }
{
    match side.session() {
        Ok(own) => own != 0 && session == own,
        Err(_) => false,
    }
}

// The component takes a reply. An answer of the session that runs is lent to it, another reply is copied.
fn deliver<D: CrashLog, R: Wait>(rt: &R, side: &mut TcSide<D>, reply: &Reply, out: &mut Out)
    ensures takes { TcTakes side.old (Some reply.now) out.new side.new }
    ensures kept { IsTc side.new.tc }
{
    match reply {
        Reply::Answered {
            session,
            number,
            answer,
        } if runs(side, *session) => side.hear(*number, lent(answer).as_ref(), out),
        _ => side.take(copy(rt, reply), out),
    }
}

// The step by which the component takes a reply. It sends nothing.
fn taken<D: CrashLog, R: Wait>(
    rt: &R,
    alloc: Global,
    side: &mut TcSide<D>,
    number: u64,
    reply: &Reply,
) -> Box<Step>
    ensures caller { result.value.caller ≡ None }
    ensures event { result.value.event ≡ event.Reply number }
    ensures none { result.value.given ≡ None }
    ensures leads { (next : Option ℕ)
        → TcLeads side.old next (event.Reply number) (Some reply.now) result.value.out result.value.sent side.new }
    ensures sent { (sent : ℕ) → sent ≡ sent + count result.value.sent }
    ensures kept { IsTc side.old.tc }
{
    side.kept();
    let mut out = Out::Nothing;
    deliver(rt, side, reply, &mut out);
    let event = KeptEvent::of(rt, alloc, Event::Reply { number });
    let out = KeptOut::of(rt, alloc, out);
    boxed(rt, alloc, Step::new(None, event, out))
}

// One step of the component that takes no reply, and how many messages it has sent then.
fn stepped<D: CrashLog, R: Wait>(
    rt: &R,
    alloc: Global,
    side: &mut TcSide<D>,
    sent: u64,
    caller: Option<u64>,
    event: Event,
) -> (Box<Step>, u64)
    requires tc { of_tc event ≡ true }
    ensures caller { result.0.value.caller ≡ caller }
    ensures event { result.0.value.event ≡ event }
    ensures none { result.0.value.given ≡ None }
    ensures leads { TcLeads side.old (Some (sent + 1)) event None result.0.value.out result.0.value.sent side.new }
    ensures sent { result.1 ≡ sent + count result.0.value.sent }
    ensures kept { IsTc side.old.tc }
{
    side.kept();
    let next = next_number(rt, sent);
    let (mut request, mut out) = (None, Out::Nothing);
    side.call(&event, Some(next), &mut request, &mut out);
    let after = if request.is_some() { next } else { sent };
    let step = Step {
        caller,
        event: KeptEvent::of(rt, alloc, event),
        out: KeptOut::of(rt, alloc, out),
        sent: Message::new(rt, alloc, request),
        given: Message::none(),
    };
    (boxed(rt, alloc, step), after)
}
