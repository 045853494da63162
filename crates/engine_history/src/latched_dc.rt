//! What lies under the lock of the data component.
ghost use Rattle.std.specs.Prelude.{◌≡◌, ◌+◌, ◌++◌, ◌∷◌, ℕ, [], true, false, None, Some, IfOk, IfErr, IfSome, IfNone, OnOk, OnErr};
ghost use Rattle.std.specs.Option.{option_copied};
ghost use Rattle.node_sides.specs.node_laws.specs.Component as sides;
ghost use Rattle.node_sides.specs.node_laws.specs.declared.event.Event.TheVariants as event;
ghost use Rattle.node_sides.specs.node_laws.specs.declared.event.Out.TheVariants as out;
ghost use Rattle.node_sides.specs.node_laws.specs.Halves.{of_tc, DcLeads, MayDc, IsInNode};
ghost use Rattle.node_sides.specs.node_laws.specs.Messages.{message_at};
ghost use Rattle.engine_history.specs.Adding.{AddsEntry, WasSent};
ghost use Rattle.engine_history.specs.Commands.{commands, is_command};
ghost use Rattle.engine_history.specs.Latched.{delivers, TendsNothing};
ghost use Rattle.engine_history.specs.Kept.{is_dc};
ghost use Rattle.engine_history.specs.Slots.{Shown};
ghost use Rattle.engine_history.specs.Steps.{GivesDc, dc_start, count, requests};
ghost use Rattle.engine_history.specs.Witnessed.{AreWitnessed};

use crate::entry::Entry;
use crate::event_history::EventHistory;
use crate::gate::Gate;
use crate::growth::boxed;
use crate::holding::hold;
use crate::kept_event::KeptEvent;
use crate::kept_out::KeptOut;
use crate::latched_tc::next_number;
use crate::lines::Unsent;
use crate::message::Message;
use crate::naming::Naming;
use crate::operator::Operator;
use crate::step::Step;
use crate::view::Cursor;
use boxcar::{Pushed, Vec as Entries};
use codec::Request;
use engine_agreement::Mark;
use node_sides::DcSide;
use node_sides::node_laws::{Event, Out};
use record_key::Refusal;
use stable::{CrashLog, CrashPages};
use std::alloc::Global;
use std::marker::Model;
use std::sync::{Mutex, Wait};

/// The data component with what it has seen of the history. Contracts see the steps up to there, and the component.
#[derive(Drop)]
pub struct LatchedDc<J: Naming, D: CrashLog, P: CrashPages> {
    alloc: Global,
    side: DcSide<D, P>,
    given: u64,
    cursor: Cursor<J>,
}

impl<J: Naming, D: CrashLog, P: CrashPages> Model for LatchedDc<J, D, P> {
    ghost use Rattle.std.specs.Coded.{codes};
    ghost use Rattle.record_key.specs.Table.{table_code};
    ghost use Rattle.node_sides.specs.dc_store.specs.SystemView.{pages_code};
    ghost use Rattle.engine_history.specs.Latched.{DcFound, LatchedDcKept};

    ghost Value = { DcFound };

    ghost coded = { Prim.hlevel (codes, table_code, pages_code) };

    ghost view = { λ d. record { steps = d.cursor.steps; state = record { side = d.side; given = d.given } } };

    ghost invariant = { λ d. LatchedDcKept J.start J.names d.cursor record { side = d.side; given = d.given } };
}

impl<J: Naming, D: CrashLog, P: CrashPages> LatchedDc<J, D, P> {
    /// The component at its start.
    pub fn new(alloc: Global, side: DcSide<D, P>, mark: Mark) -> LatchedDc<J, D, P>
        requires start { side ≡ J.start.dc }
        requires mark { (mark.name ≡ J.names 1) × (mark.number ≡ 0) }
        ensures { result.state ≡ dc_start J.start }
    {
        LatchedDc {
            alloc,
            side,
            given: 0,
            cursor: Cursor::new(mark),
        }
    }

    /// What is found under the lock is what the entries give up to the last one that it has seen.
    pub fn kept(&self)
        ensures gives { GivesDc J.start self.now.steps self.now.state }
        ensures shown { AreWitnessed J.entries self.now.steps }
    {
        self.cursor.kept();
    }

    /// The component, which is what all entries give.
    pub fn into_side(self, entries: &Entries<Entry>, history: &mut EventHistory<J>) -> DcSide<D, P>
        requires entries { entries.now ≡ J.entries }
        ensures same { history.new ≡ history.old }
        ensures gives { (given : ℕ) × GivesDc J.start history.old record { side = result; given = given } }
    {
        let LatchedDc {
            alloc: _,
            side,
            given,
            mut cursor,
        } = self;
        history.look_dc(entries, &mut cursor, &side, given);
        side
    }

    /// The session that runs. Refused NotConnected where the component is down.
    pub fn session(&self) -> Result<u64, Refusal>
        ensures session { IfOk result (λ session. session ≡ self.now.state.side.dc.session) }
        ensures up { OnOk result (self.now.state.side.up ≡ true) }
        ensures refused { IfErr result (λ refusal. refusal ≡ Refusal.NotConnected) }
        ensures down { OnErr result (self.now.state.side.up ≡ false) }
    {
        self.side.session()
    }

    /// How many leaves the component has, 0 where it is down.
    pub fn leaves(&self) -> usize {
        match self.side.running() {
            Ok(dc) => dc.leaves(),
            Err(_) => 0,
        }
    }

    /// Serves the request of this number, if the history holds it as sent, and enters that. The history's lock is free
    /// while the request is served. Unsent just where nothing that it has seen then sent it.
    pub fn serve<G: Gate, R: Wait>(
        &mut self,
        rt: &R,
        entries: &Entries<Entry>,
        history: &Mutex<EventHistory<J>>,
        gate: &G,
        number: u64,
    ) -> Result<Pushed<Entry>, Unsent>
        requires entries { entries.now ≡ J.entries }
        ensures shown { IfOk result (λ token. Shown J.entries token) }
        ensures event { IfOk result (λ token. token.value.step.value.event ≡ event.Request number) }
        ensures added { IfOk result (λ token. AddsEntry is_dc self.old.steps token self.new.steps) }
        ensures sent { IfOk result (WasSent requests number) }
        ensures unsent { OnErr result (message_at (requests self.new.steps) number ≡ None) }
    {
        let LatchedDc {
            alloc,
            side,
            given,
            cursor,
        } = self;
        let sent = hold(rt, history).look_request(entries, cursor, side, *given, number)?;
        let request = entries.value(&sent).sent();
        look_on(gate, request);
        let (step, after) = stepped(rt, *alloc, side, *given, Event::Request { number }, request);
        *given = after;
        Ok(hold(rt, history).enter_dc(rt, entries, cursor, step))
    }

    /// Splits or joins leaves where that is due, and its entry. Where nothing was to be done there is no entry.
    pub fn tend<R: Wait>(
        &mut self,
        rt: &R,
        entries: &Entries<Entry>,
        history: &Mutex<EventHistory<J>>,
    ) -> Option<Pushed<Entry>>
        requires entries { entries.now ≡ J.entries }
        ensures shown { IfSome result (λ token. Shown J.entries token) }
        ensures event { IfSome result (λ token. token.value.step.value.event ≡ event.Tend) }
        ensures added { IfSome result (λ token. AddsEntry is_dc self.old.steps token self.new.steps) }
        ensures still { IfNone result (self.new.steps ≡ self.old.steps) }
        ensures rests { IfNone result (TendsNothing self.old.state.side self.new.state.side) }
    {
        let LatchedDc {
            alloc,
            side,
            given: _,
            cursor,
        } = self;
        let out = tended(side);
        if let Out::Nothing = &out {
            return None;
        }
        let event = KeptEvent::of(rt, *alloc, Event::Tend);
        let out = KeptOut::of(rt, *alloc, out);
        let step = boxed(rt, *alloc, Step::new(None, event, out));
        Some(hold(rt, history).enter_dc(rt, entries, cursor, step))
    }

    /// A split, a merge or a write of leaves, and its entry.
    pub fn enter<R: Wait>(
        &mut self,
        rt: &R,
        entries: &Entries<Entry>,
        history: &Mutex<EventHistory<J>>,
        event: Event,
    ) -> Pushed<Entry>
        requires entries { entries.now ≡ J.entries }
        requires dc { of_tc event ≡ false }
        requires alone { delivers event ≡ false }
        requires mild { is_command event ≡ false }
        requires may { (dc : sides.DcSide) → MayDc dc event None }
        ensures shown { Shown J.entries result }
        ensures event { result.value.step.value.event ≡ event }
        ensures added { AddsEntry is_dc self.old.steps result self.new.steps }
    {
        let LatchedDc {
            alloc,
            side,
            given,
            cursor,
        } = self;
        let (step, after) = stepped(rt, *alloc, side, *given, event, None);
        *given = after;
        hold(rt, history).enter_dc(rt, entries, cursor, step)
    }

    /// A restart, and its entry.
    pub fn turn<R: Wait>(
        &mut self,
        rt: &R,
        entries: &Entries<Entry>,
        history: &Mutex<EventHistory<J>>,
        event: Event,
    ) -> Pushed<Entry>
        requires entries { entries.now ≡ J.entries }
        requires dc { of_tc event ≡ false }
        requires alone { delivers event ≡ false }
        requires mild { is_command event ≡ false }
        requires may { (dc : sides.DcSide) → IsInNode dc event None → MayDc dc event None }
        ensures shown { Shown J.entries result }
        ensures event { result.value.step.value.event ≡ event }
        ensures added { AddsEntry is_dc self.old.steps result self.new.steps }
    {
        let LatchedDc {
            alloc,
            side,
            given,
            cursor,
        } = self;
        hold(rt, history).look_dc(entries, cursor, side, *given);
        let (step, after) = stepped(rt, *alloc, side, *given, event, None);
        *given = after;
        hold(rt, history).enter_dc(rt, entries, cursor, step)
    }

    /// A crash, and its entry. Nothing is kept that isn't stable.
    pub fn crash<R: Wait>(
        &mut self,
        rt: &R,
        entries: &Entries<Entry>,
        history: &Mutex<EventHistory<J>>,
        operator: &mut Operator<J>,
    ) -> Pushed<Entry>
        requires entries { entries.now ≡ J.entries }
        ensures shown { Shown J.entries result }
        ensures event { result.value.step.value.event ≡ event.CrashDc 0 0 }
        ensures added { AddsEntry is_dc self.old.steps result self.new.steps }
        ensures given { operator.new ≡ operator.old ++ event.CrashDc 0 0 ∷ [] }
    {
        let LatchedDc {
            alloc,
            side,
            given,
            cursor,
        } = self;
        hold(rt, history).look_dc(entries, cursor, side, *given);
        let event = Event::CrashDc {
            frames: 0,
            bytes: 0,
        };
        let (step, after) = stepped(rt, *alloc, side, *given, event, None);
        *given = after;
        hold(rt, history).command_dc(rt, entries, cursor, step, operator)
    }

    /// The component and the engine itself have seen all entries.
    pub fn look<R: Wait>(
        &mut self,
        rt: &R,
        entries: &Entries<Entry>,
        history: &Mutex<EventHistory<J>>,
        operator: &mut Operator<J>,
    )
        requires entries { entries.now ≡ J.entries }
        ensures state { self.new.state ≡ self.old.state }
        ensures operator { operator.new ≡ operator.old }
        ensures all { commands self.new.steps ≡ operator.old }
    {
        let LatchedDc {
            alloc: _,
            side,
            given,
            cursor,
        } = self;
        let mut history = hold(rt, history);
        history.look_dc(entries, cursor, side, *given);
        history.review(entries, operator);
    }
}

// The program looks on while a request is served.
fn look_on<G: Gate>(gate: &G, request: Option<&Request>) {
    if let Some(request) = request {
        gate.in_dc(request);
    }
}

// Splits or joins leaves where that is due.
fn tended<D: CrashLog, P: CrashPages>(side: &mut DcSide<D, P>) -> Out
    ensures leads { DcLeads side.old None event.Tend None result None side.new }
    ensures nothing { result ≡ out.Nothing → side.new ≡ side.old }
{
    let mut out = Out::Nothing;
    side.tend(&mut out);
    out
}

// One step of the component, and how many messages it has given then.
fn stepped<D: CrashLog, P: CrashPages, R: Wait>(
    rt: &R,
    alloc: Global,
    side: &mut DcSide<D, P>,
    given: u64,
    event: Event,
    request: Option<&Request>,
) -> (Box<Step>, u64)
    requires dc { of_tc event ≡ false }
    requires may { MayDc side.old event (option_copied request) }
    ensures caller { result.0.value.caller ≡ None }
    ensures event { result.0.value.event ≡ event }
    ensures none { result.0.value.sent ≡ None }
    ensures leads { DcLeads side.old (Some (given + 1)) event (option_copied request.entry) result.0.value.out result.0.value.given side.new }
    ensures given { result.1 ≡ given + count result.0.value.given }
{
    let next = next_number(rt, given);
    let mut reply = None;
    let out = side.step(&event, request, Some(next), &mut reply);
    let after = if reply.is_some() { next } else { given };
    let step = Step {
        caller: None,
        event: KeptEvent::of(rt, alloc, event),
        out: KeptOut::of(rt, alloc, out),
        sent: Message::none(),
        given: Message::new(rt, alloc, reply),
    };
    (boxed(rt, alloc, step), after)
}
