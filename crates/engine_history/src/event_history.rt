//! What lies under the history's lock.
ghost use Rattle.std.specs.Prelude.{◌≡◌, ◌++◌, ◌∷◌, ℕ, [], None, Some, true, false, IfOk, IfSome, IfNone, OnErr, length, map, vec_len, slice_get};
ghost use Rattle.node_sides.specs.node_laws.specs.Halves.{IsSpelledIf, node_of};
ghost use Rattle.node_sides.specs.node_laws.specs.Messages.{message_at};
ghost use Rattle.engine_history.specs.Callers.{IsGrown, IsStatus, IsUntold};
ghost use Rattle.engine_history.specs.Commands.{commands, is_command};
ghost use Rattle.engine_history.specs.Ending.{LeavesNode};
ghost use Rattle.engine_history.specs.Kept.{is_dc, IsInRun, IsSentBy, EntersTc, EntersDc, PlacesKept, place_after};
ghost use Rattle.engine_history.specs.declared.status.CallStatus.{CallStatus};
ghost use Rattle.engine_history.specs.declared.status.CallStatus.TheVariants as status;
ghost use Rattle.engine_history.specs.Waiting.{IsStatusAt, IsStatusOf};
ghost use Rattle.engine_history.specs.Sessions.{IsCalled, IsClosed, IsLeft, calls_by, line_of};
ghost use Rattle.engine_history.specs.Slots.{Shown};
ghost use Rattle.engine_history.specs.Steps.{is_tc, RunsFrom, requests, replies, TcState, DcState, GivesTc, GivesDc};
ghost use Rattle.engine_history.specs.Views.{Sees};

use crate::caller::Caller;
use crate::entry::Entry;
use crate::lines::{Lines, Unsent};
use crate::naming::Naming;
use crate::operator::Operator;
use crate::place::Place;
use crate::status::CallStatus;
use crate::step::Step;
use crate::view::{Cursor, CursorEnd};
use crate::wake_flags::WakeFlags;
use boxcar::{Pushed, Vec as Entries};
use engine_agreement::FarEnd;
use node_sides::{DcSide, TcSide};
use stable::{CrashLog, CrashPages};
use std::marker::Model;
use std::sync::Wait;

/// The entries, each session's place in them, and the engine's. Contracts see the steps.
#[derive(Drop)]
pub struct EventHistory<J: Naming> {
    lines: Lines<J>,
    places: Vec<Place<J>>,
    own: CursorEnd<J>,
    wake_flags: WakeFlags,
}

impl<J: Naming> Model for EventHistory<J> {
    ghost use Rattle.std.specs.Prelude.{◌≡◌, List, vec_len};
    ghost use Rattle.std.specs.Coded.{codes};
    ghost use Rattle.engine_history.specs.declared.step.Step.{Step};
    ghost use Rattle.engine_history.specs.Commands.{OwnKept};
    ghost use Rattle.engine_history.specs.Kept.{PlacesKept};

    ghost Value = { List Step };

    ghost coded = { Prim.hlevel codes };

    ghost view = { λ j. j.lines };

    ghost invariant = { λ j. PlacesKept J.entries J.names j.lines j.places.items × (vec_len j.places ≡ J.sessions)
        × OwnKept J.names j.lines j.own };
}

// An entry may tell every session but its caller a line.
fn hear_all<J: Naming>(places: &mut Vec<Place<J>>, entry: &Entry, token: &Pushed<Entry>)
    requires { entry.now ≡ token.now.value }
    ensures heard { places.new.items ≡ map (place_after token.now) places.old.items }
    ensures count { vec_len places.new ≡ vec_len places.old }
{
    for place in places.iter_mut() {
        place.hear(entry, token);
    }
}

// What a place has for a session that waits.
fn status_of<J: Naming>(place: &Place<J>) -> CallStatus
    ensures { IsStatusOf place.now result }
{
    if let Some(token) = &place.line {
        return CallStatus::Line(token.again());
    }
    if place.live.is_none() {
        return CallStatus::CutOff;
    }
    match place.failed {
        Some(failure) => CallStatus::Refused(failure),
        None => CallStatus::Nothing,
    }
}

// The same of the place of a session.
fn status_at<J: Naming>(places: &Vec<Place<J>>, session: u64) -> CallStatus
    ensures { IsStatusAt places.now.items session result }
{
    match places.get(session as usize) {
        Some(place) => status_of(place),
        None => CallStatus::Nothing,
    }
}

// Whether nothing more is told to the session.
fn is_cut_at<J: Naming>(places: &Vec<Place<J>>, session: u64) -> bool
    ensures { result ≡ true → IsStatusAt places.now.items session status.CutOff }
{
    matches!(status_at(places, session), CallStatus::CutOff)
}

// A session has seen all entries from now on, and what its place has for it. Answers its transaction, if that is alive.
fn show<J: Naming>(
    lines: &Lines<J>,
    places: &mut Vec<Place<J>>,
    entries: &Entries<Entry>,
    caller: &mut Caller<J>,
) -> Option<u64>
    requires entries { entries.now ≡ J.entries }
    requires places { PlacesKept J.entries J.names lines.now places.old.items }
    requires count { vec_len places.old ≡ J.sessions }
    ensures places { PlacesKept J.entries J.names lines.now places.new.items }
    ensures count { vec_len places.new ≡ vec_len places.old }
    ensures number { caller.new.number ≡ caller.old.number }
    ensures calls { caller.new.calls ≡ calls_by caller.old.number lines.now }
    ensures grown { IsGrown caller.old.calls caller.new.calls }
    ensures live { result ≡ caller.new.calls.live }
    ensures kept { IfSome result (λ t. caller.old.calls.live ≡ Some t) }
    ensures status { line_of caller.old.calls.latest ≡ None → (n : CallStatus)
        → IsStatusAt places.old.items caller.old.number n → IsStatus J.entries caller.old.calls caller.new.calls n }
{
    let last = lines.last();
    let Caller {
        number,
        cursor: own,
    } = caller;
    let place = &mut places[*number as usize];
    place.failed = None;
    place.cursor_end.meet(entries, own, &last);
    place.live
}

impl<J: Naming> EventHistory<J> {
    /// A history without entries, with the places of its sessions, and the engine's by its far end.
    pub fn new(
        lines: Lines<J>,
        places: Vec<Place<J>>,
        own: FarEnd,
        wake_flags: WakeFlags,
    ) -> EventHistory<J>
        requires empty { lines ≡ [] }
        requires places { PlacesKept J.entries J.names [] places.items }
        requires count { vec_len places ≡ J.sessions }
        requires own { (own.name ≡ J.names 2) × (own.number ≡ 0) }
        ensures { result ≡ [] }
    {
        EventHistory {
            lines,
            places,
            own: CursorEnd::new(own),
            wake_flags,
        }
    }

    /// The entries are a run of the node, from its start on.
    pub fn is_run(&self)
        ensures { RunsFrom J.start self.now }
    {
        self.lines.is_run();
    }

    /// What they give of both components is what some run of the node through them leaves, once its messages are let go.
    pub fn leaves<D: CrashLog, P: CrashPages>(&self, tc: &TcSide<D>, dc: &DcSide<D, P>)
        requires tc { (sent : ℕ) × GivesTc J.start self.now record { side = tc.now; sent = sent } }
        requires dc { (given : ℕ) × GivesDc J.start self.now record { side = dc.now; given = given } }
        ensures { LeavesNode J.start self.now (node_of tc.now dc.now [] []) }
    {
        self.lines.leaves(tc, dc);
    }

    /// The transaction component has seen all entries.
    pub fn look_tc(&mut self, entries: &Entries<Entry>, cursor: &mut Cursor<J>)
        requires entries { entries.now ≡ J.entries }
        requires name { cursor.old.name ≡ J.names 0 }
        ensures same { self.new ≡ self.old }
        ensures cursor { cursor.new ≡ record { name = cursor.old.name; steps = self.old } }
        ensures sees { Sees is_tc cursor.old.steps self.old }
    {
        let EventHistory {
            lines,
            places: _,
            own: _,
            wake_flags: _,
        } = self;
        lines.meet_tc(entries, cursor);
    }

    /// Looks for the reply of this number on behalf of the transaction component, which has seen all entries then.
    pub fn look_reply(
        &mut self,
        entries: &Entries<Entry>,
        cursor: &mut Cursor<J>,
        number: u64,
    ) -> Result<Pushed<Entry>, Unsent>
        requires entries { entries.now ≡ J.entries }
        requires name { cursor.old.name ≡ J.names 0 }
        ensures same { self.new ≡ self.old }
        ensures cursor { cursor.new ≡ record { name = cursor.old.name; steps = self.old } }
        ensures sees { Sees is_tc cursor.old.steps self.old }
        ensures shown { IfOk result (λ token. Shown J.entries token) }
        ensures given { IfOk result (λ token. IsSentBy (replies self.old) number token.value.step.value.given) }
        ensures none { OnErr result (message_at (replies self.old) number ≡ None) }
    {
        let EventHistory {
            lines,
            places: _,
            own: _,
            wake_flags: _,
        } = self;
        lines.meet_tc(entries, cursor);
        lines.reply(number)
    }

    /// Looks for the request of this number on behalf of the data component, which has seen all entries then.
    pub fn look_request<D: CrashLog, P: CrashPages>(
        &mut self,
        entries: &Entries<Entry>,
        cursor: &mut Cursor<J>,
        side: &DcSide<D, P>,
        given: u64,
        number: u64,
    ) -> Result<Pushed<Entry>, Unsent>
        requires entries { entries.now ≡ J.entries }
        requires name { cursor.old.name ≡ J.names 1 }
        requires gives { GivesDc J.start cursor.old.steps record { side = side.now; given = given } }
        ensures same { self.new ≡ self.old }
        ensures cursor { cursor.new ≡ record { name = cursor.old.name; steps = self.old } }
        ensures sees { Sees is_dc cursor.old.steps self.old }
        ensures run { IsInRun J.start self.old side.now }
        ensures shown { IfOk result (λ token. Shown J.entries token) }
        ensures sent { IfOk result (λ token. IsSentBy (requests self.old) number token.value.step.value.sent) }
        ensures spelled { IfOk result (λ token. IsSpelledIf token.value.step.value.sent) }
        ensures none { OnErr result (message_at (requests self.old) number ≡ None) }
    {
        let EventHistory {
            lines,
            places: _,
            own: _,
            wake_flags: _,
        } = self;
        lines.meet_dc(entries, cursor, side, given);
        lines.request(number)
    }

    /// The data component has seen all entries, and is what some run of the node through them ends with.
    pub fn look_dc<D: CrashLog, P: CrashPages>(
        &mut self,
        entries: &Entries<Entry>,
        cursor: &mut Cursor<J>,
        side: &DcSide<D, P>,
        given: u64,
    )
        requires entries { entries.now ≡ J.entries }
        requires name { cursor.old.name ≡ J.names 1 }
        requires gives { GivesDc J.start cursor.old.steps record { side = side.now; given = given } }
        ensures same { self.new ≡ self.old }
        ensures cursor { cursor.new ≡ record { name = cursor.old.name; steps = self.old } }
        ensures sees { Sees is_dc cursor.old.steps self.old }
        ensures run { IsInRun J.start self.old side.now }
    {
        let EventHistory {
            lines,
            places: _,
            own: _,
            wake_flags: _,
        } = self;
        lines.meet_dc(entries, cursor, side, given);
    }

    /// Enters a step of the data component that is no command.
    pub fn enter_dc<R: Wait>(
        &mut self,
        rt: &R,
        entries: &Entries<Entry>,
        cursor: &mut Cursor<J>,
        step: Box<Step>,
    ) -> Pushed<Entry>
        requires entries { entries.now ≡ J.entries }
        requires name { cursor.old.name ≡ J.names 1 }
        requires dc { is_dc step.value ≡ true }
        requires own { step.value.caller ≡ None }
        requires mild { is_command step.value.event ≡ false }
        requires enters { (n : DcState) × EntersDc J.start cursor.old.steps step.value n }
        ensures shown { Shown J.entries result }
        ensures value { result.value.step.value ≡ step.value }
        ensures before { result.value.before.steps ≡ self.old }
        ensures entered { self.new ≡ self.old ++ step.value ∷ [] }
        ensures cursor { cursor.new ≡ record { name = cursor.old.name; steps = self.new } }
        ensures sees { Sees is_dc cursor.old.steps self.old }
        ensures gives { (n : DcState) → EntersDc J.start cursor.old.steps step.value n → GivesDc J.start cursor.new.steps n }
    {
        let EventHistory {
            lines,
            places,
            own: _,
            wake_flags: _,
        } = self;
        let token = lines.enter_dc(rt, entries, cursor, step);
        hear_all(places, entries.value(&token), &token);
        token
    }

    /// Enters a step of the transaction component that is no client's call and no command.
    pub fn enter_tc<R: Wait>(
        &mut self,
        rt: &R,
        entries: &Entries<Entry>,
        cursor: &mut Cursor<J>,
        step: Box<Step>,
    ) -> Pushed<Entry>
        requires entries { entries.now ≡ J.entries }
        requires name { cursor.old.name ≡ J.names 0 }
        requires tc { is_tc step.value ≡ true }
        requires own { step.value.caller ≡ None }
        requires mild { is_command step.value.event ≡ false }
        requires enters { (n : TcState) × EntersTc J.start cursor.old.steps step.value n }
        ensures shown { Shown J.entries result }
        ensures value { result.value.step.value ≡ step.value }
        ensures before { result.value.before.steps ≡ self.old }
        ensures entered { self.new ≡ self.old ++ step.value ∷ [] }
        ensures cursor { cursor.new ≡ record { name = cursor.old.name; steps = self.new } }
        ensures sees { Sees is_tc cursor.old.steps self.old }
        ensures gives { (n : TcState) → EntersTc J.start cursor.old.steps step.value n → GivesTc J.start cursor.new.steps n }
    {
        let EventHistory {
            lines,
            places,
            own: _,
            wake_flags: _,
        } = self;
        let token = lines.enter_tc(rt, entries, cursor, step);
        hear_all(places, entries.value(&token), &token);
        token
    }

    /// Enters a command of the engine to the data component.
    pub fn command_dc<R: Wait>(
        &mut self,
        rt: &R,
        entries: &Entries<Entry>,
        cursor: &mut Cursor<J>,
        step: Box<Step>,
        operator: &mut Operator<J>,
    ) -> Pushed<Entry>
        requires entries { entries.now ≡ J.entries }
        requires name { cursor.old.name ≡ J.names 1 }
        requires dc { is_dc step.value ≡ true }
        requires own { step.value.caller ≡ None }
        requires command { is_command step.value.event ≡ true }
        requires enters { (n : DcState) × EntersDc J.start cursor.old.steps step.value n }
        ensures shown { Shown J.entries result }
        ensures value { result.value.step.value ≡ step.value }
        ensures before { result.value.before.steps ≡ self.old }
        ensures entered { self.new ≡ self.old ++ step.value ∷ [] }
        ensures cursor { cursor.new ≡ record { name = cursor.old.name; steps = self.new } }
        ensures sees { Sees is_dc cursor.old.steps self.old }
        ensures gives { (n : DcState) → EntersDc J.start cursor.old.steps step.value n → GivesDc J.start cursor.new.steps n }
        ensures given { operator.new ≡ operator.old ++ step.value.event ∷ [] }
        ensures first { commands self.old ≡ operator.old }
    {
        let EventHistory {
            lines,
            places,
            own,
            wake_flags: _,
        } = self;
        let token = lines.enter_dc(rt, entries, cursor, step);
        hear_all(places, entries.value(&token), &token);
        let Operator { cursor: operated } = operator;
        own.meet(entries, operated, &Some(token.again()));
        token
    }

    /// Enters a command of the engine to the transaction component.
    pub fn command_tc<R: Wait>(
        &mut self,
        rt: &R,
        entries: &Entries<Entry>,
        cursor: &mut Cursor<J>,
        step: Box<Step>,
        operator: &mut Operator<J>,
    ) -> Pushed<Entry>
        requires entries { entries.now ≡ J.entries }
        requires name { cursor.old.name ≡ J.names 0 }
        requires tc { is_tc step.value ≡ true }
        requires own { step.value.caller ≡ None }
        requires command { is_command step.value.event ≡ true }
        requires enters { (n : TcState) × EntersTc J.start cursor.old.steps step.value n }
        ensures shown { Shown J.entries result }
        ensures value { result.value.step.value ≡ step.value }
        ensures before { result.value.before.steps ≡ self.old }
        ensures entered { self.new ≡ self.old ++ step.value ∷ [] }
        ensures cursor { cursor.new ≡ record { name = cursor.old.name; steps = self.new } }
        ensures sees { Sees is_tc cursor.old.steps self.old }
        ensures gives { (n : TcState) → EntersTc J.start cursor.old.steps step.value n → GivesTc J.start cursor.new.steps n }
        ensures given { operator.new ≡ operator.old ++ step.value.event ∷ [] }
        ensures first { commands self.old ≡ operator.old }
    {
        let EventHistory {
            lines,
            places,
            own,
            wake_flags: _,
        } = self;
        let token = lines.enter_tc(rt, entries, cursor, step);
        hear_all(places, entries.value(&token), &token);
        let Operator { cursor: operated } = operator;
        own.meet(entries, operated, &Some(token.again()));
        token
    }

    /// The engine itself has seen all entries: it knows of each command.
    pub fn review(&mut self, entries: &Entries<Entry>, operator: &mut Operator<J>)
        requires entries { entries.now ≡ J.entries }
        ensures same { self.new ≡ self.old }
        ensures operator { operator.new ≡ operator.old }
        ensures all { commands self.old ≡ operator.old }
    {
        let EventHistory {
            lines,
            places: _,
            own,
            wake_flags: _,
        } = self;
        let Operator { cursor } = operator;
        own.meet(entries, cursor, &lines.last());
    }

    /// Enters a session's call.
    pub fn call<R: Wait>(
        &mut self,
        rt: &R,
        entries: &Entries<Entry>,
        cursor: &mut Cursor<J>,
        step: Box<Step>,
        caller: &mut Caller<J>,
    ) -> Pushed<Entry>
        requires entries { entries.now ≡ J.entries }
        requires name { cursor.old.name ≡ J.names 0 }
        requires tc { is_tc step.value ≡ true }
        requires own { step.value.caller ≡ Some caller.old.number }
        requires mild { is_command step.value.event ≡ false }
        requires enters { (n : TcState) × EntersTc J.start cursor.old.steps step.value n }
        requires closed { IsClosed caller.old.calls }
        ensures shown { Shown J.entries result }
        ensures value { result.value.step.value ≡ step.value }
        ensures before { result.value.before.steps ≡ self.old }
        ensures entered { self.new ≡ self.old ++ step.value ∷ [] }
        ensures cursor { cursor.new ≡ record { name = cursor.old.name; steps = self.new } }
        ensures sees { Sees is_tc cursor.old.steps self.old }
        ensures gives { (n : TcState) → EntersTc J.start cursor.old.steps step.value n → GivesTc J.start cursor.new.steps n }
        ensures number { caller.new.number ≡ caller.old.number }
        ensures called { IsCalled caller.old.calls step.value.event step.value.out caller.new.calls }
        ensures left { IsLeft caller.old.calls.live (calls_by caller.old.number result.value.before.steps).live }
    {
        let EventHistory {
            lines,
            places,
            own: _,
            wake_flags,
        } = self;
        let token = lines.enter_tc(rt, entries, cursor, step);
        let entry = entries.value(&token);
        hear_all(places, entry, &token);
        let Caller {
            number,
            cursor: own,
        } = caller;
        let place = &mut places[*number as usize];
        place.cursor_end.meet(entries, own, &Some(token.again()));
        let out = &entry.step.out;
        place.live = out.live_after(place.live);
        place.awaits = out.is_pending();
        place.line = None;
        place.in_flight = out.in_flight();
        place.failed = None;
        wake_flags.set(*number, false);
        token
    }

    /// What was told of a session's latest call, which the session has then seen.
    pub fn take_status(&mut self, entries: &Entries<Entry>, caller: &mut Caller<J>) -> CallStatus
        requires entries { entries.now ≡ J.entries }
        requires untold { line_of caller.old.calls.latest ≡ None }
        ensures same { self.new ≡ self.old }
        ensures number { caller.new.number ≡ caller.old.number }
        ensures calls { caller.new.calls ≡ calls_by caller.old.number self.old }
        ensures status { IsStatus J.entries caller.old.calls caller.new.calls result }
    {
        let EventHistory {
            lines,
            places,
            own: _,
            wake_flags,
        } = self;
        let session = caller.number();
        wake_flags.set(session, false);
        let status = status_at(places, session);
        show(lines, places, entries, caller);
        status
    }

    /// Whether nothing more is told of a session's latest call, which the session has then seen.
    pub fn take_cut(&mut self, entries: &Entries<Entry>, caller: &mut Caller<J>) -> bool
        requires entries { entries.now ≡ J.entries }
        requires untold { line_of caller.old.calls.latest ≡ None }
        ensures same { self.new ≡ self.old }
        ensures cut { result ≡ true → IsUntold caller.old.calls caller.new.calls × (caller.new.calls.live ≡ None) }
        ensures number { caller.new.number ≡ caller.old.number }
        ensures still { result ≡ false → caller.new.calls ≡ caller.old.calls }
    {
        let EventHistory {
            lines,
            places,
            own: _,
            wake_flags: _,
        } = self;
        if !is_cut_at(places, caller.number()) {
            return false;
        }
        show(lines, places, entries, caller);
        true
    }

    /// The session sees all entries. Its calls are just those that it knows of. Answers its transaction, if that is
    /// alive.
    pub fn see(&mut self, entries: &Entries<Entry>, caller: &mut Caller<J>) -> Option<u64>
        requires entries { entries.now ≡ J.entries }
        ensures same { self.new ≡ self.old }
        ensures number { caller.new.number ≡ caller.old.number }
        ensures calls { caller.new.calls ≡ calls_by caller.old.number self.old }
        ensures grown { IsGrown caller.old.calls caller.new.calls }
        ensures live { result ≡ caller.new.calls.live }
        ensures kept { IfSome result (λ t. caller.old.calls.live ≡ Some t) }
    {
        let EventHistory {
            lines,
            places,
            own: _,
            wake_flags: _,
        } = self;
        show(lines, places, entries, caller)
    }

    /// How many entries there are.
    pub fn count(&self) -> usize
        ensures { result ≡ length self.now }
    {
        self.lines.count()
    }

    /// The entry at a place, from 0.
    pub fn token(&self, place: usize) -> Option<Pushed<Entry>>
        ensures shown { IfSome result (λ token. Shown J.entries token) }
        ensures step { IfSome result (λ token. slice_get self.now place ≡ Some token.value.step.value) }
        ensures none { IfNone result (slice_get self.now place ≡ None) }
    {
        self.lines.token(place)
    }

    /// Whether a session that waits has something to do: a line was told, its call was cut off or a step of it failed, or
    /// what it sent was answered or lost.
    pub fn must_look(&self, session: u64) -> bool {
        self.wake_flags.is_set(session)
            || !matches!(status_at(&self.places, session), CallStatus::Nothing)
    }

    /// What the session sent was answered or lost.
    pub fn wake_session(&mut self, session: u64)
        ensures { self.new ≡ self.old }
    {
        let EventHistory {
            lines: _,
            places: _,
            own: _,
            wake_flags,
        } = self;
        wake_flags.set(session, true);
    }

    /// The session's latest call goes on: what failed of it so far is no matter any more.
    pub fn resume(&mut self, caller: &Caller<J>)
        ensures { self.new ≡ self.old }
    {
        let EventHistory {
            lines: _,
            places,
            own: _,
            wake_flags,
        } = self;
        let Caller { number, cursor: _ } = caller;
        wake_flags.set(*number, false);
        let place = &mut places[*number as usize];
        place.failed = None;
    }
}
