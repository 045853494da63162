//! What lies under the lock.
ghost use Rattle.std.specs.Prelude.{◌≡◌, ◌<◌, ◌≤◌, ◌+◌, ◌++◌, ◌∷◌, List, [], true, false, None, Some, map, length, vec_len, IfErr, IfOk, OnErr, OnOk};
ghost use Rattle.engine_history.specs.Commands.{is_command};
ghost use Rattle.engine_history.specs.declared.step.Step.{Step};
ghost use Rattle.std.specs.List.{AllByRecursion};
ghost use Rattle.engine_history.specs.node_laws.specs.Stepping.{IsStep};
ghost use Rattle.engine_history.specs.Kept.{calls_of};
ghost use Rattle.engine_history.specs.Marking.{announced};
ghost use Rattle.engine_history.specs.Sessions.{line_of, calls_by};
ghost use Rattle.engine_history.specs.Steps.{IsStart, node_at};
ghost use Rattle.engine_history.specs.Views.{Sees};
ghost use Rattle.engine_guarded.specs.Callers.{IsMade, IsStatus, IsStatusOf, is_busy};
ghost use Rattle.engine_guarded.specs.Slots.{Shown, seen};
ghost use Rattle.engine_guarded.specs.Found.{IsOwned};
ghost use Rattle.engine_guarded.specs.Places.{PlacesKept, place_after};
ghost use Rattle.engine_guarded.specs.Running.{PassesFrom, made};

use crate::caller::Caller;
use crate::entry::Entry;
use crate::noting::{again, with_call, with_step};
use crate::pace::Pace;
use crate::place::Place;
use crate::published::pushed;
use crate::status::CallStatus;
use crate::stepping::stepped;
use boxcar::{Pushed, Vec as Entries};
use engine_history::node_laws::{Event, Out};
use engine_history::{Naming, Step};
use ghost_list::GhostList;
use node_world::World;
use record_key::Refusal;
use stable::{CrashLog, CrashPages};
use std::marker::{Model, PhantomData};
use std::sync::Wait;

/// A node, and the place of each session; the last place is the engine's own; and the greatest low number that was
/// announced. Contracts see the steps that were made, and the node.
#[derive(Drop)]
pub struct Guarded<J: Naming, D: CrashLog, P: CrashPages> {
    pub(crate) world: Box<World<D, P>>,
    pub(crate) steps: GhostList<Step>,
    pub(crate) places: Vec<Place>,
    pub(crate) low: u64,
    pub(crate) pace: Pace,
    pub(crate) of: PhantomData<J>,
}

impl<J: Naming, D: CrashLog, P: CrashPages> Model for Guarded<J, D, P> {
    ghost use Rattle.std.specs.Coded.{codes};
    ghost use Rattle.record_key.specs.Table.{table_code};
    ghost use Rattle.node_world.specs.dc_store.specs.SystemView.{pages_code};
    ghost use Rattle.engine_guarded.specs.Found.{Found, IsGuarded};

    ghost Value = { Found };

    ghost coded = { Prim.hlevel (codes, table_code, pages_code) };

    ghost view = { λ g. record { steps = g.steps.items; node = g.world.value } };

    ghost invariant = { λ g.
        IsGuarded J.start J.entries J.names J.sessions g.steps.items g.world.value g.places.items g.low };
}

// Each place hears a step.
fn hear_all<R: Wait>(rt: &R, places: &mut Vec<Place>, caller: Option<u64>, event: &Event, out: &Out)
    ensures heard { places.new.items ≡ map (place_after (made caller event.now out.now)) places.old.items }
    ensures count { vec_len places.new ≡ vec_len places.old }
{
    for place in places.iter_mut() {
        place.hear(rt, caller, event, out);
    }
}

// What a place has for its session.
fn status_of(place: &mut Place) -> CallStatus
    ensures status { IsStatusOf place.old result }
    ensures left { place.new ≡ record place.old { line = None } }
{
    if let Some(heard) = place.line.take() {
        return CallStatus::Told(heard);
    }
    if place.live.is_none() {
        return CallStatus::CutOff;
    }
    match place.failed {
        Some(failure) => CallStatus::Refused(failure),
        None => CallStatus::Nothing,
    }
}

// Where a session isn't amid a call, so that the agreement's number isn't 0, both sides have seen the same entry.
fn same_seen(entries: &Entries<Entry>, one: &Pushed<Entry>, other: &Pushed<Entry>, number: u64)
    requires one { Shown entries.now one.now }
    requires other { Shown entries.now other.now }
    requires agreed { is_busy number ≡ false → one.now.index ≡ other.now.index }
    ensures { is_busy number ≡ false → seen one.now ≡ seen other.now }
{
    if number > 0 {
        entries.agrees(one, other);
    }
}

impl<J: Naming, D: CrashLog, P: CrashPages> Guarded<J, D, P> {
    /// A node as it is at the start, with the places of its sessions. No step was made.
    pub fn new(world: Box<World<D, P>>, places: Vec<Place>) -> Guarded<J, D, P>
        requires start { world.value ≡ node_at J.start }
        requires places { PlacesKept J.entries J.names [] places.items }
        requires count { length places.items ≡ J.sessions + 1 }
        ensures { result ≡ record { steps = []; node = node_at J.start } }
    {
        Guarded {
            world,
            steps: GhostList::new(),
            places,
            low: 0,
            pace: Pace::new(),
            of: PhantomData,
        }
    }

    /// The steps lead from the start to the node, and whoever crashed a component or armed a failure was the engine.
    pub fn kept(&self)
        ensures passes { PassesFrom J.start self.now.steps self.now.node }
        ensures owned { AllByRecursion (IsOwned J.sessions) self.now.steps }
    {
        let _ = &self.places;
    }

    /// The node.
    pub fn world(&self) -> &World<D, P>
        ensures { result.now ≡ self.now.node }
    {
        &self.world
    }

    /// How much of the log is stable. Refused NotConnected where the transaction component is down.
    pub fn stable_end(&self) -> Result<u64, Refusal>
        ensures end { IfOk result (λ end. end ≡ self.now.node.tc.stable) }
        ensures up { OnOk result (self.now.node.tc_up ≡ true) }
        ensures refused { IfErr result (λ refusal. refusal ≡ Refusal.NotConnected) }
        ensures down { OnErr result (self.now.node.tc_up ≡ false) }
    {
        self.world.stable_end()
    }

    /// The greatest low number that was announced, 0 before any. As much of the log is stable.
    pub fn announced(&self) -> u64
        ensures low { result ≡ announced self.now.steps }
        ensures stable { result ≤ self.now.node.tc.stable }
    {
        self.low
    }

    /// A step that is nobody's call.
    pub fn step<R: Wait>(&mut self, rt: &R, event: &Event, out: &mut Out)
        requires plain { is_command event.now ≡ false }
        ensures steps { self.new.steps ≡ self.old.steps ++ made None event.now out.new ∷ [] }
        ensures node { IsStep self.old.node event.now out.new self.new.node }
    {
        let Guarded {
            world,
            steps,
            places,
            low,
            pace: _,
            of: _,
        } = self;
        stepped(&mut **world, low, event, out);
        *steps = with_step(steps, event, out);
        hear_all(rt, places, None, event, out);
    }

    /// A session's call, which it hasn't seen to its end then.
    pub fn call<R: Wait>(&mut self, rt: &R, caller: &mut Caller<J>, event: &Event, out: &mut Out)
        requires owned { is_command event.now ≡ true → caller.old.number ≡ J.sessions }
        ensures steps { self.new.steps ≡ self.old.steps ++ made (Some caller.old.number) event.now out.new ∷ [] }
        ensures node { IsStep self.old.node event.now out.new self.new.node }
        ensures caller { caller.new ≡ record { number = caller.old.number; steps = caller.old.steps; busy = true } }
    {
        let Guarded {
            world,
            steps,
            places,
            low,
            pace: _,
            of: _,
        } = self;
        let Caller {
            number,
            mark,
            last: _,
            of: _,
        } = caller;
        stepped(&mut **world, low, event, out);
        *steps = with_call(steps, *number, event, out);
        hear_all(rt, places, Some(*number), event, out);
        let place = &mut places[*number as usize];
        place.far_end.set(mark, 0);
    }

    /// A session that isn't amid a call has seen all of its calls.
    pub fn see(&mut self, entries: &Entries<Entry>, caller: &mut Caller<J>)
        requires entries { entries.now ≡ J.entries }
        requires rest { caller.old.busy ≡ false }
        ensures same { self.new ≡ self.old }
        ensures caller { caller.new ≡ caller.old }
        ensures sees { Sees (calls_of caller.old.number) caller.old.steps self.old.steps }
    {
        let Guarded {
            world: _,
            steps: _,
            places,
            low: _,
            pace: _,
            of: _,
        } = self;
        let Caller {
            number,
            mark,
            last,
            of: _,
        } = caller;
        let place = &mut places[*number as usize];
        place.far_end.agree(mark);
        entries.agrees(&place.last, last);
    }

    /// The session has seen all steps, by an entry of its own; and what is new of its latest call.
    pub fn finish<R: Wait>(
        &mut self,
        rt: &R,
        entries: &Entries<Entry>,
        caller: &mut Caller<J>,
    ) -> CallStatus
        requires entries { entries.now ≡ J.entries }
        ensures same { self.new ≡ self.old }
        ensures caller { caller.new ≡ record { number = caller.old.number; steps = self.old.steps; busy = false } }
        ensures amid { caller.old.busy ≡ true → (before : List Step) → IsMade caller.old.number before self.old.steps
            → IsStatus (calls_by caller.old.number before) (calls_by caller.old.number self.old.steps) result }
        ensures resting { caller.old.busy ≡ false → line_of (calls_by caller.old.number caller.old.steps).latest ≡ None
            → IsStatus (calls_by caller.old.number caller.old.steps) (calls_by caller.old.number self.old.steps) result }
    {
        let Guarded {
            world: _,
            steps,
            places,
            low: _,
            pace: _,
            of: _,
        } = self;
        let Caller {
            number,
            mark,
            last,
            of: _,
        } = caller;
        let entry = Entry {
            session: *number,
            before: last.index() as u64 + 1,
            past: again(steps),
        };
        let token = pushed(rt, entries, entry);
        let place = &mut places[*number as usize];
        place.far_end.agree(mark);
        same_seen(entries, &place.last, last, mark.number());
        place.far_end.set(mark, token.index() as u64 + 1);
        place.last = token.again();
        *last = token;
        let status = status_of(place);
        place.failed = None;
        status
    }

    /// The transaction of a session, if one is alive.
    pub fn live(&self, caller: &Caller<J>) -> Option<u64>
        ensures { result ≡ (calls_by caller.now.number self.now.steps).live }
    {
        self.places[caller.number as usize].live
    }

    /// Whether something was told of a session's latest call that it hasn't seen.
    pub(crate) fn was_told(&self, caller: &Caller<J>) -> bool {
        self.places[caller.number as usize].line.is_some()
    }

    /// Whether nothing more is to be done for a session's latest call: it was told of or cut off.
    pub(crate) fn is_over(&self, caller: &Caller<J>) -> bool {
        let place = &self.places[caller.number as usize];
        place.line.is_some() || place.live.is_none()
    }

    /// Whether a session has something to see: its call was told of or cut off, or a step of it failed.
    pub fn must_look(&self, caller: &Caller<J>) -> bool {
        let place = &self.places[caller.number as usize];
        place.line.is_some() || place.live.is_none() || place.failed.is_some()
    }
}
