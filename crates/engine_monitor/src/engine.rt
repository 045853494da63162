//! An engine: a node that its sessions share under one lock.
ghost use Rattle.std.specs.Prelude.{◌≡◌, ◌++◌, ◌∷◌, [], false, IfOk, IfErr, OnOk, length};
ghost use Rattle.std.specs.List.{AllByRecursion};
ghost use Rattle.engine_guarded.specs.Found.{IsOutage};
ghost use Rattle.engine_guarded.specs.engine_history.specs.Closing.{IsFresh, below, numbers_named};
ghost use Rattle.engine_guarded.specs.engine_history.specs.Commands.{commands};
ghost use Rattle.engine_guarded.specs.engine_history.specs.node_laws.specs.declared.event.Event.TheVariants as event;
ghost use Rattle.engine_monitor.specs.Engines.{HasCommanded, IsCovered, IsFreshState, LeftBytes, WereUp, numbers_in};
ghost use Rattle.engine_monitor.specs.Opened.{IsNamed};

use crate::held::Held;
use crate::opened::{Opened, Start};
use crate::session::Session;
use crate::session_states::{SessionState, SessionStates, callers_of, sessions_of, start_all};
use crate::shared::Shared;
use engine_guarded::engine_history::Naming;
use engine_guarded::engine_history::node_laws::Out;
use engine_guarded::{Caller, Closed, Entry, Guarded, Place, Published, pushed};
use record_key::Refusal;
use stable::{CrashLog, CrashPages, MemLog, MemPages};
use std::alloc::{AllocError, Global};
use std::marker::Model;
use std::sync::{Arc, Wait};
use std::thread;

/// A node that its sessions share under one lock. It has no thread of its own: whoever calls steps the node. Contracts see
/// its commands, in order: the crashes that it made, and the failures that it set.
#[derive(Drop)]
pub struct Engine<J: Naming, D: CrashLog = MemLog, P: CrashPages = MemPages> {
    pub(crate) alloc: Global,
    shared: Arc<Shared<J, D, P>>,
    own: Caller<J>,
}

impl<J: Naming, D: CrashLog, P: CrashPages> Model for Engine<J, D, P> {
    ghost use Rattle.std.specs.Prelude.{List};
    ghost use Rattle.std.specs.Coded.{codes};
    ghost use Rattle.engine_guarded.specs.engine_history.specs.Commands.{commands};
    ghost use Rattle.engine_guarded.specs.engine_history.specs.node_laws.specs.declared.event.Event.{Event};
    ghost use Rattle.engine_monitor.specs.Engines.{IsOperator};

    ghost Value = { List Event };

    ghost coded = { Prim.hlevel codes };

    ghost view = { λ e. commands e.own.steps };

    ghost invariant = { λ e. IsOperator J.sessions e.own };
}

/// What the threads share, each session's own side, and the engine's.
struct Parts<J: Naming, D: CrashLog, P: CrashPages> {
    shared: Arc<Shared<J, D, P>>,
    states: Vec<SessionState<J>>,
    own: Caller<J>,
}

// What was opened as what the threads share, and each side of it. Nothing was called yet.
fn share<J, D, P, R>(rt: &R, opened: Opened<D, P>) -> Result<Parts<J, D, P>, AllocError>
where
    J: Naming,
    D: CrashLog + Drop,
    P: CrashPages + Drop,
    R: Wait,
    requires named { IsNamed opened J.start J.entries J.marks J.names J.sessions }
    ensures states { IfOk result (λ made. AllByRecursion (IsFreshState J.marks) made.states.items) }
    ensures numbers { IfOk result (λ made. numbers_in made.states.items ≡ below J.sessions) }
    ensures own { IfOk result (λ made. made.own ≡ record { number = J.sessions; steps = []; busy = false }) }
{
    let Opened {
        start,
        session_starts,
    } = opened;
    let Start {
        alloc,
        entries,
        marks,
        seat,
        own,
        world,
        defers,
    } = Box::into_inner(start);
    let count = session_starts.len() as u64;
    let first = pushed(rt, &entries, Entry::first());
    let SessionStates { places, states } = start_all::<J>(alloc, session_starts, &first)?;
    let mut places = places;
    let (far_end, mark) = own.at(first.index() as u64 + 1);
    places.push(Place::new::<J>(count, far_end, first.again()))?;
    let held = Held::new(Guarded::new(world, places), seat, &first);
    let shared = Arc::new(
        alloc,
        Shared::new(held, Published::new(entries, marks), defers),
    )?;
    Ok(Parts {
        shared,
        states,
        own: Caller::new(count, mark, first),
    })
}

// What is shared, once nobody else holds it.
fn alone<T, R: Wait>(rt: &R, shared: Arc<T>) -> T {
    let mut shared = shared;
    for _ in rt.forever() {
        match Arc::try_unwrap(shared) {
            Ok(all) => return all,
            Err(back) => shared = back,
        }
        thread::yield_now();
    }
    unreachable!()
}

impl<J: Naming, D: CrashLog + Drop, P: CrashPages + Drop> Engine<J, D, P> {
    /// An engine of what was opened, and its sessions. Both components are brought up. Refused NoMemory; Device and
    /// NumbersSpent, as `restart` is.
    pub fn new<R: Wait>(
        rt: &R,
        opened: Opened<D, P>,
    ) -> Result<(Engine<J, D, P>, Vec<Session<J, D, P>>), Refusal>
        requires named { IsNamed opened J.start J.entries J.marks J.names J.sessions }
        ensures refused { IfErr result IsOutage }
        ensures up { OnOk result (WereUp J.start J.entries []) }
        ensures commands { IfOk result (λ made. made.0 ≡ []) }
        ensures fresh { IfOk result (λ made. AllByRecursion (IsFresh J.marks) made.1.items) }
        ensures numbers { IfOk result (λ made. numbers_named made.1.items ≡ below (length opened.sessions)) }
    {
        let alloc = opened.start.alloc;
        let Parts {
            shared,
            states,
            own,
        } = share(rt, opened)?;
        let sessions = sessions_of(alloc, states, &shared)?;
        let mut engine = Engine { alloc, shared, own };
        engine.restart(rt)?;
        Ok((engine, sessions))
    }

    /// The data component crashes. Nothing is kept that isn't stable.
    pub fn crash_dc<R: Wait>(&mut self, rt: &R)
        ensures given { self.new ≡ self.old ++ event.CrashDc 0 0 ∷ [] }
        ensures entered { HasCommanded J.entries J.sessions self.old (event.CrashDc 0 0) }
    {
        let Engine { shared, own, .. } = self;
        let entries = shared.published.entries();
        let mut out = Out::Nothing;
        shared.hold(rt).guarded.crash_dc(rt, entries, own, &mut out);
        own.shown();
    }

    /// The transaction component crashes, and every session's transaction is cut off. Of what isn't stable of the log so
    /// many bytes are kept, or all of it where it has fewer.
    pub fn crash_tc<R: Wait>(&mut self, rt: &R, kept: u64)
        ensures { LeftBytes J.start J.entries J.sessions kept self.old self.new }
    {
        let Engine { shared, own, .. } = self;
        let entries = shared.published.entries();
        let mut out = Out::Nothing;
        let mut guard = shared.hold(rt);
        let held = &mut *guard;
        held.guarded.kept();
        held.guarded.crash_tc(rt, entries, own, kept, &mut out);
        own.shown();
    }

    /// The call of this number, from now on, of the device of the transaction component's log fails.
    pub fn fail_tc<R: Wait>(&mut self, rt: &R, call: u64)
        ensures given { self.new ≡ self.old ++ event.FailTc call ∷ [] }
        ensures entered { HasCommanded J.entries J.sessions self.old (event.FailTc call) }
    {
        let Engine { shared, own, .. } = self;
        let entries = shared.published.entries();
        let mut out = Out::Nothing;
        shared
            .hold(rt)
            .guarded
            .fail_tc(rt, entries, own, call, &mut out);
        own.shown();
    }

    /// Brings both components up, in one session, and undoes who was lost: after all commands that were given. Refused
    /// NoMemory, Device, NumbersSpent; what was done by then stands.
    pub fn restart<R: Wait>(&mut self, rt: &R) -> Result<(), Refusal>
        ensures same { self.new ≡ self.old }
        ensures up { OnOk result (WereUp J.start J.entries self.old) }
        ensures refused { IfErr result IsOutage }
    {
        let Engine { shared, own, .. } = self;
        let entries = shared.published.entries();
        let mut out = Out::Nothing;
        let mut guard = shared.hold(rt);
        let held = &mut *guard;
        let up = held.guarded.restart(rt, entries, own, &mut out);
        held.guarded.kept();
        own.shown();
        up
    }

    /// Ends the engine with all of its sessions: what was done, and the node. What is unfinished of a session's transaction
    /// stays so. Refused NoMemory; the engine is gone then too. Of crashes and of failures that were set the steps have just
    /// the engine's commands.
    pub fn close<R: Wait>(
        self,
        rt: &R,
        sessions: Vec<Session<J, D, P>>,
    ) -> Result<Closed<J, D, P>, Refusal>
        ensures kept { IfOk result (λ closed. AllByRecursion (IsCovered closed.steps) sessions.items) }
        ensures commands { IfOk result (λ closed. commands closed.steps ≡ self) }
        ensures refused { IfErr result (λ refusal. refusal ≡ Refusal.NoMemory) }
    {
        let Engine { alloc, shared, own } = self;
        let callers = callers_of(alloc, sessions)?;
        let (held, published) = alone(rt, shared).into_parts();
        Ok(held.into_guarded().close(published.entries(), callers, own))
    }
}
