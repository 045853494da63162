//! The places and callers of an engine's sessions.
ghost use Rattle.std.specs.Prelude.{◌≡◌, ◌+◌, [], IfOk, length};
ghost use Rattle.std.specs.List.{AllByRecursion};
ghost use Rattle.engine_guarded.specs.Closing.{IsIdle};
ghost use Rattle.engine_guarded.specs.Places.{PlacesKept};
ghost use Rattle.engine_guarded.specs.Slots.{Shown};
ghost use Rattle.engine_guarded.specs.engine_history.specs.Closing.{IsFresh, below, numbers_named};
ghost use Rattle.engine_monitor.specs.Engines.{IsFreshState, callers_as, callers_in, numbers_in};
ghost use Rattle.engine_monitor.specs.Opened.{AreAgreed, ReadsMarks, agreements_of};

use crate::known::Known;
use crate::opened::SessionStart;
use crate::session::Session;
use crate::shared::Shared;
use boxcar::Pushed;
use engine_guarded::engine_history::Naming;
use engine_guarded::{Caller, Entry, Place};
use stable::{CrashLog, CrashPages};
use std::alloc::{AllocError, Global};
use std::sync::Arc;

/// A session's own side.
#[derive(Drop)]
pub(crate) struct SessionState<J: Naming> {
    caller: Caller<J>,
    known: Known<J>,
}

/// What lies under the lock of each session, and what the session keeps itself.
#[derive(Drop)]
pub(crate) struct SessionStates<J: Naming> {
    pub(crate) places: Vec<Place>,
    pub(crate) states: Vec<SessionState<J>>,
}

/// A place and a session's own state for each of these, with room for one place more. Each has seen what stood before the
/// first call.
pub(crate) fn start_all<J: Naming>(
    alloc: Global,
    session_starts: Vec<SessionStart>,
    first: &Pushed<Entry>,
) -> Result<SessionStates<J>, AllocError>
    requires agreed { AreAgreed J.names (agreements_of session_starts.items) }
    requires reads { AllByRecursion (ReadsMarks J.marks) session_starts.items }
    requires count { length session_starts.items ≡ J.sessions }
    requires shown { Shown J.entries first.now }
    requires empty { first.now.value.past.items ≡ [] }
    ensures places { IfOk result (λ made. PlacesKept J.entries J.names [] made.places.items) }
    ensures count { IfOk result (λ made. length made.places.items ≡ J.sessions) }
    ensures states { IfOk result (λ made. AllByRecursion (IsFreshState J.marks) made.states.items) }
    ensures numbers { IfOk result (λ made. numbers_in made.states.items ≡ below J.sessions) }
{
    let count = session_starts.len();
    let mut places = Vec::with_capacity(alloc, count + 1)?;
    let mut states = Vec::with_capacity(alloc, count)?;
    let mut number = 0u64;
    for session_start in session_starts {
        let SessionStart { ends, seat } = session_start;
        let (far_end, mark) = ends.at(first.index() as u64 + 1);
        places.push(Place::new::<J>(number, far_end, first.again()))?;
        states.push(SessionState {
            caller: Caller::new(number, mark, first.again()),
            known: Known::new(seat, first),
        })?;
        number += 1;
    }
    Ok(SessionStates { places, states })
}

/// The sessions of these.
pub(crate) fn sessions_of<J, D, P>(
    alloc: Global,
    states: Vec<SessionState<J>>,
    shared: &Arc<Shared<J, D, P>>,
) -> Result<Vec<Session<J, D, P>>, AllocError>
where
    J: Naming,
    D: CrashLog + Drop,
    P: CrashPages + Drop,
    requires states { AllByRecursion (IsFreshState J.marks) states.items }
    ensures fresh { IfOk result (λ sessions. AllByRecursion (IsFresh J.marks) sessions.items) }
    ensures numbers { IfOk result (λ sessions. numbers_named sessions.items ≡ numbers_in states.items) }
{
    let mut sessions = Vec::with_capacity(alloc, states.len())?;
    for state in states {
        let SessionState { caller, known } = state;
        sessions.push(Session::new(caller, known, Arc::try_clone(shared)?))?;
    }
    Ok(sessions)
}

/// The sessions' own sides.
pub(crate) fn callers_of<J, D, P>(
    alloc: Global,
    sessions: Vec<Session<J, D, P>>,
) -> Result<Vec<Caller<J>>, AllocError>
where
    J: Naming,
    D: CrashLog + Drop,
    P: CrashPages + Drop,
    ensures callers { IfOk result (λ callers. callers_in callers.items ≡ callers_as sessions.items) }
    ensures idle { IfOk result (λ callers. AllByRecursion IsIdle callers.items) }
{
    let mut callers = Vec::with_capacity(alloc, sessions.len())?;
    for session in sessions {
        callers.push(session.into_caller())?;
    }
    Ok(callers)
}
