//! The places and callers of an engine's sessions.
ghost use Rattle.std.specs.Prelude.{◌≡◌, ◌≤◌, [], IfOk, length, vec_len};
ghost use Rattle.std.specs.List.{AllByRecursion};
ghost use Rattle.engine_sessions.specs.engine_history.specs.Closing.{IsFresh, below, numbers_named};
ghost use Rattle.engine_workers.specs.Closing.{IsAtMarks, IsCovered, IsFreshState, numbers_in, seen_as, seen_by};
ghost use Rattle.engine_sessions.specs.engine_history.specs.Kept.{PlacesKept};
ghost use Rattle.engine_workers.specs.Opened.{AreAgreed, ReadsMarks, agreements_of};

use crate::opened::SessionStart;
use crossbeam_channel::Sender;
use engine_marks::Seat;
use engine_sessions::Session;
use engine_sessions::engine_history::{
    Caller, EventHistory, Gate, LatchedTc, Naming, Place, Published,
};
use engine_sessions::engine_shared::{Job, Shared};
use stable::{CrashLog, CrashPages};
use std::alloc::{AllocError, Global};
use std::sync::Arc;

/// A session's own side of the history, and its seat at the marks.
#[derive(Drop)]
pub(crate) struct SessionState<J: Naming> {
    caller: Caller<J>,
    seat: Seat,
}

/// What the history keeps of each session, and what the session keeps itself.
#[derive(Drop)]
pub(crate) struct SessionStates<J: Naming> {
    pub(crate) places: Vec<Place<J>>,
    pub(crate) states: Vec<SessionState<J>>,
}

/// A place and a session's own state for each of these.
pub(crate) fn start_all<J: Naming>(
    alloc: Global,
    session_starts: Vec<SessionStart>,
) -> Result<SessionStates<J>, AllocError>
    requires agreed { AreAgreed J.names (agreements_of session_starts.items) }
    requires reads { AllByRecursion (ReadsMarks J.marks) session_starts.items }
    requires count { length session_starts.items ≡ J.sessions }
    ensures places { IfOk result (λ made. PlacesKept J.entries J.names [] made.places.items) }
    ensures count { IfOk result (λ made. vec_len made.places ≡ J.sessions) }
    ensures states { IfOk result (λ made. AllByRecursion (IsFreshState J.marks) made.states.items) }
    ensures numbers { IfOk result (λ made. numbers_in made.states.items ≡ below J.sessions) }
{
    let count = session_starts.len();
    let mut places = Vec::with_capacity(alloc, count)?;
    let mut states = Vec::with_capacity(alloc, count)?;
    let mut number = 0u64;
    for session_start in session_starts {
        let SessionStart { ends, seat } = session_start;
        let (far_end, mark) = ends.parted();
        places.push(Place::new(number, far_end))?;
        states.push(SessionState {
            caller: Caller::new(number, mark),
            seat,
        })?;
        number += 1;
    }
    Ok(SessionStates { places, states })
}

/// The sessions of these.
pub(crate) fn sessions_of<J, G, D, P>(
    alloc: Global,
    states: Vec<SessionState<J>>,
    shared: &Arc<Shared<J, G, D, P>>,
    work: &Sender<Job>,
) -> Result<Vec<Session<J, G, D, P>>, AllocError>
where
    J: Naming,
    G: Gate + Drop,
    D: CrashLog + Drop,
    P: CrashPages + Drop,
    requires states { AllByRecursion (IsFreshState J.marks) states.items }
    ensures fresh { IfOk result (λ sessions. AllByRecursion (IsFresh J.marks) sessions.items) }
    ensures numbers { IfOk result (λ sessions. numbers_named sessions.items ≡ numbers_in states.items) }
{
    let mut sessions = Vec::with_capacity(alloc, states.len())?;
    for state in states {
        let SessionState { caller, seat } = state;
        let session = Session::new(alloc, caller, seat, Arc::try_clone(shared)?, work.clone()?);
        sessions.push(session)?;
    }
    Ok(sessions)
}

/// What each session has seen of the history, and its seat.
pub(crate) fn states_of<J, G, D, P>(
    alloc: Global,
    sessions: Vec<Session<J, G, D, P>>,
) -> Result<Vec<SessionState<J>>, AllocError>
where
    J: Naming,
    G: Gate + Drop,
    D: CrashLog + Drop,
    P: CrashPages + Drop,
    ensures states { IfOk result (λ states. seen_by states.items ≡ seen_as sessions.items) }
    ensures marks { IfOk result (λ states. AllByRecursion (IsAtMarks J.marks) states.items) }
{
    let mut states = Vec::with_capacity(alloc, sessions.len())?;
    for session in sessions {
        let (caller, seat) = session.into_parts();
        states.push(SessionState { caller, seat })?;
    }
    Ok(states)
}

/// Each session's calls in the history are just those that the session knows of; of one that is unfinished more may have
/// been told. And no session has seen the log stable further than it is.
pub(crate) fn cover<J: Naming, D: CrashLog>(
    published: &Published<J>,
    history: &mut EventHistory<J>,
    tc: &mut LatchedTc<J, D>,
    states: Vec<SessionState<J>>,
)
    requires marks { AllByRecursion (IsAtMarks J.marks) states.items }
    ensures same { (history.new ≡ history.old) × (tc.new.state ≡ tc.old.state) }
    ensures covered { AllByRecursion (IsCovered history.old tc.old.state.side.tc.stable) (seen_by states.items) }
{
    for state in states {
        let SessionState { caller, seat } = state;
        let (mut caller, mut seat) = (caller, seat);
        history.see(published.entries(), &mut caller);
        tc.teach(published, &mut seat);
    }
}
