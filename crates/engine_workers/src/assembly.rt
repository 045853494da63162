//! What an engine's threads share, made of what was opened.
ghost use Rattle.std.specs.Prelude.{◌≡◌, [], IfOk};
ghost use Rattle.std.specs.List.{AllByRecursion};
ghost use Rattle.engine_sessions.specs.engine_history.specs.Closing.{below};
ghost use Rattle.engine_workers.specs.Closing.{IsFreshState, numbers_in};
ghost use Rattle.engine_workers.specs.Opened.{IsNamed};

use crate::opened::{Opened, Start};
use crate::session_states::{SessionState, SessionStates, start_all};
use engine_sessions::engine_history::{
    EventHistory, Gate, LatchedDc, LatchedTc, Lines, Naming, Operator, Published, WakeFlags,
};
use engine_sessions::engine_shared::Shared;
use stable::{CrashLog, CrashPages};
use std::alloc::AllocError;
use std::sync::Arc;

/// What the threads share, each session's own side of it, and the engine's. Nothing is entered yet.
pub(crate) fn share<J, G, D, P>(
    opened: Opened<D, P>,
    gate: G,
) -> Result<(Arc<Shared<J, G, D, P>>, Vec<SessionState<J>>, Operator<J>), AllocError>
where
    J: Naming + Drop,
    G: Gate + Drop,
    D: CrashLog + Drop,
    P: CrashPages + Drop,
    requires named { IsNamed opened J.start J.entries J.marks J.names J.sessions }
    ensures states { IfOk result (λ made. AllByRecursion (IsFreshState J.marks) made.1.items) }
    ensures numbers { IfOk result (λ made. numbers_in made.1.items ≡ below J.sessions) }
    ensures operator { IfOk result (λ made. made.2 ≡ []) }
{
    let Opened {
        start,
        session_starts,
    } = opened;
    let wake_flags = WakeFlags::new(start.alloc, session_starts.len())?;
    let SessionStates { places, states } = start_all::<J>(start.alloc, session_starts)?;
    // (the components are by value from here on, where just one way out is left on which they are dropped)
    let Start {
        alloc,
        entries,
        marks,
        seat,
        tc,
        dc,
        own,
        transactions,
        data,
    } = Box::into_inner(start);
    let (tc_far, tc_mark) = tc.parted();
    let (dc_far, dc_mark) = dc.parted();
    let (own_far, own_mark) = own.parted();
    let published = Published::new(entries, marks);
    let tc = LatchedTc::new(alloc, transactions, tc_mark, seat);
    let dc = LatchedDc::new(alloc, data, dc_mark);
    let history = EventHistory::new(
        Lines::new(alloc, tc_far, dc_far),
        places,
        own_far,
        wake_flags,
    );
    let shared = Arc::new(alloc, Shared::new(published, tc, dc, history, gate))?;
    Ok((shared, states, Operator::new(own_mark)))
}
