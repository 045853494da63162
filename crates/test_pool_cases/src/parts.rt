//! What each client noted, beside its session's calls in the history.
use crate::client::{Note, is_failure, txn_of};
use crate::left::Leaves;
use engine_answers::engine_history::{Lent, Step};
use record_key::Refusal;
use test_model::node_laws::{Event, Out};

/// A session's number, and what its client noted.
#[derive(Drop)]
pub struct Part {
    pub session: u64,
    pub notes: Vec<Note>,
}

/// Whether the history has just the noted calls of the session, in their order, each answered as noted, but for those that
/// a failure left unfinished. Of a call without a transaction or amid an unfinished one, or of a second beginning,
/// there is no entry.
pub fn agrees<L: Leaves>(closed: &L, part: &Part) -> bool {
    let mut from = 0;
    for note in &part.notes {
        if has_entry(note) {
            let Some(place) = next_call(closed, part.session, from) else {
                return false;
            };
            if !is_noted(closed, place, note) {
                return false;
            }
            from = place.saturating_add(1);
        }
    }
    next_call(closed, part.session, from).is_none()
}

fn has_entry(note: &Note) -> bool {
    match (&note.event, &note.out) {
        (Event::Begin, Out::Refused(Refusal::Full)) => false,
        (_, Out::Refused(Refusal::NotOpen | Refusal::Unanswered | Refusal::RollingBack)) => false,
        _ => true,
    }
}

// Where the session's next call stands.
fn next_call<L: Leaves>(closed: &L, session: u64, from: usize) -> Option<usize> {
    for place in from..closed.count() {
        if let Some(step) = closed.step_at(place)
            && step.caller == Some(session)
        {
            return Some(place);
        }
    }
    None
}

// Whether the call at a place is the noted one, and came to what is noted.
fn is_noted<L: Leaves>(closed: &L, place: usize, note: &Note) -> bool {
    let Some(step) = closed.step_at(place) else {
        return false;
    };
    *step.event.lent().get() == note.event && came_to(closed, place, step, &note.out)
}

// Whether a call came to what its client was answered: to what was told of it, where more was to be told.
fn came_to<L: Leaves>(closed: &L, place: usize, step: &Step, answered: &Out) -> bool {
    let out = step.out.lent();
    if !is_pending(out.get()) {
        return *out.get() == *answered;
    }
    if is_failure(answered) {
        return true;
    }
    match line_after(
        closed,
        place.saturating_add(1),
        txn_of(step.event.lent().get()),
    ) {
        None => *answered == Out::Refused(Refusal::NotConnected),
        Some(line) => match line.get() {
            Out::Stable { .. } | Out::Connects { .. } => *out.get() == *answered,
            line => line == answered,
        },
    }
}

fn is_pending(out: &Out) -> bool {
    matches!(
        out,
        Out::Logged(_) | Out::Asked(_) | Out::RollingBack | Out::CommitLogged(_)
    )
}

// The first line that is told to the transaction from a place on, unless a crash comes before it.
fn line_after<L: Leaves>(closed: &L, from: usize, txn: u64) -> Option<Lent<'_, Out>> {
    for place in from..closed.count() {
        if let Some(step) = closed.step_at(place) {
            if let Event::CrashTc { .. } = step.event.lent().get() {
                return None;
            }
            let out = step.out.lent();
            if is_told(out.get(), txn) {
                return Some(out);
            }
        }
    }
    None
}

fn is_told(out: &Out, txn: u64) -> bool {
    match out {
        Out::Answered { txn: of, .. }
        | Out::Row { txn: of, .. }
        | Out::Rows { txn: of, .. }
        | Out::Back { txn: of, .. }
        | Out::RolledBack(of) => *of == txn,
        Out::Stable { committed, .. } | Out::Connects { committed, .. } => {
            committed.as_slice().contains(&txn)
        }
        _ => false,
    }
}
