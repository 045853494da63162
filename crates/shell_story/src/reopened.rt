//! How transactions stand where the log is opened again behind a crash.
use crate::actor::{Actor, State};
use crate::ends::keep_logged;
use crate::logged::Logged;
use crate::story::Story;
use history::Record;

/// The log was opened with so many records: whose Commit record is there has committed; whose Begin record isn't is
/// gone; whom the crash found open otherwise is undone.
pub fn open_again(story: &mut Story<'_>, count: u64, at: usize) {
    keep_logged(&mut story.holds, count);
    for place in 0..story.actors.len() {
        let found = match story.actors.get(place) {
            Some(actor) if actor.ended.is_none() => state_in(story.log.as_slice(), actor.txn),
            _ => None,
        };
        if let (Some(state), Some(actor)) = (found, story.actors.get_mut(place)) {
            stand(actor, state, at);
        }
    }
}

fn stand(actor: &mut Actor<'_>, state: State, at: usize) {
    actor.state = state;
    actor.waiting = None;
    actor.is_reading = false;
    if matches!(state, State::Gone | State::RolledBack) {
        actor.ended = Some(at);
    }
}

/// How the records that are left say that a transaction stands.
fn state_in(log: &[Logged], txn: u64) -> Option<State> {
    let mut state = State::Gone;
    for logged in log {
        if logged.lost.is_some() {
            continue;
        }
        state = match &logged.record {
            Record::Begin if logged.number == txn => State::Loser,
            Record::Commit { txn: whose } if *whose == txn => State::Committing,
            Record::End { txn: whose } if *whose == txn => State::RolledBack,
            _ => state,
        };
    }
    Some(state)
}
