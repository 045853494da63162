//! How the transactions stand.
use crate::actor::{Actor, Mark, State};
use crate::ends::let_go;
use crate::log_seen::{find, is_asked, txn_of};
use crate::logged::Logged;
use crate::reopened::open_again;
use crate::step::{Doing, Step};
use crate::story::Story;
use record_key::Refusal;
use shell_scripts::node_world::Out;

/// What a step does to the transactions.
pub fn note_actors<'a>(
    story: &mut Story<'a>,
    step: &Step<'a>,
    label: &'a [u8],
    at: usize,
) -> Result<(), Refusal> {
    match &step.out {
        Out::Begun(txn) => begin(story, *txn, label, at),
        Out::Saved(savepoint) => save(story, step.txn, *savepoint, at),
        Out::Up(count) => {
            if matches!(step.doing, Doing::RestartTc) {
                open_again(story, *count, at);
            }
            Ok(())
        }
        Out::Stable { committed, .. } => tell_committed(story, committed.as_slice(), at),
        Out::Connects { committed, .. } => tell_committed(story, committed.as_slice(), at),
        _ => {
            note_one(story, step, at);
            Ok(())
        }
    }
}

fn begin<'a>(story: &mut Story<'a>, txn: u64, label: &'a [u8], born: usize) -> Result<(), Refusal> {
    let actor = Actor {
        txn,
        label,
        born,
        ended: None,
        state: State::Open,
        waiting: None,
        is_reading: false,
    };
    story.actors.push(actor)?;
    Ok(())
}

fn save(story: &mut Story<'_>, txn: u64, savepoint: u64, step: usize) -> Result<(), Refusal> {
    let mark = Mark {
        txn,
        savepoint,
        end: story.now.records,
        step,
    };
    story.marks.push(mark)?;
    Ok(())
}

fn tell_committed(story: &mut Story<'_>, committed: &[u64], at: usize) -> Result<(), Refusal> {
    for txn in committed {
        end(story, *txn, State::Committed, at);
    }
    Ok(())
}

fn end(story: &mut Story<'_>, txn: u64, state: State, at: usize) {
    let_go(&mut story.holds, txn);
    let place = alive(story.actors.as_slice(), txn);
    if let Some(actor) = story.actors.get_mut(place) {
        actor.state = state;
        actor.ended = Some(at);
        actor.waiting = None;
        actor.is_reading = false;
    }
}

/// The place of the transaction of this number that hasn't ended; behind the last one where there is none.
fn alive(actors: &[Actor<'_>], txn: u64) -> usize {
    for (place, actor) in actors.iter().enumerate() {
        if actor.txn == txn && actor.ended.is_none() {
            return place;
        }
    }
    actors.len()
}

/// What a step does to one transaction.
fn note_one(story: &mut Story<'_>, step: &Step<'_>, at: usize) {
    match &step.out {
        Out::Logged(number) => wait(story, step.txn, Some(*number)),
        Out::Asked(_) => read(story, step.txn, true),
        Out::RollingBack => {
            let bound = bound_of(story.marks.as_slice(), step.txn, step.doing);
            set_state(story, step.txn, State::Rolling { bound });
        }
        Out::CommitLogged(_) => set_state(story, step.txn, State::Committing),
        Out::Compensated(number) => {
            let (txn, waits) = compensated(story.log.as_slice(), *number);
            wait(story, txn, if waits { Some(*number) } else { None });
        }
        Out::Answered { txn, .. } => wait(story, *txn, None),
        Out::Undone(number) => {
            let (txn, _) = compensated(story.log.as_slice(), *number);
            wait(story, txn, None);
        }
        Out::Row { txn, .. } | Out::Rows { txn, .. } => read(story, *txn, false),
        Out::Back { txn, .. } => set_state(story, *txn, State::Open),
        Out::RolledBack(txn) => end(story, *txn, State::RolledBack, at),
        Out::Lost(txn) => end(story, *txn, State::Lost, at),
        _ => {}
    }
}

fn wait(story: &mut Story<'_>, txn: u64, waiting: Option<u64>) {
    let place = alive(story.actors.as_slice(), txn);
    if let Some(actor) = story.actors.get_mut(place) {
        actor.waiting = waiting;
    }
}

fn read(story: &mut Story<'_>, txn: u64, is_reading: bool) {
    let place = alive(story.actors.as_slice(), txn);
    if let Some(actor) = story.actors.get_mut(place) {
        actor.is_reading = is_reading;
    }
}

fn set_state(story: &mut Story<'_>, txn: u64, state: State) {
    let place = alive(story.actors.as_slice(), txn);
    if let Some(actor) = story.actors.get_mut(place) {
        actor.state = state;
    }
}

/// Whose compensation it is, and whether it has an operation that is to be answered.
fn compensated(log: &[Logged], number: u64) -> (u64, bool) {
    match find(log, number) {
        Some(logged) => (txn_of(&logged.record), is_asked(&logged.record)),
        None => (0, false),
    }
}

/// The number above which a rollback undoes.
fn bound_of(marks: &[Mark], txn: u64, doing: Doing) -> u64 {
    let Doing::GoBack(savepoint) = doing else {
        return 0;
    };
    let mut bound = 0;
    for mark in marks {
        if mark.txn == txn && mark.savepoint == savepoint {
            bound = mark.end;
        }
    }
    bound
}
