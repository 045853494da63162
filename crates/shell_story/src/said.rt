//! What messages say, as the steps that send them show.
use crate::actor::Actor;
use crate::log_seen::is_asked;
use crate::logged::Logged;
use crate::message::{About, Message};
use crate::messages::message_of;
use crate::step::{Doing, Step};
use crate::story::Story;
use history::Record;
use shell_scripts::node_world::Out;

/// What the request says that a step sends.
pub fn about_of(story: &Story<'_>, step: &Step<'_>) -> About {
    match step.doing {
        Doing::Send => waited_for(story.actors.as_slice(), step.txn),
        Doing::Low => About::Low,
        Doing::Checkpoint => About::Checkpoint,
        Doing::Tell => About::Tell,
        Doing::Recover => recovering(story),
        _ => About::Connect,
    }
}

fn waited_for(actors: &[Actor<'_>], txn: u64) -> About {
    let mut about = About::Read;
    for actor in actors {
        if actor.txn == txn && actor.ended.is_none() {
            about = match actor.waiting {
                Some(number) => About::Perform(number),
                None => About::Read,
            };
        }
    }
    about
}

/// What recovery sends: redo goes up through the log; then the compensation that waits is sent again.
fn recovering(story: &Story<'_>) -> About {
    if !story.now.is_redoing {
        return undone_in(story.actors.as_slice());
    }
    let mut about = About::RedoEnd;
    for logged in story.log.as_slice() {
        if matches!(about, About::RedoEnd) && is_redone(logged, story.now.redo) {
            about = About::Perform(logged.number);
        }
    }
    about
}

fn undone_in(actors: &[Actor<'_>]) -> About {
    for actor in actors {
        if let (None, Some(number)) = (actor.ended, actor.waiting) {
            return About::Perform(number);
        }
    }
    About::Connect
}

fn is_redone(logged: &Logged, from: u64) -> bool {
    logged.number >= from && logged.lost.is_none() && is_asked(&logged.record)
}

/// What the delivered request says, to which a reply is given.
pub fn asked_in(messages: &[Message], doing: Doing) -> About {
    let Doing::Request(number) = doing else {
        return About::Connect;
    };
    match message_of(messages, false, number) {
        Some(message) => message.about,
        None => About::Connect,
    }
}

/// Redo begins behind a connection, and goes on behind each reply.
pub fn go_on(story: &mut Story<'_>, about: About, out: &Out) {
    match (about, out) {
        (About::Connect, Out::Connected(_)) => {
            story.now.is_redoing = true;
            story.now.redo = redo_start(story.log.as_slice());
        }
        (About::RedoEnd, _) => story.now.is_redoing = false,
        (About::Perform(number), _) if story.now.is_redoing => {
            story.now.redo = number.saturating_add(1);
        }
        _ => {}
    }
}

/// Behind the last checkpoint.
fn redo_start(log: &[Logged]) -> u64 {
    let mut start = 1;
    for logged in log {
        if let (Record::Checkpoint { low }, None) = (&logged.record, logged.lost) {
            start = low.saturating_add(1);
        }
    }
    start
}
