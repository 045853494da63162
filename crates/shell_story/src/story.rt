//! A story: a script's events with what they came to, and what is known of the node behind the last of them.
use crate::actor::{Actor, Hold, Mark};
use crate::leaf::{Birth, Change, Held, Shot};
use crate::logged::Logged;
use crate::message::{Delivery, Message};
use crate::moment::{Moment, first_moment};
use crate::step::Step;
use record_key::Refusal;
use shell_scripts::Shell;
use std::alloc::Global;

#[derive(Drop)]
pub struct Story<'a> {
    pub shell: Shell,
    pub steps: Vec<Step<'a>>,
    pub actors: Vec<Actor<'a>>,
    pub holds: Vec<Hold>,
    pub marks: Vec<Mark>,
    pub log: Vec<Logged>,
    pub messages: Vec<Message>,
    pub deliveries: Vec<Delivery>,
    pub shots: Vec<Shot>,
    pub held: Vec<Held>,
    pub births: Vec<Birth>,
    pub changes: Vec<Change>,
    pub now: Moment,
    /// How many steps are the script's own. Where it leaves a component down, that is opened behind its end, which
    /// shows what the crash has taken.
    pub shown: usize,
}

/// The story of a new node. Refused NoMemory.
pub fn begin<'a>(alloc: Global) -> Result<Story<'a>, Refusal> {
    Ok(Story {
        shell: Shell::new(alloc)?,
        steps: Vec::new(alloc),
        actors: Vec::new(alloc),
        holds: Vec::new(alloc),
        marks: Vec::new(alloc),
        log: Vec::new(alloc),
        messages: Vec::new(alloc),
        deliveries: Vec::new(alloc),
        shots: Vec::new(alloc),
        held: Vec::new(alloc),
        births: Vec::new(alloc),
        changes: Vec::new(alloc),
        now: first_moment(),
        shown: 0,
    })
}

/// The label of a transaction, the latest of that number.
pub fn label_of<'a>(actors: &[Actor<'a>], txn: u64) -> &'a [u8] {
    let mut label: &'a [u8] = b"?";
    for actor in actors {
        if actor.txn == txn {
            label = actor.label;
        }
    }
    label
}
