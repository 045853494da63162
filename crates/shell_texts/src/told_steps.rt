//! What each step of a line has done, in words.
use crate::rounds::put_round;
use crate::text::Text;
use crate::told_changes::tell_changes;
use crate::told_losses::tell_losses;
use crate::told_messages::put_message;
use crate::told_out::tell_out;
use history::Record;
use record_key::Op;
use shell_story::node_world::Out;
use shell_story::{Delivery, Doing, Fate, Step, Story, message_of};

/// Lines of the steps from this one on.
pub fn tell_steps(
    text: &mut Text<'_, Vec<u8>>,
    story: &Story<'_>,
    whole: &Story<'_>,
    first: usize,
) {
    let steps = story.steps.as_slice();
    for at in first..steps.len() {
        let step = &steps[at];
        tell_step(text, story, step, at);
        tell_records(text, story, at);
        tell_changes(text, story.changes.as_slice(), at);
        if step.out == Out::Down {
            tell_losses(text, whole, step.doing, at);
        }
    }
}

fn tell_step(text: &mut Text<'_, Vec<u8>>, story: &Story<'_>, step: &Step<'_>, at: usize) {
    text.say("  - ");
    if step.is_round {
        put_round(text, story, step);
        text.say(": ");
    }
    tell_delivery(text, story, at);
    if is_reply_to_nobody(story, step, at) {
        text.say("no client is told, and the log has its answer now\n");
    } else {
        tell_out(text, story, step);
    }
}

/// Whether the step is a reply of which nobody is told, and by which a record is new: an answer that a crash took.
fn is_reply_to_nobody(story: &Story<'_>, step: &Step<'_>, at: usize) -> bool {
    let is_untold = matches!((&step.out, step.doing), (Out::Nothing, Doing::Reply(_)));
    is_untold && story.log.as_slice().iter().any(|logged| logged.born == at)
}

/// Which message arrives, and how.
fn tell_delivery(text: &mut Text<'_, Vec<u8>>, story: &Story<'_>, at: usize) {
    for delivery in story.deliveries.as_slice() {
        if delivery.step == at {
            tell_arrival(text, story, delivery);
        }
    }
}

fn tell_arrival(text: &mut Text<'_, Vec<u8>>, story: &Story<'_>, delivery: &Delivery) {
    let found = message_of(
        story.messages.as_slice(),
        delivery.is_reply,
        delivery.number,
    );
    if let Some(message) = &found {
        put_message(text, message);
    }
    let how = match delivery.fate {
        Fate::First => " arrives: ",
        Fate::Again => " arrives again: ",
        Fate::Late => " arrives late: ",
        Fate::LateAgain => " arrives again, late: ",
        Fate::Missed => " is lost, the component is down: ",
    };
    text.say(how);
}

/// The records that are new.
fn tell_records(text: &mut Text<'_, Vec<u8>>, story: &Story<'_>, at: usize) {
    for logged in story.log.as_slice() {
        if logged.born == at {
            text.say("    logged: ");
            text.record(logged.number, &logged.record);
            tell_amount(text, &logged.record);
        }
    }
}

/// Of a compensation that adds: an amount is a number from 0 on, and what takes 5 away adds 5 less than 2^64.
fn tell_amount(text: &mut Text<'_, Vec<u8>>, record: &Record) {
    let Record::Comp {
        inverse: Some(Op::Add(_, amount)),
        ..
    } = record
    else {
        return;
    };
    let less = 0u64.wrapping_sub(*amount);
    if less < *amount {
        text.say("    which adds -")
            .number(less)
            .say(" (2^64 - ")
            .number(less)
            .say(").\n");
    }
}
