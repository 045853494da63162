//! Messages as they are sent and delivered.
use crate::message::{About, Delivery, Fate, Message};
use crate::said::{about_of, asked_in, go_on};
use crate::step::{Doing, Step};
use crate::story::Story;
use record_key::Refusal;
use shell_scripts::node_world::Out;
use shell_scripts::request;

/// The message that a step sends, and the one that it delivers.
pub fn note_messages(story: &mut Story<'_>, step: &Step<'_>, at: usize) -> Result<(), Refusal> {
    match step.doing {
        Doing::Request(number) => deliver(story, step, false, number, at)?,
        Doing::Reply(number) => deliver(story, step, true, number, at)?,
        _ => {}
    }
    match &step.out {
        Out::Connects { request, .. } => send(story, false, *request, About::Connect, at),
        Out::Sent(number) => {
            let about = about_of(story, step);
            send(story, false, *number, about, at)
        }
        Out::Replied(number) => {
            let about = asked_in(story.messages.as_slice(), step.doing);
            send(story, true, *number, about, at)
        }
        _ => Ok(()),
    }
}

fn send(
    story: &mut Story<'_>,
    is_reply: bool,
    number: u64,
    about: About,
    sent: usize,
) -> Result<(), Refusal> {
    let message = Message {
        is_reply,
        number,
        sent,
        session: story.now.sessions,
        about,
        deliveries: 0,
        is_gone: false,
    };
    story.messages.push(message)?;
    Ok(())
}

/// Every message is let go, and the next of each kind is number 1.
pub fn forget(story: &mut Story<'_>) {
    for message in story.messages.as_mut_slice() {
        message.is_gone = true;
    }
    story.now.last_reply = 0;
    story.now.last_request = 0;
}

/// Whether a message has this number.
fn is_of(message: &Message, is_reply: bool, number: u64) -> bool {
    !message.is_gone && message.is_reply == is_reply && message.number == number
}

/// The message of this number.
pub fn message_of(messages: &[Message], is_reply: bool, number: u64) -> Option<Message> {
    for message in messages {
        if is_of(message, is_reply, number) {
            return Some(*message);
        }
    }
    None
}

fn deliver(
    story: &mut Story<'_>,
    step: &Step<'_>,
    is_reply: bool,
    number: u64,
    at: usize,
) -> Result<(), Refusal> {
    let Some(message) = message_of(story.messages.as_slice(), is_reply, number) else {
        return Ok(());
    };
    let fate = fate_of(story, &message, &step.out);
    let delivery = Delivery {
        is_reply,
        number,
        sent: message.sent,
        step: at,
        fate,
    };
    story.deliveries.push(delivery)?;
    if matches!(fate, Fate::Missed) {
        return Ok(());
    }
    count(story, is_reply, number);
    if is_reply && matches!(fate, Fate::First) {
        go_on(story, message.about, &step.out);
    }
    Ok(())
}

fn fate_of(story: &Story<'_>, message: &Message, out: &Out) -> Fate {
    if let Out::Refused(Refusal::NotConnected) = out {
        return Fate::Missed;
    }
    let last = if message.is_reply {
        story.now.last_reply
    } else {
        story.now.last_request
    };
    let late = message.number < last || message.session < story.now.sessions;
    match (late, message.deliveries) {
        (false, 0) => Fate::First,
        (false, _) => Fate::Again,
        (true, 0) => Fate::Late,
        (true, _) => Fate::LateAgain,
    }
}

fn count(story: &mut Story<'_>, is_reply: bool, number: u64) {
    for message in story.messages.as_mut_slice() {
        if is_of(message, is_reply, number) {
            message.deliveries = message.deliveries.saturating_add(1);
        }
    }
    if is_reply {
        story.now.last_reply = story.now.last_reply.max(number);
    } else {
        story.now.last_request = story.now.last_request.max(number);
    }
}
