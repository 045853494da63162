//! Messages, in words: which haven't arrived, and still may.
use crate::text::Text;
use shell_story::{About, Message, Story};

/// A line of the messages that were never delivered, if there are any.
pub fn tell_messages(text: &mut Text<'_, Vec<u8>>, story: &Story<'_>) {
    let mut separator = "  not delivered so far: ";
    for message in story.messages.as_slice() {
        if message.deliveries == 0 && !message.is_gone {
            text.say(separator);
            put_message(text, message);
            separator = ", ";
        }
    }
    if separator == ", " {
        text.say(".\n");
    }
}

/// A message by its number, and what it says.
pub fn put_message(text: &mut Text<'_, Vec<u8>>, message: &Message) {
    let kind = if message.is_reply {
        "reply "
    } else {
        "request "
    };
    text.say(kind).number(message.number).say(" (");
    put_about(text, message.about);
    text.say(")");
}

fn put_about(text: &mut Text<'_, Vec<u8>>, about: About) {
    match about {
        About::Perform(number) => {
            text.say("perform ").number(number);
        }
        other => {
            text.say(words_of(other));
        }
    }
}

fn words_of(about: About) -> &'static str {
    match about {
        About::Connect => "connect",
        About::Perform(_) => "perform",
        About::Read => "read",
        About::Low => "low",
        About::Checkpoint => "checkpoint",
        About::Tell => "stable end",
        About::RedoEnd => "end of redo",
    }
}
