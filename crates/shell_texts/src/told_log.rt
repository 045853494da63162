//! The log, in words: how long it is, what of it is stable, and what isn't answered.
use crate::numbers::Numbers;
use crate::text::Text;
use shell_story::{Logged, Story, is_asked};

/// A line of the log as it is.
pub fn tell_log(text: &mut Text<'_, Vec<u8>>, story: &Story<'_>) {
    if !story.now.is_tc_up {
        text.say("  transactions and log: their component is down.\n");
        return;
    }
    text.say("  log: records ")
        .number(story.now.records)
        .say(", stable up to ")
        .number(story.now.stable)
        .say("; not answered: ");
    let mut numbers = Numbers::new();
    for logged in story.log.as_slice() {
        if is_unanswered(logged) {
            numbers.take(text, logged.number);
        }
    }
    numbers.end(text);
    text.say(".\n");
}

fn is_unanswered(logged: &Logged) -> bool {
    logged.lost.is_none() && !logged.is_answered && is_asked(&logged.record)
}
