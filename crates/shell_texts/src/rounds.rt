//! The events of a line that settles.
use crate::text::Text;
use shell_story::{Doing, Step, Story, label_of};
use std::io;

/// What such an event is, as a line of its own would name it.
pub fn put_round<W: io::Write>(text: &mut Text<'_, W>, story: &Story<'_>, step: &Step<'_>) {
    text.say(name_of(step.doing));
    match step.doing {
        Doing::Request(number) | Doing::Reply(number) => {
            text.number(number);
        }
        Doing::Send | Doing::Undo => {
            let label = label_of(story.actors.as_slice(), step.txn);
            text.bytes(label);
        }
        _ => {}
    }
}

fn name_of(doing: Doing) -> &'static str {
    match doing {
        Doing::Connect => "connect",
        Doing::Recover => "recover",
        Doing::Force => "force",
        Doing::Send => "send ",
        Doing::Undo => "undo ",
        Doing::Request(_) => "req ",
        Doing::Reply(_) => "rep ",
        Doing::RestartTc => "restart tc",
        Doing::RestartDc => "restart dc",
        _ => "",
    }
}
