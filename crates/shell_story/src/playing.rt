//! A line of a script is played, event by event.
use crate::about::of_line;
use crate::ends::take_keys;
use crate::happened::note;
use crate::messages::forget;
use crate::settled::{open_both, settle_line};
use crate::step::{Step, is_failure};
use crate::story::Story;
use record_key::Refusal;
use shell_scripts::{Line, LineResult, request};

/// Plays a script that was checked, up to the line in which memory or a device fails. Gives whether one has. Refused
/// NoMemory where the story has no room.
pub fn play<'a>(story: &mut Story<'a>, script: &'a [u8]) -> Result<bool, Refusal> {
    let failed = play_each(story, script)?;
    story.shown = story.steps.len();
    open_both(story)?;
    Ok(failed)
}

fn play_each<'a>(story: &mut Story<'a>, script: &'a [u8]) -> Result<bool, Refusal> {
    let mut number = 0u64;
    for line in script.split(|byte| *byte == b'\n') {
        number = number.saturating_add(1);
        if play_line(story, number, line)? {
            return Ok(true);
        }
    }
    Ok(false)
}

/// Plays a line. Gives whether memory or a device failed in it. Refused NoMemory where the story has no room.
pub fn play_line<'a>(story: &mut Story<'a>, number: u64, text: &'a [u8]) -> Result<bool, Refusal> {
    match request(text) {
        None => Ok(false),
        Some(Line::Settle(most)) => settle_line(story, number, text, most),
        Some(line) => play_event(story, number, text, &line),
    }
}

fn play_event<'a>(
    story: &mut Story<'a>,
    number: u64,
    text: &'a [u8],
    line: &Line<'a>,
) -> Result<bool, Refusal> {
    let (doing, txn) = of_line(line, &story.shell);
    match story.shell.perform(line) {
        LineResult::Event(out) => {
            take_keys(story, line, txn, &out)?;
            let failed = is_failure(&out);
            let step = Step {
                line: number,
                text,
                is_round: false,
                doing,
                txn,
                out,
            };
            note(story, step, label_in(text))?;
            Ok(failed)
        }
        LineResult::Forgotten => {
            forget(story);
            Ok(false)
        }
        _ => Ok(false),
    }
}

/// The second word of a line: the label where there is one.
pub fn label_in(text: &[u8]) -> &[u8] {
    let mut words = text.split(|byte| *byte == b' ');
    let _name = words.next();
    match words.next() {
        Some(label) => label,
        None => b"?",
    }
}
