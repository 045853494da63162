//! The text that explains a script, line by line.
use crate::text::Text;
use crate::told_leaves::tell_leaves;
use crate::told_log::tell_log;
use crate::told_messages::tell_messages;
use crate::told_steps::tell_steps;
use crate::told_txns::tell_txns;
use crate::wrapped::put_wrapped;
use record_key::Refusal;
use shell_story::node_world::Out;
use shell_story::shell_scripts::{
    DONE, FAILED, FAULT, Line, first_fault, refusal_of, refuse, request,
};
use shell_story::{Story, begin, play, play_line};
use std::alloc::Global;
use std::io;

/// Reads the script and explains each line that changes something, or just line `at`. Gives the exit status.
pub fn explain<R: io::Read, W: io::Write>(
    alloc: Global,
    at: Option<u64>,
    reader: &mut R,
    writer: &mut W,
) -> u8 {
    let mut script = Vec::new(alloc);
    if let Err(error) = reader.read_to_end(&mut script) {
        return refuse(writer, refusal_of(&error), FAILED);
    }
    match first_fault(script.as_slice()) {
        Some(line) => refuse(writer, Refusal::BadScript(line), FAULT),
        None => explain_lines(alloc, at, script.as_slice(), writer),
    }
}

/// Explains a script that was checked. It is played twice, since what a crash has taken shows at the restart.
fn explain_lines<W: io::Write>(
    alloc: Global,
    at: Option<u64>,
    script: &[u8],
    writer: &mut W,
) -> u8 {
    match begin(alloc) {
        Ok(mut whole) => explain_over(alloc, &mut whole, at, script, writer),
        Err(refusal) => refuse(writer, refusal, FAILED),
    }
}

fn explain_over<'a, W: io::Write>(
    alloc: Global,
    whole: &mut Story<'a>,
    at: Option<u64>,
    script: &'a [u8],
    writer: &mut W,
) -> u8 {
    if let Err(refusal) = play(whole, script) {
        return refuse(writer, refusal, FAILED);
    }
    match begin(alloc) {
        Ok(mut story) => explain_from(&mut story, whole, at, script, writer),
        Err(refusal) => refuse(writer, refusal, FAILED),
    }
}

fn explain_from<'a, W: io::Write>(
    story: &mut Story<'a>,
    whole: &Story<'a>,
    at: Option<u64>,
    script: &'a [u8],
    writer: &mut W,
) -> u8 {
    let mut number = 0u64;
    for line in script.split(|byte| *byte == b'\n') {
        number = number.saturating_add(1);
        let is_told = at.unwrap_or(number) == number;
        if let Some(status) = explain_line(story, whole, is_told, number, line, writer) {
            return status;
        }
    }
    DONE
}

/// Plays a line, and explains it where it is told. Gives the exit status where the script ends with it.
fn explain_line<'a, W: io::Write>(
    story: &mut Story<'a>,
    whole: &Story<'a>,
    is_told: bool,
    number: u64,
    line: &'a [u8],
    writer: &mut W,
) -> Option<u8> {
    let first = story.steps.len();
    let failed = match play_line(story, number, line) {
        Ok(failed) => failed,
        Err(refusal) => return Some(refuse(writer, refusal, FAILED)),
    };
    let is_told = is_told && (story.steps.len() > first || is_forgetting(line));
    if is_told && !tell_line(story, whole, number, line, first, writer) {
        return Some(FAILED);
    }
    if failed { Some(FAILED) } else { None }
}

/// Whether the line lets messages go, which is no event.
fn is_forgetting(line: &[u8]) -> bool {
    matches!(request(line), Some(Line::Forget))
}

/// Writes what the steps from this one on have done, and how the node stands behind them. Gives whether that was
/// written; where memory for its text is refused, the refusal's line is.
fn tell_line<W: io::Write>(
    story: &Story<'_>,
    whole: &Story<'_>,
    number: u64,
    line: &[u8],
    first: usize,
    writer: &mut W,
) -> bool {
    let mut lines = Vec::new(*story.changes.allocator());
    let mut text = Text::new(&mut lines);
    put_text(&mut text, story, whole, number, line, first);
    if !text.is_whole() {
        let _status = refuse(writer, Refusal::NoMemory, FAILED);
        return false;
    }
    let mut wrapped = Text::new(writer);
    put_wrapped(&mut wrapped, lines.as_slice());
    wrapped.is_whole()
}

fn put_text(
    text: &mut Text<'_, Vec<u8>>,
    story: &Story<'_>,
    whole: &Story<'_>,
    number: u64,
    line: &[u8],
    first: usize,
) {
    text.say("line ")
        .number(number)
        .say("  ")
        .bytes(line)
        .say("\n");
    if is_forgetting(line) {
        text.say("  - every message is let go: none that was sent so far can arrive any more\n");
    }
    tell_steps(text, story, whole, first);
    if changes(story, first) {
        tell_txns(text, story);
        tell_log(text, story);
        tell_leaves(text, story);
        tell_messages(text, story);
    }
}

/// Whether one of the steps isn't refused.
fn changes(story: &Story<'_>, first: usize) -> bool {
    let steps = story.steps.as_slice();
    for at in first..steps.len() {
        if !matches!(steps[at].out, Out::Refused(_)) {
            return true;
        }
    }
    false
}
