//! The picture of a script.
use crate::bars::draw_bars;
use crate::drawn_leaves::draw_leaves;
use crate::drawn_log::draw_log;
use crate::drawn_messages::draw_messages;
use crate::drawn_txns::draw_txns;
use crate::head::draw_head;
use crate::legend::draw_legend;
use crate::opening::put_opening;
use crate::sheet::sheet_of;
use record_key::Refusal;
use shell_texts::Text;
use shell_texts::shell_scripts::{DONE, FAILED, FAULT, first_fault, refusal_of, refuse};
use shell_texts::shell_story::{Story, begin, play};
use std::alloc::Global;
use std::io;

/// How many steps are drawn where no number is given.
const MOST: u64 = 300;

/// Reads the script and draws its steps, the last of them where there are many. Gives the exit status.
pub fn draw<R: io::Read, W: io::Write>(
    alloc: Global,
    last: Option<u64>,
    reader: &mut R,
    writer: &mut W,
) -> u8 {
    let mut script = Vec::new(alloc);
    if let Err(error) = reader.read_to_end(&mut script) {
        return refuse(writer, refusal_of(&error), FAILED);
    }
    match first_fault(script.as_slice()) {
        Some(line) => refuse(writer, Refusal::BadScript(line), FAULT),
        None => draw_script(alloc, last, script.as_slice(), writer),
    }
}

/// Draws a script that was checked. Where memory or a device fails in it, the picture ends with that line.
fn draw_script<W: io::Write>(
    alloc: Global,
    last: Option<u64>,
    script: &[u8],
    writer: &mut W,
) -> u8 {
    match begin(alloc) {
        Ok(mut story) => draw_played(&mut story, last, script, writer),
        Err(refusal) => refuse(writer, refusal, FAILED),
    }
}

fn draw_played<'a, W: io::Write>(
    story: &mut Story<'a>,
    last: Option<u64>,
    script: &'a [u8],
    writer: &mut W,
) -> u8 {
    let failed = match play(story, script) {
        Ok(failed) => failed,
        Err(refusal) => return refuse(writer, refusal, FAILED),
    };
    let mut text = Text::new(writer);
    draw_story(&mut text, story, last.unwrap_or(MOST) as usize);
    if text.is_whole() && !failed {
        DONE
    } else {
        FAILED
    }
}

fn draw_story<W: io::Write>(text: &mut Text<'_, W>, story: &Story<'_>, count: usize) {
    let sheet = sheet_of(story, count);
    put_opening(text, sheet);
    draw_bars(text, story, sheet);
    draw_head(text, story, sheet);
    draw_txns(text, story, sheet);
    draw_log(text, story, sheet);
    draw_messages(text, story, sheet);
    draw_leaves(text, story, sheet);
    draw_legend(text, sheet);
    text.say("</svg>\n");
}
