//! A line of a script alone, its last events alone, a script that can't be read, and a picture that can't be written.
use crate::failing::{BrokenReader, broken_after};
use crate::tally::Tally;
use shell_pictures::draw;
use shell_scripts::{DONE, FAILED, FAULT};
use shell_texts::explain;
use std::alloc::Global;
use std::io;

const SCRIPT: &str = "settle\nbegin t\n\ninsert t k v\ncrash tc 0 1\nrestart tc\nsettle\n";

/// How many lines the script has.
const LINES: u64 = 7;

pub fn compare_parts(alloc: Global) -> io::Result<Tally> {
    let mut tally = Tally::new();
    tally.count(is_whole_by_lines(alloc)?);
    tally.count(is_cut(alloc)?);
    tally.count(is_whole_by_all(alloc));
    tally.count(is_bad(alloc));
    tally.count(is_unread(alloc));
    tally.count(is_unwritten(alloc));
    Ok(tally)
}

/// The lines' own texts one after another are the script's.
fn is_whole_by_lines(alloc: Global) -> io::Result<bool> {
    let mut parts = Vec::new(alloc);
    for line in 1..=LINES {
        let _status = explain(alloc, Some(line), &mut SCRIPT.as_bytes(), &mut parts);
    }
    let mut whole = Vec::new(alloc);
    let status = explain(alloc, None, &mut SCRIPT.as_bytes(), &mut whole);
    Ok(status == DONE && !whole.is_empty() && parts.as_slice() == whole.as_slice())
}

/// The last two events are drawn, and the picture says so.
fn is_cut(alloc: Global) -> io::Result<bool> {
    let mut picture = Vec::new(alloc);
    let status = draw(alloc, Some(2), &mut SCRIPT.as_bytes(), &mut picture);
    let Ok(text) = str::from_utf8(picture.as_slice()) else {
        return Ok(false);
    };
    let is_told = text.contains("The last 2 of ");
    Ok(status == DONE && is_told && !text.contains("insert t k v"))
}

/// To draw more than there are is to draw all.
fn is_whole_by_all(alloc: Global) -> bool {
    let mut whole = Vec::new(alloc);
    let _status = draw(alloc, None, &mut SCRIPT.as_bytes(), &mut whole);
    let mut more = Vec::new(alloc);
    let status = draw(alloc, Some(1000), &mut SCRIPT.as_bytes(), &mut more);
    status == DONE && whole.as_slice() == more.as_slice()
}

/// A script outside the grammar is refused, and nothing else is written.
fn is_bad(alloc: Global) -> bool {
    let bad = "begin t\nwalk\n";
    let mut text = Vec::new(alloc);
    let first = explain(alloc, None, &mut bad.as_bytes(), &mut text);
    let second = draw(alloc, None, &mut bad.as_bytes(), &mut text);
    let wanted = b"no 17 BadScript 2\nno 17 BadScript 2\n";
    first == FAULT && second == FAULT && text.as_slice() == wanted.as_slice()
}

fn is_unread(alloc: Global) -> bool {
    let mut text = Vec::new(alloc);
    let first = explain(alloc, None, &mut BrokenReader { left: 1 }, &mut text);
    let second = draw(alloc, None, &mut BrokenReader { left: 1 }, &mut text);
    let wanted = b"no 10 Device\nno 10 Device\n";
    first == FAILED && second == FAILED && text.as_slice() == wanted.as_slice()
}

/// A write that fails ends it.
fn is_unwritten(alloc: Global) -> bool {
    let mut writer = broken_after(7);
    let first = explain(alloc, None, &mut SCRIPT.as_bytes(), &mut writer);
    let is_line = writer.calls_after == 1 && writer.taken == *b"line 1 \0";
    let mut writer = broken_after(5);
    let second = draw(alloc, None, &mut SCRIPT.as_bytes(), &mut writer);
    let is_svg = writer.calls_after == 1 && writer.taken == *b"<svg \0\0\0";
    first == FAILED && second == FAILED && is_line && is_svg
}
