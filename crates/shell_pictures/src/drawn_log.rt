//! The log: a row of records, each in the column of the step that logged it.
use crate::labels::{put_label, put_numbered};
use crate::shapes::{put_arc, put_box, put_line};
use crate::sheet::{ARCS, At, BOX, NAME, Sheet};
use history::Record;
use shell_texts::Text;
use shell_texts::node_world::Out;
use shell_texts::shell_story::{Logged, Story, txn_of};
use std::io;

pub fn draw_log<W: io::Write>(text: &mut Text<'_, W>, story: &Story<'_>, sheet: Sheet) {
    let name = At {
        x: NAME,
        y: sheet.log.saturating_add(ARCS + BOX / 2 + 4),
    };
    put_label(text, "name", name, "log");
    for logged in story.log.as_slice() {
        if sheet.is_drawn(logged.born) {
            draw_chain(text, story.log.as_slice(), sheet, logged);
            draw_record(text, sheet, logged);
        }
    }
    for (at, step) in story.steps.as_slice().iter().enumerate() {
        if let Out::Stable { end, .. } = &step.out {
            if sheet.is_drawn(at) {
                draw_stable(text, story.log.as_slice(), sheet, at, *end);
            }
        }
    }
}

fn draw_record<W: io::Write>(text: &mut Text<'_, W>, sheet: Sheet, logged: &Logged) {
    let middle = sheet.at(logged.born, sheet.log.saturating_add(ARCS + BOX / 2));
    put_box(text, class_of(&logged.record), middle, sheet.boxed, BOX);
    let upper = At {
        x: middle.x,
        y: middle.y.saturating_sub(2),
    };
    put_numbered(text, "number", upper, "", logged.number);
    let lower = At {
        x: middle.x,
        y: middle.y.saturating_add(10),
    };
    put_label(text, "number", lower, letter_of(&logged.record));
    if logged.lost.is_some() {
        strike(text, sheet, middle);
    }
}

/// A record that is lost is struck out between its number and its kind.
fn strike<W: io::Write>(text: &mut Text<'_, W>, sheet: Sheet, middle: At) {
    let half = sheet.boxed / 2 + 4;
    let from = At {
        x: middle.x.saturating_sub(half),
        y: middle.y,
    };
    let to = At {
        x: middle.x.saturating_add(half),
        y: middle.y,
    };
    put_line(text, "cross", from, to);
}

fn class_of(record: &Record) -> &'static str {
    match record {
        Record::Comp { .. } => "comp",
        Record::Answer { .. } => "answer",
        _ => "record",
    }
}

fn letter_of(record: &Record) -> &'static str {
    match record {
        Record::Session => "S",
        Record::Begin => "B",
        Record::Op { .. } => "O",
        Record::Answer { .. } => "A",
        Record::Comp { .. } => "C",
        Record::Commit { .. } => "K",
        Record::End { .. } => "E",
        Record::Checkpoint { .. } => "P",
    }
}

/// The arrows from a record along its transaction's chain.
fn draw_chain<W: io::Write>(text: &mut Text<'_, W>, log: &[Logged], sheet: Sheet, logged: &Logged) {
    match &logged.record {
        Record::Op { prev, .. } => {
            if let Some(place) = place_of(log, sheet, logged, *prev) {
                draw_prev(text, sheet, logged.born, place);
            }
        }
        Record::Comp { next, .. } => {
            if let Some(place) = place_of(log, sheet, logged, *next) {
                draw_next(text, sheet, logged.born, place);
            }
        }
        _ => {}
    }
}

/// The step that logged the record to which another one points.
fn place_of(log: &[Logged], sheet: Sheet, from: &Logged, number: u64) -> Option<usize> {
    let mut place = None;
    for logged in log {
        let points = logged.number == number && logged.born < from.born;
        if points && sheet.is_drawn(logged.born) && txn_of(&logged.record) == txn_of(&from.record) {
            place = Some(logged.born);
        }
    }
    place
}

/// How far an arrow is bent.
fn height_of(from: u64, to: u64) -> u64 {
    let long = from.saturating_sub(to) / 5;
    long.saturating_add(16).min(2 * (ARCS - 6))
}

fn draw_prev<W: io::Write>(text: &mut Text<'_, W>, sheet: Sheet, from: usize, to: usize) {
    let y = sheet.log.saturating_add(ARCS);
    let from = sheet.at(from, y);
    let to = sheet.at(to, y);
    let by = At {
        x: middle_of(from.x, to.x),
        y: y.saturating_sub(height_of(from.x, to.x)),
    };
    put_arc(text, "prev", from, by, to);
}

fn draw_next<W: io::Write>(text: &mut Text<'_, W>, sheet: Sheet, from: usize, to: usize) {
    let y = sheet.log.saturating_add(ARCS + BOX);
    let from = sheet.at(from, y);
    let to = sheet.at(to, y);
    let by = At {
        x: middle_of(from.x, to.x),
        y: y.saturating_add(height_of(from.x, to.x)),
    };
    put_arc(text, "next", from, by, to);
}

fn middle_of(from: u64, to: u64) -> u64 {
    (from / 2).saturating_add(to / 2)
}

/// Up to where a force has made the log stable.
fn draw_stable<W: io::Write>(
    text: &mut Text<'_, W>,
    log: &[Logged],
    sheet: Sheet,
    at: usize,
    end: u64,
) {
    let mut born = sheet.first;
    for logged in log {
        if logged.number == end && logged.born <= at {
            born = logged.born;
        }
    }
    let y = sheet.log.saturating_add(ARCS + BOX + ARCS + 8);
    let x = sheet.x(born).saturating_add(sheet.column() / 2);
    put_line(
        text,
        "stable",
        At {
            x,
            y: sheet.log.saturating_add(ARCS - 4),
        },
        At { x, y },
    );
    put_line(text, "stable", At { x, y }, sheet.at(at, y));
    put_numbered(text, "number", sheet.at(at, y.saturating_add(12)), "", end);
}
