//! What the signs of a picture mean.
use crate::labels::put_label;
use crate::sheet::{At, Sheet};
use shell_texts::Text;
use std::io;

/// What the signs mean, a line each.
const LEGEND: [&str; 5] = [
    "Transactions: circle n: operation of record n; square: compensation; s n: savepoint; triangle: a rollback begins; \
broken: it goes on; disc: committed; ring: rolled back; cross: lost.",
    "Log: S session, B begin, O operation, A answer, C compensation, K commit, E end, P checkpoint. Above: prev; \
broken, below: undo-next. Dotted: stable up to here. Struck out: lost in a crash.",
    "Messages: numbers at their senders, requests above, replies below. Broken: delivered again. Thick, L: late. \
Ending in a cross: not delivered.",
    "Leaves, with their lower fences. Above the line: captured; struck out below: no longer captured; square: written \
to its page; low n: captured is all up to n. Arrows between leaves: split and merge.",
    "Grey bar: a crash; broken bar: a restart. Slanting names: events of a line that settles. Struck-out names: \
refused.",
];

pub fn draw_legend<W: io::Write>(text: &mut Text<'_, W>, sheet: Sheet) {
    let mut y = sheet.bottom.saturating_add(16);
    for line in LEGEND {
        put_label(text, "start", At { x: 10, y }, line);
        y = y.saturating_add(16);
    }
}
