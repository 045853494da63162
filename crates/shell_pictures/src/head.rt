//! What each step is, upright above its column.
use crate::labels::{begin_label, begin_upright, end_label, put_clipped, put_numbered};
use crate::sheet::{At, HEAD, Sheet};
use shell_texts::node_world::Out;
use shell_texts::shell_story::{Step, Story};
use shell_texts::{Text, put_round};
use std::io;

/// How many letters of a line are shown.
const LETTERS: usize = 24;

/// What each step is, upwards above its column.
pub fn draw_head<W: io::Write>(text: &mut Text<'_, W>, story: &Story<'_>, sheet: Sheet) {
    if sheet.first > 0 {
        put_cut(text, sheet);
    }
    for (at, step) in story.steps.as_slice().iter().enumerate() {
        if sheet.is_drawn(at) {
            draw_name(text, story, sheet, step, at);
        }
    }
}

/// That steps are left out.
fn put_cut<W: io::Write>(text: &mut Text<'_, W>, sheet: Sheet) {
    begin_label(text, "start", At { x: 10, y: 16 });
    text.say("The last ")
        .number(sheet.end.saturating_sub(sheet.first) as u64)
        .say(" of ")
        .number(sheet.end as u64)
        .say(" events");
    end_label(text);
}

fn draw_name<W: io::Write>(
    text: &mut Text<'_, W>,
    story: &Story<'_>,
    sheet: Sheet,
    step: &Step<'_>,
    at: usize,
) {
    let foot = At {
        x: sheet.x(at).saturating_add(4),
        y: HEAD - 22,
    };
    let class = match step.out {
        Out::Refused(_) => "refused",
        _ if step.is_round => "round",
        _ => "own",
    };
    begin_upright(text, class, foot);
    if step.is_round {
        put_round(text, story, step);
    } else {
        put_clipped(text, step.text, LETTERS);
    }
    end_label(text);
    if !step.is_round || at == 0 || !is_same_line(story, step, at - 1) {
        put_numbered(text, "number", sheet.at(at, HEAD - 6), "", step.line);
    }
}

/// Whether the step before is of the same line.
fn is_same_line(story: &Story<'_>, step: &Step<'_>, before: usize) -> bool {
    match story.steps.as_slice().get(before) {
        Some(other) => other.line == step.line,
        None => false,
    }
}
