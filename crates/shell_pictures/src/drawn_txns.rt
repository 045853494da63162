//! The lanes of the transactions.
use crate::labels::{begin_label, end_label, put_clipped};
use crate::lane_steps::draw_step;
use crate::shapes::{put_circle, put_cross, put_line};
use crate::sheet::{At, HEAD, NAME, Sheet, TXN, has_lane};
use shell_texts::Text;
use shell_texts::node_world::Out;
use shell_texts::shell_story::{Actor, State, Story};
use std::io;

pub fn draw_txns<W: io::Write>(text: &mut Text<'_, W>, story: &Story<'_>, sheet: Sheet) {
    let mut y = HEAD + TXN / 2;
    for actor in story.actors.as_slice() {
        if has_lane(actor, sheet.first, sheet.end) {
            draw_lane(text, story, sheet, actor, y);
            y = y.saturating_add(TXN);
        }
    }
}

fn draw_lane<W: io::Write>(
    text: &mut Text<'_, W>,
    story: &Story<'_>,
    sheet: Sheet,
    actor: &Actor<'_>,
    y: u64,
) {
    put_name(text, actor, y);
    let end = actor.ended.unwrap_or(sheet.end);
    put_line(text, "lane", sheet.at(actor.born, y), sheet.at(end, y));
    draw_rollback(text, story, sheet, actor, y);
    for (at, step) in story.steps.as_slice().iter().enumerate() {
        if sheet.is_drawn(at) && at >= actor.born && at <= end {
            draw_step(
                text,
                story.log.as_slice(),
                actor,
                step,
                sheet,
                sheet.at(at, y),
            );
        }
    }
    draw_end(text, sheet, actor, y);
}

fn put_name<W: io::Write>(text: &mut Text<'_, W>, actor: &Actor<'_>, y: u64) {
    begin_label(
        text,
        "name",
        At {
            x: NAME,
            y: y.saturating_add(4),
        },
    );
    put_clipped(text, actor.label, 8);
    text.say(" (").number(actor.txn).say(")");
    end_label(text);
}

/// The lane is broken while the transaction is being rolled back.
fn draw_rollback<W: io::Write>(
    text: &mut Text<'_, W>,
    story: &Story<'_>,
    sheet: Sheet,
    actor: &Actor<'_>,
    y: u64,
) {
    let mut from = None;
    let steps = story.steps.as_slice();
    for at in 0..sheet.end.min(steps.len()) {
        let step = &steps[at];
        match (&step.out, from) {
            (Out::RollingBack, _) if step.txn == actor.txn && at >= actor.born => from = Some(at),
            (Out::RolledBack(txn) | Out::Lost(txn) | Out::Back { txn, .. }, Some(begun))
                if *txn == actor.txn => {
                put_line(text, "rolling", sheet.at(begun, y), sheet.at(at, y));
                from = None;
            }
            _ => {}
        }
    }
    if let Some(begun) = from {
        let end = actor.ended.unwrap_or(sheet.end);
        put_line(text, "rolling", sheet.at(begun, y), sheet.at(end, y));
    }
}

/// How the transaction ended.
fn draw_end<W: io::Write>(text: &mut Text<'_, W>, sheet: Sheet, actor: &Actor<'_>, y: u64) {
    let Some(ended) = actor.ended else {
        return;
    };
    if !sheet.is_drawn(ended) {
        return;
    }
    let at = sheet.at(ended, y);
    match actor.state {
        State::Committed => put_circle(text, "ink", at, 6),
        State::RolledBack => put_circle(text, "op", at, 6),
        _ => put_cross(text, "cross", at, 6),
    }
}
