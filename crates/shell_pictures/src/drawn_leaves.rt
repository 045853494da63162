//! The lanes of the leaves.
use crate::labels::{begin_label, end_label, put_clipped, put_numbered};
use crate::shapes::{put_box, put_circle, put_cross, put_line};
use crate::sheet::{At, LEAF, NAME, Sheet};
use shell_texts::Text;
use shell_texts::shell_story::{Birth, Change, Story, What};
use std::io;

pub fn draw_leaves<W: io::Write>(text: &mut Text<'_, W>, story: &Story<'_>, sheet: Sheet) {
    let mut y = sheet.leaves.saturating_add(LEAF / 2);
    for birth in story.births.as_slice() {
        if birth.step < sheet.end {
            draw_leaf(text, story, sheet, birth, y);
            y = y.saturating_add(LEAF);
        }
    }
}

fn draw_leaf<W: io::Write>(
    text: &mut Text<'_, W>,
    story: &Story<'_>,
    sheet: Sheet,
    birth: &Birth,
    y: u64,
) {
    put_name(text, birth, y);
    let changes = story.changes.as_slice();
    let end = end_of(changes, birth, sheet.end);
    put_line(text, "lane", sheet.at(birth.step, y), sheet.at(end, y));
    let mut lost = None;
    for change in changes {
        let is_here = change.leaf == birth.leaf && change.step >= birth.step && change.step <= end;
        if is_here && sheet.is_drawn(change.step) {
            lost = draw_change(text, story, sheet, change, y, lost);
        }
    }
    put_lost(text, sheet, lost, y);
}

/// Numbers that a leaf loses in one step.
#[derive(Clone, Copy)]
struct Lost {
    step: usize,
    least: u64,
    most: u64,
    count: u64,
}

impl Lost {
    /// The first number that is lost in a step.
    fn one(step: usize, number: u64) -> Lost {
        Lost {
            step,
            least: number,
            most: number,
            count: 1,
        }
    }

    /// Another one of the same step.
    fn and(self, number: u64) -> Lost {
        Lost {
            step: self.step,
            least: self.least.min(number),
            most: self.most.max(number),
            count: self.count.saturating_add(1),
        }
    }
}

/// The step in which the leaf ends, or the last that is drawn.
fn end_of(changes: &[Change], birth: &Birth, end: usize) -> usize {
    for change in changes {
        if change.leaf == birth.leaf
            && matches!(change.what, What::Ends)
            && change.step > birth.step
        {
            return change.step.min(end);
        }
    }
    end
}

fn put_name<W: io::Write>(text: &mut Text<'_, W>, birth: &Birth, y: u64) {
    begin_label(
        text,
        "name",
        At {
            x: NAME,
            y: y.saturating_add(4),
        },
    );
    text.say("leaf ").number(birth.leaf);
    if let Some(key) = &birth.from {
        text.say(", ");
        put_clipped(text, key.as_bytes(), 4);
    }
    end_label(text);
}

/// Draws a change. Gives what the leaf has lost and nothing shows yet: that is shown once all of its step is known.
fn draw_change<W: io::Write>(
    text: &mut Text<'_, W>,
    story: &Story<'_>,
    sheet: Sheet,
    change: &Change,
    y: u64,
    lost: Option<Lost>,
) -> Option<Lost> {
    let at = sheet.at(change.step, y);
    match change.what {
        What::Captures(number) => put_captured(text, at, number),
        What::Loses(number) => return lose(text, sheet, change.step, number, y, lost),
        What::Low(low) => put_low(text, at, low),
        What::Flushed => put_box(text, "ink", at, 9, 9),
        What::Splits(leaf) => put_arrow(text, story, sheet, change, leaf, true),
        What::TakesIn(leaf) => put_arrow(text, story, sheet, change, leaf, false),
        What::Ends => {}
    }
    lost
}

/// Adds a number to those that are lost in its step, or shows those of an earlier one and begins anew.
fn lose<W: io::Write>(
    text: &mut Text<'_, W>,
    sheet: Sheet,
    step: usize,
    number: u64,
    y: u64,
    lost: Option<Lost>,
) -> Option<Lost> {
    match lost {
        Some(lost) if lost.step == step => Some(lost.and(number)),
        _ => {
            put_lost(text, sheet, lost, y);
            Some(Lost::one(step, number))
        }
    }
}

fn put_captured<W: io::Write>(text: &mut Text<'_, W>, at: At, number: u64) {
    put_circle(text, "ink", at, 3);
    let above = At {
        x: at.x,
        y: at.y.saturating_sub(8),
    };
    put_numbered(text, "number", above, "", number);
}

/// Shows what a leaf has lost in a step: the number, or the least and the greatest and in brackets how many they are.
/// Numbers that stood beside one another would stand under other events.
fn put_lost<W: io::Write>(text: &mut Text<'_, W>, sheet: Sheet, lost: Option<Lost>, y: u64) {
    let Some(lost) = lost else {
        return;
    };
    let at = sheet.at(lost.step, y);
    put_cross(text, "cross", at, 4);
    let below = At {
        x: at.x,
        y: y.saturating_add(17),
    };
    begin_label(text, "struck", below);
    text.number(lost.least);
    if lost.count > 1 {
        text.say("..").number(lost.most);
    }
    end_label(text);
    if lost.count > 1 {
        put_count(text, at, lost.count);
    }
}

fn put_count<W: io::Write>(text: &mut Text<'_, W>, at: At, count: u64) {
    let below = At {
        x: at.x,
        y: at.y.saturating_add(28),
    };
    begin_label(text, "number", below);
    text.say("(").number(count).say(")");
    end_label(text);
}

fn put_low<W: io::Write>(text: &mut Text<'_, W>, at: At, low: u64) {
    let below = At {
        x: at.x.saturating_sub(3),
        y: at.y.saturating_add(17),
    };
    put_numbered(text, "low", below, "low ", low);
}

/// From a leaf to the one that is split off from it, or back from one that it takes in.
fn put_arrow<W: io::Write>(
    text: &mut Text<'_, W>,
    story: &Story<'_>,
    sheet: Sheet,
    change: &Change,
    other: u64,
    splits: bool,
) {
    let births = story.births.as_slice();
    let own = sheet.at(
        change.step,
        lane_of(births, sheet, change.leaf, change.step),
    );
    let other = sheet.at(change.step, lane_of(births, sheet, other, change.step));
    if splits {
        put_line(text, "message", own, other);
    } else {
        put_line(text, "message", other, own);
    }
}

/// Where the lane of a leaf is.
fn lane_of(births: &[Birth], sheet: Sheet, leaf: u64, step: usize) -> u64 {
    let mut y = sheet.leaves.saturating_add(LEAF / 2);
    let mut lane = y;
    for birth in births {
        if birth.step < sheet.end {
            if birth.leaf == leaf && birth.step <= step {
                lane = y;
            }
            y = y.saturating_add(LEAF);
        }
    }
    lane
}
