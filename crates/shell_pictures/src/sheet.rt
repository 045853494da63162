//! Where the parts of a picture stand, in pixels. Time runs from left to right, a column for each step.
use shell_texts::shell_story::{Actor, Birth, Story};

/// Where the first column begins.
pub const LEFT: u64 = 112;
/// What is left free beside the last column.
const RIGHT: u64 = 8;
/// The least width of a picture.
const LEAST_WIDTH: u64 = 1200;
/// A column is at most so wide.
const WIDE: u64 = 40;
/// Where a lane's name ends.
pub const NAME: u64 = 104;
/// Where the texts of the steps end.
pub const HEAD: u64 = 200;
/// How high a transaction's lane is, and a leaf's.
pub const TXN: u64 = 34;

pub const LEAF: u64 = 48;
/// From the top of the log's part to its boxes, and how high these are.
pub const ARCS: u64 = 46;

pub const BOX: u64 = 28;
/// How high the log's part is.
const LOG: u64 = 172;
/// From the line of the transaction component to that of the data component.
const WAY: u64 = 84;
/// How high the explanation at the bottom is.
const LEGEND: u64 = 96;

/// A place in a picture.
#[derive(Clone, Copy)]
pub struct At {
    pub x: u64,
    pub y: u64,
}

#[derive(Clone, Copy)]
pub struct Sheet {
    /// The first step that is drawn, and the first behind those.
    pub first: usize,
    pub end: usize,
    column: u64,
    /// How wide the box of a number is.
    pub boxed: u64,
    /// Where the log's part begins.
    pub log: u64,
    /// The lines between which messages run.
    pub tc: u64,
    pub dc: u64,
    /// Where the leaves begin, and where they end.
    pub leaves: u64,
    pub bottom: u64,
    pub width: u64,
    pub height: u64,
}

impl Sheet {
    /// The middle of a step's column, or an edge where it isn't drawn.
    pub fn x(self, step: usize) -> u64 {
        if step < self.first {
            return LEFT;
        }
        let before = step.min(self.end).saturating_sub(self.first) as u64;
        let half = if step < self.end { self.column / 2 } else { 0 };
        LEFT.saturating_add(before.saturating_mul(self.column))
            .saturating_add(half)
    }

    pub fn is_drawn(self, step: usize) -> bool {
        self.first <= step && step < self.end
    }

    pub fn at(self, step: usize, y: u64) -> At {
        At { x: self.x(step), y }
    }

    pub fn column(self) -> u64 {
        self.column
    }
}

/// The sheet for so many of the last steps.
pub fn sheet_of(story: &Story<'_>, count: usize) -> Sheet {
    let end = story.shown;
    let first = end.saturating_sub(count);
    let count = (end.saturating_sub(first)) as u64;
    let column = (LEAST_WIDTH - LEFT - RIGHT) / count.max(1);
    let boxed = box_for(story.now.records);
    let column = column.min(WIDE).max(boxed.saturating_add(1));
    let edge = LEFT.saturating_add(count.saturating_mul(column));
    let actors = lanes_of(story.actors.as_slice(), first, end);
    let log = HEAD.saturating_add(actors.saturating_mul(TXN));
    let tc = log.saturating_add(LOG);
    let dc = tc.saturating_add(WAY);
    let leaves = dc.saturating_add(44);
    let bottom = leaves.saturating_add(leaf_lanes(story.births.as_slice(), end).saturating_mul(
        LEAF,
    ));
    Sheet {
        first,
        end,
        column,
        boxed,
        log,
        tc,
        dc,
        leaves,
        bottom,
        width: edge.saturating_add(RIGHT).max(LEAST_WIDTH),
        height: bottom.saturating_add(LEGEND),
    }
}

/// How wide the box of a number up to this one is.
fn box_for(most: u64) -> u64 {
    match most {
        0..=99 => 17,
        100..=999 => 23,
        _ => 35,
    }
}

/// How many transactions have a lane.
fn lanes_of(actors: &[Actor<'_>], first: usize, end: usize) -> u64 {
    let mut lanes = 0u64;
    for actor in actors {
        if has_lane(actor, first, end) {
            lanes = lanes.saturating_add(1);
        }
    }
    lanes
}

/// Whether the transaction is there in a step that is drawn.
pub fn has_lane(actor: &Actor<'_>, first: usize, end: usize) -> bool {
    actor.born < end && actor.ended.unwrap_or(end) >= first
}

fn leaf_lanes(births: &[Birth], end: usize) -> u64 {
    let mut lanes = 0u64;
    for birth in births {
        if birth.step < end {
            lanes = lanes.saturating_add(1);
        }
    }
    lanes
}
