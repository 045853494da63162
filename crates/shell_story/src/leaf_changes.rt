//! What has changed at the leaves.
ghost use Rattle.std.specs.Prelude.{◌≡◌, true, length};
ghost use Rattle.shell_scripts.specs.View.{leaves_shown};

use crate::leaf::{Birth, Change, Held, Shot, What};
use crate::story::Story;
use dc_leaf::Leaf;
use record_key::Refusal;
use shell_scripts::node_world::{Out, World};

/// What a step says itself of leaves.
pub fn note_change(changes: &mut Vec<Change>, out: &Out, step: usize) -> Result<(), Refusal> {
    let (leaf, what) = match out {
        Out::Split(pair) => (pair.left, What::Splits(pair.right)),
        Out::Merged(pair) => (pair.left, What::TakesIn(pair.right)),
        Out::Flushed(leaf) => (*leaf, What::Flushed),
        _ => return Ok(()),
    };
    add(changes, step, leaf, what)
}

fn add(changes: &mut Vec<Change>, step: usize, leaf: u64, what: What) -> Result<(), Refusal> {
    changes.push(Change { step, leaf, what })?;
    Ok(())
}

pub fn shot_of(shots: &[Shot], leaf: u64) -> Option<Shot> {
    for shot in shots {
        if shot.leaf == leaf {
            return Some(*shot);
        }
    }
    None
}

/// The leaves that weren't there before.
pub fn note_births(
    world: &World,
    before: &[Shot],
    births: &mut Vec<Birth>,
    step: usize,
) -> Result<(), Refusal> {
    match world.leaves() {
        Ok(count) => note_each_birth(world, count, before, births, step),
        Err(_) => Ok(()),
    }
}

fn note_each_birth(
    world: &World,
    count: usize,
    before: &[Shot],
    births: &mut Vec<Birth>,
    step: usize,
) -> Result<(), Refusal>
    requires up { world.now.dc_up ≡ true }
    requires all { count ≡ length (leaves_shown world.now) }
{
    for place in 0..count {
        note_birth(world.leaf(place), before, births, step)?;
    }
    Ok(())
}

fn note_birth(
    leaf: &Leaf,
    before: &[Shot],
    births: &mut Vec<Birth>,
    step: usize,
) -> Result<(), Refusal> {
    if shot_of(before, leaf.id()).is_some() {
        return Ok(());
    }
    let birth = Birth {
        leaf: leaf.id(),
        step,
        from: leaf.low_fence().map(|key| key.copied()),
    };
    births.push(birth)?;
    Ok(())
}

pub fn note_ends(story: &mut Story<'_>, shots: &[Shot], step: usize) -> Result<(), Refusal> {
    for shot in story.shots.as_slice() {
        if shot_of(shots, shot.leaf).is_none() {
            add(&mut story.changes, step, shot.leaf, What::Ends)?;
        }
    }
    Ok(())
}

pub fn note_lows(story: &mut Story<'_>, shots: &[Shot], step: usize) -> Result<(), Refusal> {
    for shot in shots {
        match shot_of(story.shots.as_slice(), shot.leaf) {
            Some(before) if before.low != shot.low => {
                add(&mut story.changes, step, shot.leaf, What::Low(shot.low))?;
            }
            _ => {}
        }
    }
    Ok(())
}

/// Numbers that are new at their leaf, and weren't captured there by its low number.
pub fn note_captured(story: &mut Story<'_>, held: &[Held], step: usize) -> Result<(), Refusal> {
    for one in held {
        let low = match shot_of(story.shots.as_slice(), one.leaf) {
            Some(before) => before.low,
            None => 0,
        };
        if one.number > low && !story.held.as_slice().contains(one) {
            add(
                &mut story.changes,
                step,
                one.leaf,
                What::Captures(one.number),
            )?;
        }
    }
    Ok(())
}

/// Numbers above the low number that aren't captured any more.
pub fn note_lost(
    story: &mut Story<'_>,
    shots: &[Shot],
    held: &[Held],
    step: usize,
) -> Result<(), Refusal> {
    for one in story.held.as_slice() {
        match shot_of(shots, one.leaf) {
            Some(shot) if one.number > shot.low && !held.contains(one) => {
                add(&mut story.changes, step, one.leaf, What::Loses(one.number))?;
            }
            _ => {}
        }
    }
    Ok(())
}
