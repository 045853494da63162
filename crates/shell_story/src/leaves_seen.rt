//! The leaves as they are seen behind each step, and what has changed at them.
ghost use Rattle.std.specs.Prelude.{◌≡◌, true, length};
ghost use Rattle.shell_scripts.specs.View.{leaves_shown};

use crate::leaf::{Held, Shot};
use crate::leaf_changes::{
    note_births, note_captured, note_change, note_ends, note_lost, note_lows,
};
use crate::step::{Doing, Step};
use crate::story::Story;
use dc_leaf::Leaf;
use record_key::Refusal;
use shell_scripts::node_world::{Out, World};

pub fn see_leaves(story: &mut Story<'_>, step: &Step<'_>, at: usize) -> Result<(), Refusal> {
    note_change(&mut story.changes, &step.out, at)?;
    if !may_change(step) {
        return Ok(());
    }
    let alloc = *story.changes.allocator();
    let mut shots = Vec::new(alloc);
    let mut held = Vec::new(alloc);
    if see_each(story, step, at, &mut shots, &mut held)? {
        story.shots = shots;
        story.held = held;
    }
    Ok(())
}

/// Looks at each leaf, if the data component runs, and notes what has changed.
fn see_each(
    story: &mut Story<'_>,
    step: &Step<'_>,
    at: usize,
    shots: &mut Vec<Shot>,
    held: &mut Vec<Held>,
) -> Result<bool, Refusal> {
    if !shoot(&story.shell.world, shots, held)? {
        return Ok(false);
    }
    note_births(
        &story.shell.world,
        story.shots.as_slice(),
        &mut story.births,
        at,
    )?;
    note_ends(story, shots.as_slice(), at)?;
    note_lows(story, shots.as_slice(), at)?;
    if !matches!(step.out, Out::Split(_) | Out::Merged(_)) {
        note_captured(story, held.as_slice(), at)?;
        note_lost(story, shots.as_slice(), held.as_slice(), at)?;
    }
    Ok(true)
}

/// Whether it is an event of the data component, which alone changes leaves.
fn may_change(step: &Step<'_>) -> bool {
    matches!(
        step.doing,
        Doing::Request(_) | Doing::Leaf | Doing::RestartDc
    )
}

/// The leaves as they are, if the data component runs.
fn shoot(world: &World, shots: &mut Vec<Shot>, held: &mut Vec<Held>) -> Result<bool, Refusal> {
    match world.leaves() {
        Ok(count) => shoot_each(world, count, shots, held),
        Err(_) => Ok(false),
    }
}

fn shoot_each(
    world: &World,
    count: usize,
    shots: &mut Vec<Shot>,
    held: &mut Vec<Held>,
) -> Result<bool, Refusal>
    requires up { world.now.dc_up ≡ true }
    requires all { count ≡ length (leaves_shown world.now) }
{
    for place in 0..count {
        shoot_one(world.leaf(place), shots, held)?;
    }
    Ok(true)
}

fn shoot_one(leaf: &Leaf, shots: &mut Vec<Shot>, held: &mut Vec<Held>) -> Result<(), Refusal> {
    let shot = Shot {
        leaf: leaf.id(),
        low: leaf.low(),
    };
    shots.push(shot)?;
    let entries = leaf.entries();
    for at in 0..entries.len() {
        let one = Held {
            leaf: leaf.id(),
            number: entries.entry(at).number,
        };
        held.push(one)?;
    }
    Ok(())
}
