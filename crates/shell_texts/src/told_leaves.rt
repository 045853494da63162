//! The leaves, in words: the fences of each, its low number, and what it has captured beyond that.
ghost use Rattle.std.specs.Prelude.{◌≡◌, true, length};
ghost use Rattle.shell_story.specs.shell_scripts.specs.View.{leaves_shown};

use crate::numbers::Numbers;
use crate::text::Text;
use dc_leaf::Leaf;
use record_key::Key;
use shell_story::Story;
use shell_story::node_world::World;

/// A line of each leaf as it is.
pub fn tell_leaves(text: &mut Text<'_, Vec<u8>>, story: &Story<'_>) {
    match story.shell.world.leaves() {
        Ok(count) => tell_each(text, &story.shell.world, count),
        Err(_) => {
            text.say("  leaves: their component is down.\n");
        }
    }
}

fn tell_each(text: &mut Text<'_, Vec<u8>>, world: &World, count: usize)
    requires up { world.now.dc_up ≡ true }
    requires all { count ≡ length (leaves_shown world.now) }
{
    for place in 0..count {
        tell_leaf(text, world.leaf(place));
    }
}

fn tell_leaf(text: &mut Text<'_, Vec<u8>>, leaf: &Leaf) {
    text.say("  leaf ").number(leaf.id()).say(": ");
    tell_fences(text, leaf.low_fence(), leaf.high_fence());
    text.say("records ")
        .number(leaf.rows().len() as u64)
        .say(", low ")
        .number(leaf.low())
        .say(", captured beyond it: ");
    tell_captured(text, leaf);
    text.say(".\n");
}

fn tell_fences(text: &mut Text<'_, Vec<u8>>, low: Option<&Key>, high: Option<&Key>) {
    match low {
        Some(key) => {
            text.say("keys from ").key(key).say(" on");
        }
        None => {
            text.say("keys from the first on");
        }
    }
    match high {
        Some(key) => {
            text.say(" and below ").key(key).say("; ");
        }
        None => {
            text.say(" to the last; ");
        }
    }
}

fn tell_captured(text: &mut Text<'_, Vec<u8>>, leaf: &Leaf) {
    let mut numbers = Numbers::new();
    let entries = leaf.entries();
    for at in 0..entries.len() {
        numbers.take(text, entries.entry(at).number);
    }
    numbers.end(text);
}
