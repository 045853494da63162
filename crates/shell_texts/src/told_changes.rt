//! What a step has changed at leaves, in words.
use crate::text::Text;
use shell_story::{Change, What};

/// A line of each change that this step has made.
pub fn tell_changes(text: &mut Text<'_, Vec<u8>>, changes: &[Change], at: usize) {
    for change in changes {
        if change.step == at {
            tell_change(text, change);
        }
    }
}

fn tell_change(text: &mut Text<'_, Vec<u8>>, change: &Change) {
    match change.what {
        What::Ends => put(text, change.leaf, " is gone", None),
        What::Captures(number) => put(text, change.leaf, " captures ", Some(number)),
        What::Loses(number) => put(text, change.leaf, " no longer has captured ", Some(number)),
        What::Low(low) => put(text, change.leaf, " has low ", Some(low)),
        What::Flushed => put(text, change.leaf, " is written to its page", None),
        What::Splits(leaf) => put(
            text,
            change.leaf,
            " is split: its upper half is leaf ",
            Some(leaf),
        ),
        What::TakesIn(leaf) => put(text, change.leaf, " takes in leaf ", Some(leaf)),
    }
}

fn put(text: &mut Text<'_, Vec<u8>>, leaf: u64, words: &str, number: Option<u64>) {
    text.say("    leaf ").number(leaf).say(words);
    if let Some(number) = number {
        text.number(number);
    }
    text.say(".\n");
}
