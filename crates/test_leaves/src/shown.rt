//! What is seen of a leaf, and what a request came to, as text.
use crate::calls::Outcome;
use dc_leaf::{Done, Leaf};
use record_key::Key;
use test_calls::{Digest, Text};

/// `ID LOW HIGH last N low N rows K=V .. set N ..`, a bar for a fence that isn't there.
pub fn put_leaf(text: &mut Text, leaf: &Leaf) {
    text.put_number(leaf.id());
    put_fence(text, leaf.low_fence());
    put_fence(text, leaf.high_fence());
    text.put("last");
    text.put_number(leaf.last());
    text.put("low");
    text.put_number(leaf.low());
    text.put("rows");
    text.put_lent_rows(&leaf.rows());
    text.put("set");
    put_set(text, leaf);
}

fn put_fence(text: &mut Text, fence: Option<&Key>) {
    match fence {
        Some(key) => text.put_bytes(key.as_bytes()),
        None => text.put("-"),
    }
}

fn put_set(text: &mut Text, leaf: &Leaf) {
    for place in 0..leaf.entries().len() {
        text.put_number(leaf.entries().entry(place).number);
    }
}

/// The answer; behind `again` the saved one of a repeated number, a bar where none is kept.
pub fn put_outcome(text: &mut Text, outcome: &Outcome) {
    let (done, answer) = outcome;
    if *done == Done::Repeated {
        text.put("again");
    }
    match answer {
        Some(answer) => text.put_answer(answer),
        None => text.put("-"),
    }
}

pub fn add_leaf(digest: &mut Digest, leaf: &Leaf) {
    digest.add_number(leaf.id());
    digest.add_number(leaf.last());
    digest.add_number(leaf.low());
    digest.add_rows(&leaf.rows());
    digest.add_entries(leaf.entries());
}
