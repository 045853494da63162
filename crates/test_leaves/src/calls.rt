//! Calls of leaves, each in a function that promises nothing, so that what calls it is checked soon.
use dc_leaf::Done;
use dc_tree::{LeafSet, merge_at, one_leaf, split_at};
use record_key::{Answer, Key, Op, Refusal, Value};
use std::alloc::Global;
use test_calls::Tally;

/// What a request came to, and its answer where that is still kept.
pub type Outcome = (Done, Option<Answer>);

pub fn perform<L: LeafSet>(leaves: &mut L, number: u64, op: &Op) -> Result<Outcome, Refusal> {
    let mut answer = None;
    let done = leaves.perform(number, &op.lent(), 0, &mut answer)?;
    Ok((done, answer))
}

pub fn get<L: LeafSet>(leaves: &L, key: &Key) -> Option<Value> {
    match leaves.get(key) {
        Some(value) => Some(value.owned()),
        None => None,
    }
}

/// Copies of the records from `low` on, below `high` where there is one.
pub fn scan<L: LeafSet>(
    leaves: &L,
    low: &Key,
    high: Option<&Key>,
) -> Result<Vec<(Key, Value)>, Refusal> {
    let mut rows = Vec::new(leaves.allocator());
    leaves.scan(low, high, &mut rows)?;
    Ok(rows)
}

pub fn split<L: LeafSet>(leaves: &mut L, key: &Key, id: u64, number: u64) -> Result<(), Refusal> {
    split_at(leaves, key, id, number)
}

pub fn merge<L: LeafSet>(leaves: &mut L, key: &Key, number: u64) -> Result<(), Refusal> {
    merge_at(leaves, key, number)
}

pub fn raise<L: LeafSet>(leaves: &mut L, low: u64) {
    leaves.raise(low);
}

/// Puts what the leaf at a place is once all above the end is taken back in its place, where there is such a leaf.
pub fn take_back<L: LeafSet>(leaves: &mut L, place: usize, end: u64) -> Result<(), Refusal> {
    if place < leaves.len() {
        let copy = leaves.leaf(place).taken_back(end)?;
        let leaf = Box::new(leaves.allocator(), copy)?;
        leaves.replace(place, leaf);
    }
    Ok(())
}

/// One leaf, made again where memory is refused.
pub fn one_leaf_again<L: LeafSet>(alloc: Global, tally: &mut Tally) -> Result<L, Refusal> {
    match one_leaf(alloc) {
        Err(Refusal::NoMemory) => {
            tally.count_memory();
            one_leaf(alloc)
        }
        leaves => leaves,
    }
}
