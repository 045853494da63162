//! The calls that lines spell, on many leaves.
use crate::calls;
use crate::shown::{add_leaf, put_leaf, put_outcome};
use dc_tree::{LeafSet, one_leaf};
use record_key::Refusal;
use std::alloc::Global;
use test_calls::{Digest, Fault, Subject, Text, UNREADABLE, Words};

/// None before the first section.
#[derive(Drop)]
pub struct Many<L> {
    alloc: Global,
    leaves: Option<L>,
}

impl<L: LeafSet + Drop> Many<L> {
    pub fn new(alloc: Global) -> Many<L> {
        let leaves = None;
        Many { alloc, leaves }
    }
}

fn change<L: LeafSet>(
    leaves: &mut L,
    name: &str,
    words: &mut Words,
    answer: &mut Text,
) -> Result<(), Refusal> {
    match name {
        "perform" => {
            let number = words.number()?;
            put_outcome(answer, &calls::perform(leaves, number, &words.op()?)?);
            Ok(())
        }
        "split" => {
            let key = words.key()?;
            let id = words.number()?;
            calls::split(leaves, &key, id, words.number()?)
        }
        "merge" => {
            let key = words.key()?;
            calls::merge(leaves, &key, words.number()?)
        }
        "raise" => {
            calls::raise(leaves, words.number()?);
            Ok(())
        }
        "back" => {
            let place = words.number()? as usize;
            calls::take_back(leaves, place, words.number()?)
        }
        _ => read(leaves, name, words, answer),
    }
}

fn read<L: LeafSet>(
    leaves: &L,
    name: &str,
    words: &mut Words,
    answer: &mut Text,
) -> Result<(), Refusal> {
    match name {
        "get" => answer.put_found(calls::get(leaves, &words.key()?).as_ref()),
        "scan" => {
            let low = words.key()?;
            let high = words.end()?;
            let rows = calls::scan(leaves, &low, high.as_ref())?;
            answer.put("rows");
            answer.put_rows(rows.as_slice());
        }
        "leaf" => show(leaves, words.number()?, answer),
        "place" => answer.put_number(leaves.place_of(&words.key()?) as u64),
        "count" => answer.put_number(leaves.len() as u64),
        "large" => put_place(answer, leaves.first_large(words.known_end()?)),
        "pair" => put_place(answer, leaves.first_pair(words.known_end()?)),
        _ => return Err(UNREADABLE),
    }
    Ok(())
}

fn show<L: LeafSet>(leaves: &L, place: u64, answer: &mut Text) {
    let place = place as usize;
    if place < leaves.len() {
        put_leaf(answer, leaves.leaf(place));
    } else {
        answer.put("none");
    }
}

fn put_place(answer: &mut Text, place: Option<usize>) {
    match place {
        Some(place) => answer.put_number(place as u64),
        None => answer.put("-"),
    }
}

fn add_leaves<L: LeafSet>(digest: &mut Digest, leaves: &L) {
    for place in 0..leaves.len() {
        add_leaf(digest, leaves.leaf(place));
    }
}

impl<L: LeafSet + Drop> Subject for Many<L> {
    fn renew(&mut self, _fault: Fault) -> Result<(), Refusal> {
        self.leaves = Some(one_leaf(self.alloc)?);
        Ok(())
    }

    fn call(&mut self, words: &mut Words, answer: &mut Text) -> Result<(), Refusal> {
        match &mut self.leaves {
            Some(leaves) => change(leaves, words.word(), words, answer),
            None => Err(UNREADABLE),
        }
    }

    fn digest(&self) -> u64 {
        let mut digest = Digest::new();
        if let Some(leaves) = &self.leaves {
            add_leaves(&mut digest, leaves);
        }
        digest.number()
    }

    fn may_leave(&self, _name: &str, _refusal: Refusal) -> bool {
        false
    }
}
