//! The calls of a data component that lines spell.
use crate::requests::{put_reply, request_of};
use codec::{Reply, Request};
use dc_core::{Dc, Neighbours, Tended};
use dc_leaf::Leaf;
use record_key::{Entries, Key, Refusal};
use test_calls::{Digest, Text, UNREADABLE, Words};

pub fn call_of(
    dc: &mut Dc,
    name: &str,
    words: &mut Words,
    answer: &mut Text,
) -> Result<(), Refusal> {
    match name {
        "split" => put_pair(answer, "split", split(dc, &words.key()?)?),
        "merge" => put_pair(answer, "merged", merge(dc, &words.key()?)?),
        "tend" => put_tended(answer, tend(dc)?),
        "flush" => {
            answer.put("flushed");
            answer.put_number(flush(dc, &words.key()?)?);
        }
        "ask" => {
            let request = request_of(words.word(), words)?;
            answer.put(if dc.may_ask(&request) { "yes" } else { "no" });
        }
        "count" | "session" | "entries" | "entry" | "leaf" | "rows" => {
            read(dc, name, words, answer)?;
        }
        _ => {
            if let Some(reply) = served(dc, &request_of(name, words)?)? {
                put_reply(answer, &reply);
            }
        }
    }
    Ok(())
}

fn read(dc: &Dc, name: &str, words: &mut Words, answer: &mut Text) -> Result<(), Refusal> {
    match name {
        "count" => answer.put_number(dc.leaves() as u64),
        "session" => {
            answer.put_number(dc.stored());
            answer.put_number(dc.session());
        }
        "entries" => answer.put_number(entries(dc)),
        "entry" => {
            let leaf = leaf_at(dc, words.number()? as usize)?;
            put_entry(answer, leaf.entries(), words.number()? as usize);
        }
        "leaf" => put_leaf(answer, leaf_at(dc, words.number()? as usize)?),
        _ => {
            let rows = dc.rows()?;
            answer.put("rows");
            answer.put_rows(rows.as_slice());
        }
    }
    Ok(())
}

/// What a request is given, refused Unsent where it may not be asked.
pub fn served(dc: &mut Dc, request: &Request) -> Result<Option<Reply>, Refusal> {
    if !dc.may_ask(request) {
        return Err(Refusal::Unsent);
    }
    dc.serve(request)
}

// Each of these drops what its call promises, so that what calls it is checked soon.

pub fn split(dc: &mut Dc, key: &Key) -> Result<Neighbours, Refusal> {
    dc.split(key)
}

fn merge(dc: &mut Dc, key: &Key) -> Result<Neighbours, Refusal> {
    dc.merge(key)
}

fn tend(dc: &mut Dc) -> Result<Tended, Refusal> {
    dc.tend()
}

fn flush(dc: &mut Dc, key: &Key) -> Result<u64, Refusal> {
    dc.flush(key)
}

fn leaf_at(dc: &Dc, place: usize) -> Result<&Leaf, Refusal> {
    if place < dc.leaves() {
        Ok(dc.leaf(place))
    } else {
        Err(UNREADABLE)
    }
}

pub fn put_pair(answer: &mut Text, word: &str, pair: Neighbours) {
    answer.put(word);
    answer.put_number(pair.left);
    answer.put_number(pair.right);
}

pub fn put_tended(answer: &mut Text, tended: Tended) {
    match tended {
        Tended::Split(pair) => put_pair(answer, "split", pair),
        Tended::Merged(pair) => put_pair(answer, "merged", pair),
        Tended::Nothing => answer.put("nothing"),
    }
}

/// How many entries the leaves have: as many as operations were performed, where no low number was raised.
pub fn entries(dc: &Dc) -> u64 {
    let mut count = 0_u64;
    for place in 0..dc.leaves() {
        count = count.saturating_add(dc.leaf(place).entries().len() as u64);
    }
    count
}

fn put_entry(answer: &mut Text, entries: &Entries, place: usize) {
    if place < entries.len() {
        let entry = entries.entry(place);
        answer.put_number(entry.number);
        answer.put_bytes(entry.key.as_bytes());
        answer.put_answer(&entry.answer);
    } else {
        answer.put("none");
    }
}

/// `ID low N rows K=V .. set N ..`.
pub fn put_leaf(answer: &mut Text, leaf: &Leaf) {
    answer.put_number(leaf.id());
    answer.put("low");
    answer.put_number(leaf.low());
    answer.put("rows");
    answer.put_lent_rows(&leaf.rows());
    answer.put("set");
    for place in 0..leaf.entries().len() {
        answer.put_number(leaf.entries().entry(place).number);
    }
}

/// What a refused call leaves.
pub fn add_seen(digest: &mut Digest, dc: &Dc) {
    digest.add_number(dc.stored());
    digest.add_number(dc.session());
    for place in 0..dc.leaves() {
        add_leaf(digest, dc.leaf(place));
    }
}

pub fn add_leaf(digest: &mut Digest, leaf: &Leaf) {
    digest.add_number(leaf.id());
    digest.add_number(leaf.last());
    digest.add_number(leaf.low());
    digest.add_rows(&leaf.rows());
    digest.add_entries(leaf.entries());
}
