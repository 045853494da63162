//! The calls of system transactions that lines spell.
use crate::component_calls::{add_leaf, put_leaf, put_pair, put_tended};
use codec::NUMBER_LIMIT;
use dc_leaf::{Done, Leaf};
use dc_store::{Neighbours, SystemTxns, Tended};
use dc_tree::LeafList;
use record_key::{Answer, Key, Op, Refusal};
use stable::{MemLog, MemPages};
use test_calls::{Digest, Text, UNREADABLE, Words};

pub type System = SystemTxns<LeafList, MemLog, MemPages>;

/// What a request came to, and its answer where that is still kept.
type Outcome = (Done, Option<Answer>);

pub fn call_of(
    system: &mut System,
    name: &str,
    words: &mut Words,
    answer: &mut Text,
) -> Result<(), Refusal> {
    match name {
        "perform" => {
            let number = number_of(words)?;
            put_outcome(answer, &perform(system, number, &words.op()?)?);
        }
        "split" => {
            let key = words.key()?;
            put_pair(answer, "split", split(system, &key, words.known_end()?)?);
        }
        "merge" => {
            let key = words.key()?;
            put_pair(answer, "merged", merge(system, &key, words.known_end()?)?);
        }
        "tend" => {
            let merges = words.is_next("merging");
            put_tended(answer, tend(system, merges, words.known_end()?)?);
        }
        "flush" => {
            let key = words.key()?;
            answer.put("flushed");
            answer.put_number(flush(system, &key, words.known_end()?)?);
        }
        "checkpoint" => {
            let low = number_of(words)?;
            checkpoint(system, low, words.known_end()?)?;
        }
        "accept" => {
            let session = number_of(words)?;
            accept(system, session, words.known_end()?)?;
        }
        "lower" => lower(system, number_of(words)?),
        _ => read(system, name, words, answer)?,
    }
    Ok(())
}

fn read(system: &System, name: &str, words: &mut Words, answer: &mut Text) -> Result<(), Refusal> {
    match name {
        "count" => answer.put_number(system.len() as u64),
        "records" => answer.put_number(system.records()),
        "stable" => answer.put_number(system.stable_end()),
        "place" => answer.put_number(system.place_of(&words.key()?) as u64),
        "get" => answer.put_lent(system.get(&words.key()?)),
        "leaf" => put_leaf(answer, leaf_at(system, words.number()? as usize)?),
        "scan" => {
            let low = words.key()?;
            let mut rows = Vec::new(system.allocator());
            system.scan(&low, words.end()?.as_ref(), &mut rows)?;
            answer.put("rows");
            answer.put_rows(rows.as_slice());
        }
        _ => return Err(UNREADABLE),
    }
    Ok(())
}

fn number_of(words: &mut Words) -> Result<u64, Refusal> {
    Ok(words.number()? % NUMBER_LIMIT)
}

// Each of these drops what its call promises, so that what calls it is checked soon.

fn perform(system: &mut System, number: u64, op: &Op) -> Result<Outcome, Refusal> {
    let mut answer = None;
    let done = system.perform(number % NUMBER_LIMIT, &op.lent(), 0, &mut answer)?;
    Ok((done, answer))
}

fn split(system: &mut System, key: &Key, known: u64) -> Result<Neighbours, Refusal> {
    system.split(key, known)
}

fn merge(system: &mut System, key: &Key, known: u64) -> Result<Neighbours, Refusal> {
    system.merge(key, known)
}

fn tend(system: &mut System, merges: bool, known: u64) -> Result<Tended, Refusal> {
    system.tend(merges, known)
}

fn flush(system: &mut System, key: &Key, known: u64) -> Result<u64, Refusal> {
    system.flush(key, known)
}

fn checkpoint(system: &mut System, low: u64, known: u64) -> Result<(), Refusal> {
    system.checkpoint(low % NUMBER_LIMIT, known)
}

fn accept(system: &mut System, session: u64, end: u64) -> Result<(), Refusal> {
    system.accept(session % NUMBER_LIMIT, end)
}

fn lower(system: &mut System, low: u64) {
    system.lower(low % NUMBER_LIMIT);
}

fn leaf_at(system: &System, place: usize) -> Result<&Leaf, Refusal> {
    if place < system.len() {
        Ok(system.leaf(place))
    } else {
        Err(UNREADABLE)
    }
}

fn put_outcome(text: &mut Text, outcome: &Outcome) {
    let (done, answer) = outcome;
    if *done == Done::Repeated {
        text.put("again");
    }
    match answer {
        Some(answer) => text.put_answer(answer),
        None => text.put("-"),
    }
}

/// What a refused call leaves.
pub fn add_seen(digest: &mut Digest, system: &System) {
    digest.add_number(system.records());
    digest.add_number(system.stable_end());
    for place in 0..system.len() {
        add_leaf(digest, system.leaf(place));
    }
}
