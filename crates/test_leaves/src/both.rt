//! The list and the tree beside one another: the same calls leave the same leaves.
use crate::calls;
use crate::same::are_same_leaves;
use dc_tree::{LeafList, LeafSet, Tree};
use record_key::{Key, Op, Refusal, Value};
use test_calls::{Tally, next};

/// So many calls of both, compared after each; at some time there are more than 64 leaves, which a tree of two levels
/// doesn't have.
pub fn calls(list: &mut LeafList, tree: &mut Tree, calls: u64, tally: &mut Tally) {
    let mut seed = 9u64;
    let mut most = 0usize;
    for call in 0..calls {
        seed = next(seed);
        let agrees = step(list, tree, call, seed / 65536, tally) == Ok(true);
        tally.count(agrees && are_same_leaves(list, tree));
        most = most.max(tree.len());
    }
    tally.count(most > 64);
}

/// One call of a kind that the number chooses, in both; `call` is its number. Where leaves are to become more
/// splits come more often, else merges. Whether both answer the same.
fn step(
    list: &mut LeafList,
    tree: &mut Tree,
    call: u64,
    n: u64,
    tally: &mut Tally,
) -> Result<bool, Refusal> {
    let more = call % 1000 < 500;
    let rest = n / 16;
    match n % 16 {
        0 => raised(list, tree, call.saturating_sub(rest % 64)),
        1 => scanned(list, tree, rest, tally),
        2 => performed(
            list,
            tree,
            call.saturating_sub(rest % 64),
            &op_of(rest, more)?,
            tally,
        ),
        8 => split(list, tree, &key_of(rest)?, call, tally),
        9 => merged(list, tree, &key_of(rest)?, call, tally),
        10 => {
            let place = rest as usize % tree.len();
            taken_back(
                list,
                tree,
                place,
                call.saturating_sub(rest / 64 % 64),
                tally,
            )
        }
        3..=7 if more => split(list, tree, &key_of(rest)?, call, tally),
        3..=7 => merged(list, tree, &key_of(rest)?, call, tally),
        _ => performed(list, tree, call, &op_of(rest, more)?, tally),
    }
}

fn raised(list: &mut LeafList, tree: &mut Tree, low: u64) -> Result<bool, Refusal> {
    calls::raise(list, low);
    calls::raise(tree, low);
    Ok(true)
}

/// One of 512 keys.
fn key_of(n: u64) -> Result<Key, Refusal> {
    Key::new(&[(n % 16) as u8, (n / 16 % 32) as u8])
}

/// A put where leaves are to become more, else a delete; each now and then an Add.
fn op_of(n: u64, more: bool) -> Result<Op, Refusal> {
    let key = key_of(n)?;
    let rest = n / 512;
    if rest % 5 == 0 {
        return Ok(Op::Add(key, rest / 40));
    }
    if more || rest % 8 == 1 {
        return Ok(Op::Upsert(key, Value::new(&(rest / 8 % 100).to_be_bytes())?));
    }
    Ok(Op::Delete(key))
}

/// The request of this number, in both. One that was refused has left the tree as it was and is made again, as is each
/// below.
fn performed(
    list: &mut LeafList,
    tree: &mut Tree,
    number: u64,
    op: &Op,
    tally: &mut Tally,
) -> Result<bool, Refusal> {
    let done = match calls::perform(tree, number, op) {
        Err(Refusal::NoMemory) if are_same_leaves(list, tree) => {
            tally.count_memory();
            calls::perform(tree, number, op)?
        }
        done => done?,
    };
    let expected = match calls::perform(list, number, op) {
        Err(Refusal::NoMemory) => calls::perform(list, number, op)?,
        expected => expected?,
    };
    Ok(done == expected && calls::get(tree, op.key()) == calls::get(list, op.key()))
}

fn split(
    list: &mut LeafList,
    tree: &mut Tree,
    key: &Key,
    id: u64,
    tally: &mut Tally,
) -> Result<bool, Refusal> {
    let done = match calls::split(tree, key, id, id) {
        Err(Refusal::NoMemory) if are_same_leaves(list, tree) => {
            tally.count_memory();
            calls::split(tree, key, id, id)
        }
        done => done,
    };
    let expected = match calls::split(list, key, id, id) {
        Err(Refusal::NoMemory) => calls::split(list, key, id, id),
        expected => expected,
    };
    Ok(done == expected)
}

fn merged(
    list: &mut LeafList,
    tree: &mut Tree,
    key: &Key,
    number: u64,
    tally: &mut Tally,
) -> Result<bool, Refusal> {
    let done = match calls::merge(tree, key, number) {
        Err(Refusal::NoMemory) if are_same_leaves(list, tree) => {
            tally.count_memory();
            calls::merge(tree, key, number)
        }
        done => done,
    };
    let expected = match calls::merge(list, key, number) {
        Err(Refusal::NoMemory) => calls::merge(list, key, number),
        expected => expected,
    };
    Ok(done == expected)
}

/// What the leaf at a place did above the end.
fn taken_back(
    list: &mut LeafList,
    tree: &mut Tree,
    place: usize,
    end: u64,
    tally: &mut Tally,
) -> Result<bool, Refusal> {
    match calls::take_back(tree, place, end) {
        Err(Refusal::NoMemory) if are_same_leaves(list, tree) => {
            tally.count_memory();
            calls::take_back(tree, place, end)?;
        }
        done => done?,
    }
    match calls::take_back(list, place, end) {
        Err(Refusal::NoMemory) => calls::take_back(list, place, end)?,
        done => done?,
    }
    Ok(true)
}

/// The rows from one key on, to another or to the end.
fn scanned(list: &LeafList, tree: &Tree, n: u64, tally: &mut Tally) -> Result<bool, Refusal> {
    let low = key_of(n)?;
    let high = key_of(n / 512)?;
    let high = if n % 4 == 0 { None } else { Some(&high) };
    let found = match calls::scan(tree, &low, high) {
        Err(Refusal::NoMemory) => {
            tally.count_memory();
            calls::scan(tree, &low, high)?
        }
        found => found?,
    };
    let expected = match calls::scan(list, &low, high) {
        Err(Refusal::NoMemory) => calls::scan(list, &low, high)?,
        expected => expected?,
    };
    Ok(found == expected)
}
