//! Leaves beside a plain slow program, over calls in a fixed mixed order.
use crate::calls::{self, Outcome};
use crate::ops::{key_of, op_of};
use crate::plain_leaves::PlainLeaves;
use crate::same::are_plain;
use dc_tree::LeafSet;
use record_key::{Key, Op, Refusal, Value};
use test_calls::{Tally, next};

/// So many calls of both, compared after each; at some time there are more than four leaves.
pub fn calls<L: LeafSet>(leaves: &mut L, plain: &mut PlainLeaves, calls: u64, tally: &mut Tally) {
    let mut seed = 5u64;
    let mut last = 0u64;
    let mut most = 0usize;
    for _ in 0..calls {
        seed = next(seed);
        let agrees = step(leaves, plain, &mut last, seed / 65536, tally) == Ok(true);
        tally.count(agrees && are_plain(leaves, plain));
        most = most.max(leaves.len());
    }
    tally.count(most > 4);
}

/// One call of a kind that the number chooses, in both; `last` is the number of the newest request. Whether both answer
/// the same.
fn step<L: LeafSet>(
    leaves: &mut L,
    plain: &mut PlainLeaves,
    last: &mut u64,
    n: u64,
    tally: &mut Tally,
) -> Result<bool, Refusal> {
    let rest = n / 16;
    match n % 16 {
        0 => performed(leaves, plain, (rest % 64).min(*last), tally),
        1 | 2 | 3 => split(leaves, plain, &key_of(rest)?, n, tally),
        4 | 5 | 6 => merged(leaves, plain, &key_of(rest)?, n, tally),
        7 => {
            let low = last.saturating_sub(rest % 32);
            calls::raise(leaves, low);
            plain.raise(low);
            Ok(true)
        }
        8 => scanned(leaves, plain, rest, tally),
        _ => {
            *last = last.wrapping_add(1);
            if *last % 10 != 6 {
                return performed(leaves, plain, *last, tally);
            }
            *last = last.wrapping_add(3);
            added(leaves, plain, *last, tally)
        }
    }
}

/// Four Adds on one key out of their order, with a split of its leaf amid them.
fn added<L: LeafSet>(
    leaves: &mut L,
    plain: &mut PlainLeaves,
    last: u64,
    tally: &mut Tally,
) -> Result<bool, Refusal> {
    let key = key_of(next(last / 10))?;
    let first = performed(leaves, plain, last, tally)?;
    let second = performed(leaves, plain, last.wrapping_sub(2), tally)?;
    let parted = split(leaves, plain, &key, last, tally)?;
    let third = performed(leaves, plain, last.wrapping_sub(3), tally)?;
    let fourth = performed(leaves, plain, last.wrapping_sub(1), tally)?;
    Ok(first && second && parted && third && fourth)
}

/// The request of this number, in both.
fn performed<L: LeafSet>(
    leaves: &mut L,
    plain: &mut PlainLeaves,
    number: u64,
    tally: &mut Tally,
) -> Result<bool, Refusal> {
    let op = op_of(number)?;
    let done = performed_again(leaves, plain, number, &op, tally)?;
    let expected = match plain.perform(number, &op) {
        Ok(expected) => expected,
        Err(_) => plain.perform(number, &op)?,
    };
    Ok(done == expected && calls::get(leaves, op.key()).as_ref() == plain.get(op.key()))
}

/// A refused call is made again, as is each below, and has left the leaves as they were.
fn performed_again<L: LeafSet>(
    leaves: &mut L,
    plain: &PlainLeaves,
    number: u64,
    op: &Op,
    tally: &mut Tally,
) -> Result<Outcome, Refusal> {
    match calls::perform(leaves, number, op) {
        Err(Refusal::NoMemory) if are_plain(leaves, plain) => {
            tally.count_memory();
            calls::perform(leaves, number, op)
        }
        done => done,
    }
}

fn split<L: LeafSet>(
    leaves: &mut L,
    plain: &mut PlainLeaves,
    key: &Key,
    id: u64,
    tally: &mut Tally,
) -> Result<bool, Refusal> {
    let done = match calls::split(leaves, key, id, id) {
        Err(Refusal::NoMemory) if are_plain(leaves, plain) => {
            tally.count_memory();
            calls::split(leaves, key, id, id)
        }
        done => done,
    };
    let may = match plain.split(key) {
        Ok(may) => may,
        Err(_) => plain.split(key)?,
    };
    Ok(done == if may { Ok(()) } else { Err(Refusal::NotNow) })
}

fn merged<L: LeafSet>(
    leaves: &mut L,
    plain: &mut PlainLeaves,
    key: &Key,
    number: u64,
    tally: &mut Tally,
) -> Result<bool, Refusal> {
    let done = match calls::merge(leaves, key, number) {
        Err(Refusal::NoMemory) if are_plain(leaves, plain) => {
            tally.count_memory();
            calls::merge(leaves, key, number)
        }
        done => done,
    };
    let may = plain.merge(key);
    Ok(done == if may { Ok(()) } else { Err(Refusal::NotNow) })
}

/// The rows from one key on, to another or to the end.
fn scanned<L: LeafSet>(
    leaves: &L,
    plain: &PlainLeaves,
    n: u64,
    tally: &mut Tally,
) -> Result<bool, Refusal> {
    let low = key_of(n)?;
    let high = key_of(n / 48)?;
    let high = if n / 2304 % 4 == 0 { None } else { Some(&high) };
    let found = match calls::scan(leaves, &low, high) {
        Err(Refusal::NoMemory) => {
            tally.count_memory();
            calls::scan(leaves, &low, high)?
        }
        found => found?,
    };
    Ok(are_rows_between(found.as_slice(), plain.rows(), &low, high))
}

/// Whether these are the plain program's rows that lie there.
fn are_rows_between(
    found: &[(Key, Value)],
    rows: &[(Key, Value)],
    low: &Key,
    high: Option<&Key>,
) -> bool {
    let mut left = found;
    for row in rows {
        if row.0 >= *low && is_below(&row.0, high) {
            match left.split_first() {
                Some((first, rest)) if first == row => left = rest,
                _ => return false,
            }
        }
    }
    left.is_empty()
}

fn is_below(key: &Key, high: Option<&Key>) -> bool {
    match high {
        Some(high) => key < high,
        None => true,
    }
}
