//! The table with an index beside the plain one, over calls in a fixed mixed order.
use crate::locks::Locks;
use record_key::{Key, Refusal};
use tc_locks::{Mode, Span};
use test_calls::{Tally, next};

/// So many calls of both, compared after each.
pub fn mixed_calls<I: Locks, P: Locks>(indexed: &mut I, plain: &mut P, calls: u64) -> Tally {
    let mut tally = Tally::NONE;
    let mut seed = 17;
    for _ in 0..calls {
        seed = next(seed);
        let agrees = agrees_at(indexed, plain, seed / 4294967296, &mut tally);
        tally.count(agrees == Ok(true));
    }
    tally
}

/// Whether a call that the number chooses comes to the same in both.
fn agrees_at<I: Locks, P: Locks>(
    indexed: &mut I,
    plain: &mut P,
    n: u64,
    tally: &mut Tally,
) -> Result<bool, Refusal> {
    let same = if n / 1048576 % 3 == 0 {
        gives_back_the_same(indexed, plain, n)
    } else {
        let span = span_of(n)?;
        let (txn, mode) = (n / 32768 % 6, mode_of(n / 262144));
        taken(indexed, txn, mode, &span, tally) == taken(plain, txn, mode, &span, tally)
    };
    let txn = n % 6;
    Ok(same && indexed.holds(txn) == plain.holds(txn))
}

/// Takes the span, again where memory is refused.
fn taken<L: Locks>(
    locks: &mut L,
    txn: u64,
    mode: Mode,
    span: &Span,
    tally: &mut Tally,
) -> Result<(), Refusal> {
    let held = locks.holds(txn);
    match locks.take(txn, mode, span) {
        Err(Refusal::NoMemory) if locks.holds(txn) == held => {
            tally.count_memory();
            locks.take(txn, mode, span)
        }
        told => told,
    }
}

/// Gives the last span back, or now and then all.
fn gives_back_the_same<I: Locks, P: Locks>(indexed: &mut I, plain: &mut P, n: u64) -> bool {
    let txn = n % 6;
    if n / 8 % 4 == 0 {
        indexed.release(txn);
        plain.release(txn);
        true
    } else {
        indexed.untake(txn) == plain.untake(txn)
    }
}

fn mode_of(n: u64) -> Mode {
    match n % 4 {
        0 => Mode::Shared,
        1 => Mode::Increment,
        _ => Mode::Exclusive,
    }
}

/// One of 64 keys.
fn key_of(n: u64) -> Result<Key, Refusal> {
    let low = (n % 8) as u8;
    let high = (n / 8 % 8) as u8;
    if low == 0 {
        Key::new(&[high])
    } else {
        Key::new(&[high, low])
    }
}

/// A key most often, else a range, which may be empty or reversed.
fn span_of(n: u64) -> Result<Span, Refusal> {
    let low = key_of(n)?;
    Ok(match n / 64 % 8 {
        0 => Span::Range { low, high: None },
        1 | 2 => Span::Range {
            low,
            high: Some(key_of(n / 512)?),
        },
        _ => Span::Key(low),
    })
}
