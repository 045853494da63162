//! Between which entries of the index a conflict can be.
ghost use Rattle.std.specs.Prelude.{◌≡◌, true, IfSome};
ghost use Rattle.record_key.specs.Order.{is_below};
ghost use Rattle.tc_locks.specs.Places.{first_at, ranges_at, ranges_end, keys_to, HasRangesBelow};

use crate::entry::Entry;
use crate::span::{Lock, Mode, Span};
use record_key::Key;
use std::ops::Bound;

/// The first entry that the key can have.
pub fn first_at(key: &Key) -> Entry
    ensures { result ≡ first_at key.now }
{
    Entry {
        lock: Lock {
            span: Span::Key(key.copied()),
            mode: Mode::Shared,
        },
        txn: 0,
    }
}

/// The ranges that can meet the span stand below this bound, and few others.
pub fn ranges_to(span: &Span) -> Bound<Entry>
    ensures { HasRangesBelow span.now result }
{
    match span {
        Span::Range { high, .. } => match high {
            Some(high) => before_ranges_at(high),
            None => past_ranges(),
        },
        Span::Key(key) => match next_after(key) {
            Some(next) => before_ranges_at(&next),
            None => past_ranges(),
        },
    }
}

/// All ranges stand below this bound, and hardly a key.
fn past_ranges() -> Bound<Entry>
    ensures { result ≡ ranges_end }
{
    match Key::new(&[0]) {
        Ok(least) => Bound::Excluded(first_at(&least)),
        Err(_) => unreachable!(),
    }
}

/// Ranges that begin at the key stand from this bound on.
fn before_ranges_at(key: &Key) -> Bound<Entry>
    ensures { result ≡ ranges_at key.now }
{
    Bound::Excluded(Entry {
        lock: Lock {
            span: Span::Range {
                low: key.copied(),
                high: None,
            },
            mode: Mode::Shared,
        },
        txn: 0,
    })
}

/// The next key, where one byte more fits.
fn next_after(key: &Key) -> Option<Key>
    ensures { IfSome result (λ next. is_below key.now next ≡ true) }
{
    let bytes = key.as_bytes();
    let len = bytes.len();
    if len >= Key::MAX_LEN {
        return None;
    }
    let mut longer = [0; Key::MAX_LEN];
    longer[..len].copy_from_slice(bytes);
    match Key::new(&longer[..=len]) {
        Ok(next) if *key < next => Some(next),
        _ => None,
    }
}

/// The keys of the span stand below this bound.
pub fn keys_to(span: &Span) -> Bound<Entry>
    ensures { result ≡ keys_to span.now }
{
    match span {
        Span::Range { high, .. } => match high {
            Some(high) => Bound::Excluded(first_at(high)),
            None => Bound::Unbounded,
        },
        Span::Key(key) => Bound::Included(Entry {
            lock: Lock {
                span: Span::Key(key.copied()),
                mode: Mode::Exclusive,
            },
            txn: u64::MAX,
        }),
    }
}
