//! A range is read part by part: each is what one leaf has of it.
ghost use Rattle.std.specs.Prelude.{◌≡◌, ℕ, ◌<◌, ◌≤◌, true, List, Option, None, length, IsTrue, IfSome};
ghost use Rattle.record_key.specs.Order.{is_below, ends_above};
ghost use Rattle.dc_core.specs.DcView.{leaves};
ghost use Rattle.jakumshe.specs.Calls.{EndsSo, PutsResult, end_of};
ghost use Rattle.jakumshe.specs.Holding.{OnNode, RefusedAs};
ghost use Rattle.jakumshe.specs.Parts.{ReadsPart, ReadsPartBack};
ghost use Rattle.jakumshe.specs.Records.{PutsKey};

use crate::fault::{DONE, Fault};
use crate::handle::Handle;
use crate::ops;
use crate::records::KeyBytes;
use node_world::World;
use record_key::Key;
use std::alloc::Global;

/// Reads the rows from `low` on, below `high` or, where that is empty, to the end, but no further than one leaf goes;
/// keeps them for `jakumshe_raw_page`, and gives how many there are and, where the range goes on, the key from which on.
/// Refused EmptyKey, TooLong, BadRange, NotOpen, Busy.
#[unsafe(no_mangle)]
pub extern "C" fn jakumshe_raw_scan_part(
    handle: &mut Handle,
    alloc: Global,
    txn: u64,
    low: &[u8],
    high: &[u8],
    end: &mut KeyBytes,
    count: &mut usize,
) -> i32
    ensures read { 0 < length low.now → length low.now ≤ 32 → length high.now ≤ 32
        → OnNode handle.old.node handle.new.node result (λ old new. EndsSo result (λ r. (key : Option (List ℕ))
        × ReadsPart old.world txn low.now (end_of high.now) old.rows.items new.rows.items r key new.world
        × PutsKey r key end.old end.new × PutsResult r count.old count.new)) }
    ensures empty_key { length low.now ≡ 0 → RefusedAs 11 handle.old.node handle.new.node result }
    ensures long_key { 32 < length low.now → RefusedAs 12 handle.old.node handle.new.node result }
    ensures long_end { 0 < length low.now → 32 < length high.now
        → RefusedAs 12 handle.old.node handle.new.node result }
    ensures closed { handle.old.node ≡ None → (count.new ≡ count.old) × (end.new ≡ end.old) }
{
    let mut node = match handle.take(alloc) {
        Ok(node) => node,
        Err(fault) => return fault.status(),
    };
    let (low, high) = match ops::range(low, high) {
        Ok(range) => range,
        Err(refusal) => {
            handle.put(node);
            return Fault::Refused(refusal).status();
        }
    };
    let next = end_in(node.world(), &low, &high);
    let until = match &next {
        Some(next) => Some(next.copied()),
        None => high,
    };
    let ended = node.read(txn, low, until);
    handle.put(node);
    match ended {
        Ok(found) => {
            end.put(next.as_ref());
            *count = found;
            DONE
        }
        Err(fault) => fault.status(),
    }
}

/// Reads the rows below `high` or, where that is empty, to the end, from `low` on, but no further down than one leaf goes;
/// keeps them for `jakumshe_raw_page`, the last one first, and gives how many there are and, where the range goes on, the
/// key below which. Refused EmptyKey, TooLong, BadRange, NotOpen, Busy.
#[unsafe(no_mangle)]
pub extern "C" fn jakumshe_raw_scan_part_back(
    handle: &mut Handle,
    alloc: Global,
    txn: u64,
    low: &[u8],
    high: &[u8],
    begin: &mut KeyBytes,
    count: &mut usize,
) -> i32
    ensures read { 0 < length low.now → length low.now ≤ 32 → length high.now ≤ 32
        → OnNode handle.old.node handle.new.node result (λ old new. EndsSo result (λ r. (key : Option (List ℕ))
        × ReadsPartBack old.world txn low.now (end_of high.now) old.rows.items new.rows.items r key new.world
        × PutsKey r key begin.old begin.new × PutsResult r count.old count.new)) }
    ensures empty_key { length low.now ≡ 0 → RefusedAs 11 handle.old.node handle.new.node result }
    ensures long_key { 32 < length low.now → RefusedAs 12 handle.old.node handle.new.node result }
    ensures long_end { 0 < length low.now → 32 < length high.now
        → RefusedAs 12 handle.old.node handle.new.node result }
    ensures closed { handle.old.node ≡ None → (count.new ≡ count.old) × (begin.new ≡ begin.old) }
{
    let mut node = match handle.take(alloc) {
        Ok(node) => node,
        Err(fault) => return fault.status(),
    };
    let (low, high) = match ops::range(low, high) {
        Ok(range) => range,
        Err(refusal) => {
            handle.put(node);
            return Fault::Refused(refusal).status();
        }
    };
    let next = begin_in(node.world(), &low, &high);
    let from = match &next {
        Some(next) => next.copied(),
        None => low,
    };
    let ended = node.read_back(txn, from, high);
    handle.put(node);
    match ended {
        Ok(found) => {
            begin.put(next.as_ref());
            *count = found;
            DONE
        }
        Err(fault) => fault.status(),
    }
}

/// Where the leaf of a key ends, if that is within the range from there on.
fn end_in(world: &World, low: &Key, high: &Option<Key>) -> Option<Key>
    ensures { IfSome result (λ key. IsTrue (is_below low.now key) × IsTrue (ends_above high.now key)) }
{
    let Ok(count) = world.leaves() else {
        return None;
    };
    let Some(place) = place_of(world, count, Bound::At(low)) else {
        return None;
    };
    let Some(end) = world.leaf(place).high_fence() else {
        return None;
    };
    if is_below(low, end) && is_below_end(end, high) {
        Some(end.copied())
    } else {
        None
    }
}

/// Where the last leaf begins that has a part of a range, if that is within it.
fn begin_in(world: &World, low: &Key, high: &Option<Key>) -> Option<Key>
    ensures { IfSome result (λ key. IsTrue (is_below low.now key) × IsTrue (ends_above high.now key)) }
{
    let Ok(count) = world.leaves() else {
        return None;
    };
    let Some(place) = place_of(world, count, Bound::below(high)) else {
        return None;
    };
    let Some(begin) = world.leaf(place).low_fence() else {
        return None;
    };
    if is_below(low, begin) && is_below_end(begin, high) {
        Some(begin.copied())
    } else {
        None
    }
}

fn is_below(key: &Key, other: &Key) -> bool
    ensures { result ≡ is_below key.now other.now }
{
    key < other
}

fn is_below_end(key: &Key, end: &Option<Key>) -> bool
    ensures { result ≡ ends_above end.now key.now }
{
    match end {
        Some(end) => key < end,
        None => true,
    }
}

/// Up to where a leaf may begin.
#[derive(Clone, Copy)]
enum Bound<'a> {
    At(&'a Key),
    Below(&'a Key),
    Anywhere,
}

impl<'a> Bound<'a> {
    fn below(end: &'a Option<Key>) -> Bound<'a> {
        match end {
            Some(key) => Bound::Below(key),
            None => Bound::Anywhere,
        }
    }
}

/// The place of the last leaf that begins within the bound.
fn place_of(world: &World, count: usize, bound: Bound<'_>) -> Option<usize>
    requires up { world.now.dc_up ≡ true }
    requires count { count ≡ length (leaves world.now.dc) }
    ensures { IfSome result (λ place. place < count) }
{
    let (mut first, mut end) = (0, count);
    while first < end {
        let middle = first + (end - first) / 2;
        if begins_behind(world.leaf(middle).low_fence(), bound) {
            end = middle;
        } else {
            first = middle + 1;
        }
    }
    if first == 0 { None } else { Some(first - 1) }
}

fn begins_behind(fence: Option<&Key>, bound: Bound<'_>) -> bool {
    match (fence, bound) {
        (Some(fence), Bound::At(key)) => fence > key,
        (Some(fence), Bound::Below(key)) => fence >= key,
        (None, _) | (_, Bound::Anywhere) => false,
    }
}
