//! Growths that are tried again until they are made.
ghost use Rattle.std.specs.Prelude.{◌≡◌, ◌<◌, vec_len, vec_capacity};
ghost use Rattle.engine_history.specs.Slots.{Shown};

use crate::entry::Entry;
use boxcar::{Pushed, Vec as Entries};
use std::alloc::{AllocFailed, Global};
use std::sync::Wait;
use std::thread;

/// A value in a box. Where memory for it is refused it is tried again until it is made.
// Apart, since room for the value that comes back is filled with zeros where a function begins.
#[inline(never)]
pub fn boxed<T, R: Wait>(rt: &R, alloc: Global, value: T) -> Box<T>
    ensures { result.value ≡ value }
{
    let mut value = value;
    for _ in rt.forever() {
        match Box::new(alloc, value) {
            Ok(boxed) => return boxed,
            Err(AllocFailed { value: back }) => value = back,
        }
        thread::yield_now();
    }
    unreachable!()
}

/// Adds an entry. Where a growth is refused it is tried again until it is made.
pub fn pushed<R: Wait>(rt: &R, entries: &Entries<Entry>, entry: Entry) -> Pushed<Entry>
    ensures shown { Shown entries.now result }
    ensures value { result.value ≡ entry }
{
    let mut entry = entry;
    for _ in rt.forever() {
        match entries.push_shown(rt, entry) {
            Ok(token) => {
                if token.index() < usize::MAX {
                    return token;
                }
                break;
            }
            Err(back) => entry = back,
        }
        thread::yield_now();
    }
    // no list gives out this index
    for _ in rt.forever() {
        thread::yield_now();
    }
    unreachable!()
}

/// Makes room for one more. Where it is refused it is tried again until it is made.
pub fn make_room<T, R: Wait>(rt: &R, list: &mut Vec<T>)
    ensures items { list.new.items ≡ list.old.items }
    ensures room { vec_len list.new < vec_capacity list.new }
{
    for _ in rt.forever() {
        if list.reserve(1).is_ok() {
            break;
        }
        thread::yield_now();
    }
}
