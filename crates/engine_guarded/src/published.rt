//! What the threads read with no lock: the entries, and the marks; and the entries' growths, which are tried again until they
//! are made.
ghost use Rattle.std.specs.Prelude.{◌≡◌};
ghost use Rattle.engine_guarded.specs.Slots.{Shown};

use crate::entry::Entry;
use boxcar::{Pushed, Vec as Entries};
use engine_history::Naming;
use engine_marks::Marks;
use std::marker::{Model, PhantomData};
use std::sync::Wait;
use std::thread;

/// The entries, under the name that their tokens go by, and the marks.
#[derive(Drop)]
pub struct Published<J: Naming> {
    entries: Entries<Entry>,
    marks: Marks,
    of: PhantomData<J>,
}

impl<J: Naming> Model for Published<J> {
    ghost use Rattle.std.specs.Prelude.{◌≡◌};
    ghost use Rattle.boxcar.specs.Table.{Shelves, shelves_coded};

    ghost Value = { Shelves };

    ghost coded = { shelves_coded };

    ghost view = { λ e. e.entries };

    ghost invariant = { λ e. (e.entries ≡ J.entries) × (e.marks ≡ J.marks) };
}

impl<J: Naming> Published<J> {
    pub fn new(entries: Entries<Entry>, marks: Marks) -> Published<J>
        requires entries { entries ≡ J.entries }
        requires marks { marks ≡ J.marks }
    {
        Published {
            entries,
            marks,
            of: PhantomData,
        }
    }

    /// The entries.
    pub fn entries(&self) -> &Entries<Entry>
        ensures { result.now ≡ J.entries }
    {
        &self.entries
    }

    /// How far the log is stable, and what was announced as answered.
    pub fn marks(&self) -> &Marks
        ensures { result.now ≡ J.marks }
    {
        &self.marks
    }
}

/// Adds an entry. Where a growth is refused it is tried again until it is made.
pub fn pushed<R: Wait>(rt: &R, entries: &Entries<Entry>, entry: Entry) -> Pushed<Entry>
    ensures shown { Shown entries.now result }
    ensures value { result.value ≡ entry }
{
    let mut entry = entry;
    for _ in rt.forever() {
        match entries.push_shown(rt, entry) {
            Ok(token) => {
                if token.index() < usize::MAX {
                    return token;
                }
                break;
            }
            Err(back) => entry = back,
        }
        thread::yield_now();
    }
    // no list gives out this index
    for _ in rt.forever() {
        thread::yield_now();
    }
    unreachable!()
}
