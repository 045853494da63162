//! What the threads read with no lock: the entries, under the name that their tokens go by, and the marks.
ghost use Rattle.std.specs.Prelude.{◌≡◌};

use crate::entry::Entry;
use crate::naming::Naming;
use boxcar::Vec as Entries;
use engine_marks::Marks;
use std::marker::{Model, PhantomData};

/// The entries, and the marks.
#[derive(Drop)]
pub struct Published<J: Naming> {
    entries: Entries<Entry>,
    marks: Marks,
    of: PhantomData<J>,
}

impl<J: Naming> Model for Published<J> {
    ghost use Rattle.std.specs.Prelude.{◌≡◌};
    ghost use Rattle.boxcar.specs.Table.{Shelves, shelves_coded};

    ghost Value = { Shelves };

    ghost coded = { shelves_coded };

    ghost view = { λ h. h.entries };

    ghost invariant = { λ h. (h.entries ≡ J.entries) × (h.marks ≡ J.marks) };
}

impl<J: Naming> Published<J> {
    pub fn new(entries: Entries<Entry>, marks: Marks) -> Published<J>
        requires entries { entries ≡ J.entries }
        requires marks { marks ≡ J.marks }
    {
        Published {
            entries,
            marks,
            of: PhantomData,
        }
    }

    /// The entries.
    pub fn entries(&self) -> &Entries<Entry>
        ensures { result.now ≡ J.entries }
    {
        &self.entries
    }

    /// How far the log is stable, and what was announced as answered.
    pub fn marks(&self) -> &Marks
        ensures { result.now ≡ J.marks }
    {
        &self.marks
    }
}
