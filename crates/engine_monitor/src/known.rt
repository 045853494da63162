//! What a session knows of the marks.
ghost use Rattle.std.specs.Prelude.{◌≡◌, ◌≤◌, true, []};
ghost use Rattle.engine_marks.specs.Seen.{having_read};
ghost use Rattle.engine_guarded.specs.Slots.{Shown};
ghost use Rattle.engine_monitor.specs.Sessions.{WasStable};

use crate::held::Held;
use boxcar::Pushed;
use engine_guarded::Entry;
use engine_guarded::engine_history::Naming;
use engine_marks::{Marks, Seat};
use stable::{CrashLog, CrashPages};
use std::marker::{Model, PhantomData};

/// A session's seat at the marks, and how far the log was stable when it was told last. Contracts see what the seat has
/// seen.
#[derive(Drop)]
pub struct Known<J: Naming> {
    seat: Seat,
    stable: u64,
    of: PhantomData<J>,
}

impl<J: Naming> Model for Known<J> {
    ghost use Rattle.atomic_table.specs.Seated.{table_id_coded};
    ghost use Rattle.std.specs.Coded.{codes};
    ghost use Rattle.engine_marks.specs.Seen.{Seen};
    ghost use Rattle.engine_monitor.specs.Sessions.{IsKnown};

    ghost Value = { Seen };

    ghost coded = { Prim.hlevel (codes, table_id_coded) };

    ghost view = { λ k. k.seat };

    ghost invariant = { λ k. IsKnown J.start J.entries J.marks k.seat k.stable };
}

impl<J: Naming> Known<J> {
    /// A seat that has seen nothing, where this entry stands before the first call.
    pub(crate) fn new(seat: Seat, first: &Pushed<Entry>) -> Known<J>
        requires marks { seat.marks ≡ J.marks }
        requires shown { Shown J.entries first.now }
        requires empty { first.now.value.past.items ≡ [] }
        ensures { result ≡ seat }
    {
        let _ = first;
        Known {
            seat,
            stable: 0,
            of: PhantomData,
        }
    }

    /// Both words, as this call reads them.
    pub(crate) fn read(&mut self, marks: &Marks) -> (u64, u64)
        requires marks { marks.now ≡ J.marks }
        ensures ordered { result.1 ≤ result.0 }
        ensures never_falls { (self.old.stable ≤ result.0) × (self.old.low ≤ result.1) }
        ensures read { self.new ≡ having_read self.old result.0 result.1 }
    {
        marks.read(&mut self.seat)
    }

    /// It is told what lies under the lock.
    pub(crate) fn learn<D: CrashLog, P: CrashPages>(
        &mut self,
        held: &mut Held<J, D, P>,
        marks: &Marks,
    )
        requires marks { marks.now ≡ J.marks }
        ensures same { held.new.found ≡ held.old.found }
    {
        self.stable = held.teach(marks, &mut self.seat);
    }

    /// Whether it has seen the log stable up to this number, as it was then.
    pub(crate) fn reaches(&self, number: u64) -> bool
        ensures seen { result ≡ true → number ≤ self.now.stable }
        ensures was { result ≡ true → WasStable J.start J.entries number }
    {
        number <= self.stable
    }
}
