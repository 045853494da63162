//! What lies under the lock, and how the marks follow it.
ghost use Rattle.std.specs.Prelude.{◌≡◌, ◌≤◌, []};
ghost use Rattle.engine_marks.specs.Seen.{raiser};
ghost use Rattle.engine_guarded.specs.Slots.{Shown};
ghost use Rattle.engine_monitor.specs.Sessions.{WasStable};

use boxcar::Pushed;
use engine_guarded::engine_history::Naming;
use engine_guarded::{Caller, Entry, Guarded};
use engine_marks::{Marks, Seat};
use stable::{CrashLog, CrashPages};
use std::marker::Model;

/// The node, and the seat that raises the marks. Contracts see what is found of the node, and what the seat has seen.
#[derive(Drop)]
pub(crate) struct Held<J: Naming, D: CrashLog, P: CrashPages> {
    pub(crate) guarded: Guarded<J, D, P>,
    seat: Seat,
}

impl<J: Naming, D: CrashLog, P: CrashPages> Model for Held<J, D, P> {
    ghost use Rattle.std.specs.Coded.{codes};
    ghost use Rattle.atomic_table.specs.Seated.{table_id_coded};
    ghost use Rattle.record_key.specs.Table.{table_code};
    ghost use Rattle.engine_guarded.specs.dc_store.specs.SystemView.{pages_code};
    ghost use Rattle.engine_monitor.specs.Sessions.{HeldView, IsHeld};

    ghost Value = { HeldView };

    ghost coded = { Prim.hlevel (codes, table_id_coded, table_code, pages_code) };

    ghost view = { λ h. record { found = h.guarded; seat = h.seat } };

    ghost invariant = { λ h. IsHeld J.start J.entries J.marks h.seat };
}

impl<J: Naming, D: CrashLog, P: CrashPages> Held<J, D, P> {
    /// A node, and the seat that raises the marks, where this entry stands before the first call.
    pub(crate) fn new(guarded: Guarded<J, D, P>, seat: Seat, first: &Pushed<Entry>) -> Held<J, D, P>
        requires raises { seat ≡ raiser J.marks 0 0 }
        requires shown { Shown J.entries first.now }
        requires empty { first.now.value.past.items ≡ [] }
        ensures found { result.found ≡ guarded }
    {
        let _ = first;
        Held { guarded, seat }
    }

    /// The marks show how much of the log is stable and what was announced, where the transaction component runs. Whoever
    /// calls has seen all steps.
    pub(crate) fn mark(&mut self, marks: &Marks, caller: &Caller<J>)
        requires marks { marks.now ≡ J.marks }
        requires seen { caller.now.steps ≡ self.old.found.steps }
        ensures same { self.new.found ≡ self.old.found }
    {
        let Held { guarded, seat } = self;
        caller.shown();
        guarded.kept();
        let Ok(end) = guarded.stable_end() else {
            return;
        };
        marks.raise_stable(seat, end);
        let low = guarded.announced();
        marks.raise_low(seat, low);
    }

    /// A seat learns what the marks show, and how far the log was stable.
    pub(crate) fn teach(&mut self, marks: &Marks, seat: &mut Seat) -> u64
        requires marks { marks.now ≡ J.marks }
        requires seat { seat.old.marks ≡ J.marks }
        ensures same { self.new.found ≡ self.old.found }
        ensures seat { seat.new.marks ≡ J.marks }
        ensures seen { result ≤ seat.new.stable }
        ensures was { WasStable J.start J.entries result }
    {
        let Held {
            guarded: _,
            seat: own,
        } = self;
        marks.learn(own, seat);
        marks.read(own).0
    }

    /// The node.
    pub(crate) fn into_guarded(self) -> Guarded<J, D, P>
        ensures { result ≡ self.found }
    {
        let Held { guarded, seat: _ } = self;
        guarded
    }
}
