//! A session's own side.
ghost use Rattle.std.specs.Prelude.{◌≡◌, ◌≤◌, ◌+◌, false};
ghost use Rattle.engine_guarded.specs.Slots.{IsShownBy, Shown};

use crate::entry::Entry;
use boxcar::Pushed;
use engine_agreement::Mark;
use engine_history::Naming;
use std::marker::{Model, PhantomData};

/// The entry that a session has seen last, and whether it is amid a call. Contracts see its number, and the steps up to
/// that entry.
#[derive(Drop)]
pub struct Caller<J: Naming> {
    pub(crate) number: u64,
    pub(crate) mark: Mark,
    pub(crate) last: Pushed<Entry>,
    pub(crate) of: PhantomData<J>,
}

impl<J: Naming> Model for Caller<J> {
    ghost use Rattle.std.specs.Coded.{codes};
    ghost use Rattle.engine_guarded.specs.Callers.{CallerView, CallerKept, caller_of};

    ghost Value = { CallerView };

    ghost coded = { Prim.hlevel codes };

    ghost view = { λ c. caller_of c.number c.mark c.last };

    ghost invariant = { λ c. CallerKept J.entries J.names J.sessions c.number c.mark c.last };
}

impl<J: Naming> Caller<J> {
    /// A session that has seen what stood before the first call.
    pub fn new(number: u64, mark: Mark, last: Pushed<Entry>) -> Caller<J>
        requires within { number ≤ J.sessions }
        requires name { mark.name ≡ J.names (number + 2) }
        requires start { mark.number ≡ last.index + 1 }
        requires shown { Shown J.entries last }
        ensures { result ≡ record { number = number; steps = last.value.past.items; busy = false } }
    {
        Caller {
            number,
            mark,
            last,
            of: PhantomData,
        }
    }

    /// There is an entry up to which these steps are.
    pub fn shown(&self)
        ensures { IsShownBy J.entries self.now.steps }
    {
        let _ = &self.last;
    }

    pub fn number(&self) -> u64
        ensures { result ≡ self.now.number }
    {
        self.number
    }
}
