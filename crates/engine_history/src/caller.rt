//! A session's own side of the history.
ghost use Rattle.std.specs.Prelude.{◌≡◌, ◌<◌, ◌+◌};
ghost use Rattle.engine_history.specs.Sessions.{no_calls};

use crate::naming::Naming;
use crate::view::Cursor;
use engine_agreement::Mark;
use std::marker::Model;

/// What a session has seen. Contracts see its number, and its calls of the entries that it has seen.
#[derive(Drop)]
pub struct Caller<J: Naming> {
    pub(crate) number: u64,
    pub(crate) cursor: Cursor<J>,
}

impl<J: Naming> Model for Caller<J> {
    ghost use Rattle.std.specs.Coded.{codes};
    ghost use Rattle.std.specs.Prelude.{◌≡◌, ◌<◌, ◌+◌, ℕ};
    ghost use Rattle.engine_history.specs.Sessions.{SessionCalls, calls_by};
    ghost use Rattle.engine_history.specs.Callers.{CallerView};

    ghost Value = { CallerView };

    ghost coded = { Prim.hlevel codes };

    ghost view = { λ c. record { number = c.number; calls = calls_by c.number c.cursor.steps } };

    ghost invariant = { λ c. (c.number < J.sessions) × (c.cursor.name ≡ J.names (c.number + 3)) };
}

impl<J: Naming> Caller<J> {
    /// A session that has seen nothing.
    pub fn new(number: u64, mark: Mark) -> Caller<J>
        requires within { number < J.sessions }
        requires name { mark.name ≡ J.names (number + 3) }
        requires start { mark.number ≡ 0 }
        ensures { result ≡ record { number = number; calls = no_calls } }
    {
        Caller {
            number,
            cursor: Cursor::new(mark),
        }
    }

    pub fn number(&self) -> u64
        ensures { result ≡ self.now.number }
    {
        self.number
    }
}
