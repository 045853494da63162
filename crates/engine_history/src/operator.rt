//! The engine's own side of the history.
ghost use Rattle.std.specs.Prelude.{◌≡◌, []};

use crate::naming::Naming;
use crate::view::Cursor;
use engine_agreement::Mark;
use std::marker::Model;

/// Who alone crashes components and sets failures. There is one at an engine. Contracts see its commands, in order.
#[derive(Drop)]
pub struct Operator<J: Naming> {
    pub(crate) cursor: Cursor<J>,
}

impl<J: Naming> Model for Operator<J> {
    ghost use Rattle.std.specs.Prelude.{◌≡◌, List};
    ghost use Rattle.std.specs.Coded.{codes};
    ghost use Rattle.node_sides.specs.node_laws.specs.declared.event.Event.{Event};
    ghost use Rattle.engine_history.specs.Commands.{commands};

    ghost Value = { List Event };

    ghost coded = { Prim.hlevel codes };

    ghost view = { λ o. commands o.cursor.steps };

    ghost invariant = { λ o. o.cursor.name ≡ J.names 2 };
}

impl<J: Naming> Operator<J> {
    /// One that has given no command.
    pub fn new(mark: Mark) -> Operator<J>
        requires name { mark.name ≡ J.names 2 }
        requires start { mark.number ≡ 0 }
        ensures { result ≡ [] }
    {
        Operator {
            cursor: Cursor::new(mark),
        }
    }
}
