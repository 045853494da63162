//! An event in little room: of ten entries of a transaction nine are told by one number.
ghost use Rattle.std.specs.Prelude.{◌≡◌};
ghost use Rattle.engine_history.specs.InFlightCalls.{serves};
ghost use Rattle.engine_history.specs.Lending.{lent};
ghost use Rattle.engine_history.specs.Marking.{low_of};
ghost use Rattle.engine_history.specs.Sessions.{cuts_off};

use crate::growth::boxed;
use crate::in_flight::{InFlight, is_number};
use crate::kept_out::KeptOut;
use crate::lent::Lent;
use node_sides::node_laws::Event;
use std::alloc::Global;
use std::marker::Model;
use std::sync::Wait;

/// An event. What comes often is a kind and a number, anything else stands in a box. Contracts see the event.
#[derive(Debug, Drop)]
pub struct KeptEvent {
    inside: Kept,
}

#[derive(Debug, Drop)]
enum Kept {
    Begin,
    Commit(u64),
    Force,
    Tell,
    LowWater(u64),
    Send(u64),
    Undo(u64),
    Tend,
    Request(u64),
    Reply(u64),
    Other(Box<Event>),
}

impl Model for KeptEvent {
    ghost use Rattle.std.specs.Coded.{codes};
    ghost use Rattle.node_sides.specs.node_laws.specs.declared.event.Event.{Event};
    ghost use Rattle.engine_history.specs.KeptEvents.{kept_event, BoxesOtherEvents};

    ghost Value = { Event };

    ghost coded = { Prim.hlevel codes };

    ghost view = { λ k. kept_event k.inside };

    ghost invariant = { λ k. BoxesOtherEvents k.inside };
}

impl KeptEvent {
    /// Where memory for a box is refused it is tried again until it is made.
    pub(crate) fn of<R: Wait>(rt: &R, alloc: Global, event: Event) -> KeptEvent
        ensures { result ≡ event }
    {
        let inside = match event {
            Event::Begin => Kept::Begin,
            Event::Commit { txn } => Kept::Commit(txn),
            Event::Force => Kept::Force,
            Event::Tell => Kept::Tell,
            Event::LowWater { low } => Kept::LowWater(low),
            Event::Send { txn } => Kept::Send(txn),
            Event::Undo { txn } => Kept::Undo(txn),
            Event::Tend => Kept::Tend,
            Event::Request { number } => Kept::Request(number),
            Event::Reply { number } => Kept::Reply(number),
            other => Kept::Other(boxed(rt, alloc, other)),
        };
        KeptEvent { inside }
    }

    /// The event, to be looked at. Takes no memory.
    pub fn lent(&self) -> Lent<'_, Event>
        ensures { lent result ≡ self.now }
    {
        Lent::Made(match &self.inside {
            Kept::Begin => Event::Begin,
            Kept::Commit(txn) => Event::Commit { txn: *txn },
            Kept::Force => Event::Force,
            Kept::Tell => Event::Tell,
            Kept::LowWater(low) => Event::LowWater { low: *low },
            Kept::Send(txn) => Event::Send { txn: *txn },
            Kept::Undo(txn) => Event::Undo { txn: *txn },
            Kept::Tend => Event::Tend,
            Kept::Request(number) => Event::Request { number: *number },
            Kept::Reply(number) => Event::Reply { number: *number },
            Kept::Other(event) => return Lent::Kept(event),
        })
    }

    /// Whether the step is made for this transaction.
    pub(crate) fn serves(&self, txn: u64, in_flight: &InFlight) -> bool
        ensures { result ≡ serves txn in_flight.now self.now }
    {
        match &self.inside {
            Kept::Send(of) | Kept::Undo(of) => *of == txn,
            Kept::Request(number) => is_number(in_flight.request, *number),
            Kept::Reply(number) => is_number(in_flight.reply, *number),
            Kept::Force => in_flight.commits,
            _ => false,
        }
    }

    /// Whether it cuts every session's transaction off.
    pub(crate) fn cuts_off(&self) -> bool
        ensures { result ≡ cuts_off self.now }
    {
        match &self.inside {
            Kept::Other(event) => matches!(&**event, Event::CrashTc { .. }),
            _ => false,
        }
    }

    /// The number that was announced where it came to this, 0 where none was.
    pub(crate) fn low_sent(&self, out: &KeptOut) -> u64
        ensures { result ≡ low_of self.now out.now }
    {
        match &self.inside {
            Kept::LowWater(low) => out.if_sent(*low),
            _ => 0,
        }
    }
}
