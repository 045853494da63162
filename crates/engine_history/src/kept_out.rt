//! What an event came to, in little room: of ten entries of a transaction eight are told by one number.
ghost use Rattle.std.specs.Prelude.{◌≡◌, true, IfSome, IfNone};
ghost use Rattle.engine_history.specs.InFlightCalls.{in_flight_of, sent_on};
ghost use Rattle.engine_history.specs.Failing.{failure_of};
ghost use Rattle.engine_history.specs.Kept.{line_kind};
ghost use Rattle.engine_history.specs.KeptOuts.{kept_out, is_brief_out, BoxesOtherOuts};
ghost use Rattle.engine_history.specs.Lending.{lent};
ghost use Rattle.engine_history.specs.Marking.{if_sent, tells_commit};
ghost use Rattle.engine_history.specs.Sessions.{is_pending, line_to, live_after};

use crate::failure::{Failure, failure_in};
use crate::growth::boxed;
use crate::in_flight::InFlight;
use crate::lent::Lent;
use crate::told::{Told, kind_if, told_to};
use node_sides::node_laws::Out;
use record_key::Refusal;
use std::alloc::Global;
use std::marker::Model;
use std::sync::Wait;

/// An output. What comes often is a kind and a number or a reason, anything else stands in a box. Contracts see the output.
#[derive(Debug, Drop)]
pub struct KeptOut {
    inside: OutForm,
}

/// The forms in which an output is kept. None in a box is one of the others.
#[derive(Debug, Drop)]
pub enum OutForm {
    Begun(u64),
    Logged(u64),
    RollingBack,
    CommitLogged(u64),
    Nothing,
    Compensated(u64),
    RolledBack(u64),
    Sent(u64),
    Replied(u64),
    Noted,
    Asked(u64),
    Undone(u64),
    Refused(Refusal),
    Other(Box<Out>),
}

impl Model for KeptOut {
    ghost use Rattle.std.specs.Coded.{codes};
    ghost use Rattle.node_sides.specs.node_laws.specs.declared.event.Out.{Out};
    ghost use Rattle.engine_history.specs.KeptOuts.{kept_out, BoxesOtherOuts};

    ghost Value = { Out };

    ghost coded = { Prim.hlevel codes };

    ghost view = { λ k. kept_out k.inside };

    ghost invariant = { λ k. BoxesOtherOuts k.inside };
}

impl KeptOut {
    /// Where memory for a box is refused it is tried again until it is made.
    pub(crate) fn of<R: Wait>(rt: &R, alloc: Global, out: Out) -> KeptOut
        ensures { result ≡ out }
    {
        let inside = match out {
            Out::Begun(txn) => OutForm::Begun(txn),
            Out::Logged(number) => OutForm::Logged(number),
            Out::RollingBack => OutForm::RollingBack,
            Out::CommitLogged(number) => OutForm::CommitLogged(number),
            Out::Nothing => OutForm::Nothing,
            Out::Compensated(number) => OutForm::Compensated(number),
            Out::RolledBack(txn) => OutForm::RolledBack(txn),
            Out::Sent(number) => OutForm::Sent(number),
            Out::Replied(number) => OutForm::Replied(number),
            Out::Noted => OutForm::Noted,
            Out::Asked(number) => OutForm::Asked(number),
            Out::Undone(txn) => OutForm::Undone(txn),
            Out::Refused(refusal) => OutForm::Refused(refusal),
            other => OutForm::Other(boxed(rt, alloc, other)),
        };
        KeptOut { inside }
    }

    /// The form in which it is kept.
    pub fn form(&self) -> &OutForm
        ensures out { kept_out result.now ≡ self.now }
        ensures others { BoxesOtherOuts result.now }
    {
        &self.inside
    }

    /// The output itself, where it stands in a box: else it is told by its form.
    pub fn other(&self) -> Option<&Out>
        ensures boxed { IfSome result (λ out. out.now ≡ self.now) }
        ensures brief { IfNone result (is_brief_out self.now ≡ true) }
    {
        match &self.inside {
            OutForm::Other(out) => Some(out),
            _ => None,
        }
    }

    /// The output, to be looked at. Takes no memory.
    pub fn lent(&self) -> Lent<'_, Out>
        ensures { lent result ≡ self.now }
    {
        Lent::Made(match &self.inside {
            OutForm::Begun(txn) => Out::Begun(*txn),
            OutForm::Logged(number) => Out::Logged(*number),
            OutForm::RollingBack => Out::RollingBack,
            OutForm::CommitLogged(number) => Out::CommitLogged(*number),
            OutForm::Nothing => Out::Nothing,
            OutForm::Compensated(number) => Out::Compensated(*number),
            OutForm::RolledBack(txn) => Out::RolledBack(*txn),
            OutForm::Sent(number) => Out::Sent(*number),
            OutForm::Replied(number) => Out::Replied(*number),
            OutForm::Noted => Out::Noted,
            OutForm::Asked(number) => Out::Asked(*number),
            OutForm::Undone(txn) => Out::Undone(*txn),
            OutForm::Refused(refusal) => Out::Refused(*refusal),
            OutForm::Other(out) => return Lent::Kept(out),
        })
    }

    /// What it tells a transaction.
    pub(crate) fn told_to(&self, txn: u64) -> Told
        ensures { result ≡ line_kind (line_to txn self.now) }
    {
        match &self.inside {
            OutForm::RolledBack(of) => kind_if(*of == txn, Told::End),
            OutForm::Other(out) => told_to(txn, out),
            _ => Told::Nothing,
        }
    }

    /// Whether more is told of a call that came to this.
    pub fn is_pending(&self) -> bool
        ensures { result ≡ is_pending self.now }
    {
        matches!(
            &self.inside,
            OutForm::Logged(_) | OutForm::Asked(_) | OutForm::RollingBack | OutForm::CommitLogged(_)
        )
    }

    /// The transaction whose lines are a session's once a call of its came to this.
    pub(crate) fn live_after(&self, live: Option<u64>) -> Option<u64>
        ensures { result ≡ live_after live self.now }
    {
        match &self.inside {
            OutForm::Begun(txn) => Some(*txn),
            _ => live,
        }
    }

    /// What a step failed by that came to this, if it did.
    pub(crate) fn failure(&self) -> Option<Failure>
        ensures { result ≡ failure_of self.now }
    {
        match &self.inside {
            OutForm::Refused(refusal) => failure_in(*refusal),
            _ => None,
        }
    }

    /// What is on its way for a call that came to this: nothing is sent yet.
    pub(crate) fn in_flight(&self) -> InFlight
        ensures { result ≡ in_flight_of self.now }
    {
        InFlight {
            request: None,
            reply: None,
            commits: matches!(&self.inside, OutForm::CommitLogged(_)),
        }
    }

    /// What is on its way after a step that came to this and was made for a transaction.
    pub(crate) fn sent_on(&self, in_flight: InFlight) -> InFlight
        ensures { result ≡ sent_on in_flight self.now }
    {
        match &self.inside {
            OutForm::Sent(number) => InFlight {
                request: Some(*number),
                reply: None,
                commits: in_flight.commits,
            },
            OutForm::Replied(number) => InFlight {
                request: in_flight.request,
                reply: Some(*number),
                commits: in_flight.commits,
            },
            _ => in_flight,
        }
    }

    /// This number where a request was sent, else 0.
    pub(crate) fn if_sent(&self, low: u64) -> u64
        ensures { result ≡ if_sent low self.now }
    {
        match &self.inside {
            OutForm::Sent(_) => low,
            _ => 0,
        }
    }

    /// Whether it tells a transaction that it has committed.
    pub(crate) fn tells_commit(&self) -> bool
        ensures { result ≡ tells_commit self.now }
    {
        match &self.inside {
            OutForm::Other(out) => match &**out {
                Out::Stable { committed, .. } | Out::Connects { committed, .. } => {
                    !committed.as_slice().is_empty()
                }
                _ => false,
            },
            _ => false,
        }
    }
}
