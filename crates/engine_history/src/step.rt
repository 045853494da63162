//! One step of one component, with the message that it sent.
ghost use Rattle.std.specs.Prelude.{◌≡◌, None};

use crate::kept_event::KeptEvent;
use crate::kept_out::KeptOut;
use crate::message::Message;
use codec::{Reply, Request};

/// An event with what it came to, whose call it is, and the request or the reply that it sent.
#[derive(Debug, Drop)]
pub struct Step {
    /// The session whose call it is, from 0.
    pub caller: Option<u64>,
    pub event: KeptEvent,
    pub out: KeptOut,
    pub sent: Message<Request>,
    pub given: Message<Reply>,
}

impl Step {
    /// A step that sent nothing.
    pub(crate) fn new(caller: Option<u64>, event: KeptEvent, out: KeptOut) -> Step
        ensures { result ≡ record { caller = caller; event = event; out = out; sent = None; given = None } }
    {
        Step {
            caller,
            event,
            out,
            sent: Message::none(),
            given: Message::none(),
        }
    }
}
