//! What lies under the lock of a session.
ghost use Rattle.std.specs.Prelude.{◌≡◌, ◌+◌, true, [], Some, None};
ghost use Rattle.engine_history.specs.Sessions.{calls_as};
ghost use Rattle.engine_guarded.specs.Places.{PlaceKept, place_after, place_called, place_heard, place_worked, with_heard};
ghost use Rattle.engine_guarded.specs.Quiet.{waits};
ghost use Rattle.engine_guarded.specs.Running.{made};
ghost use Rattle.engine_guarded.specs.Slots.{Shown};

use crate::entry::Entry;
use crate::heard::Heard;
use crate::hearing::{
    cuts_off, failure_of, heard_to, in_flight_of, is_pending, live_after, sent_on, serves,
};
use boxcar::Pushed;
use engine_agreement::FarEnd;
use engine_history::node_laws::{Event, Out};
use engine_history::{Failure, InFlight, Naming};
use std::sync::Wait;

/// A session's place: the entry that it has seen last, which agrees with what the session keeps; the transaction whose lines
/// are the session's, whether its latest call is still to be told of, and what was told of that since; what is on its way
/// for that call, and what a step of it failed by since.
#[derive(Drop)]
pub struct Place {
    pub(crate) number: u64,
    pub(crate) far_end: FarEnd,
    pub(crate) last: Pushed<Entry>,
    pub(crate) live: Option<u64>,
    pub(crate) awaits: bool,
    pub(crate) line: Option<Heard>,
    pub(crate) in_flight: InFlight,
    pub(crate) failed: Option<Failure>,
}

// Whether it is this session's call.
fn is_call_of(caller: Option<u64>, session: u64) -> bool
    ensures { result ≡ calls_as caller session }
{
    match caller {
        Some(number) => number == session,
        None => false,
    }
}

impl Place {
    /// The place of a session that has seen what stood before the first call.
    pub fn new<J: Naming>(number: u64, far_end: FarEnd, last: Pushed<Entry>) -> Place
        requires name { far_end.name ≡ J.names (number + 2) }
        requires start { far_end.number ≡ last.index + 1 }
        requires shown { Shown J.entries last }
        requires empty { last.value.past.items ≡ [] }
        ensures { PlaceKept J.entries J.names [] number result }
    {
        Place {
            number,
            far_end,
            last,
            live: None,
            awaits: false,
            line: None,
            in_flight: InFlight {
                request: None,
                reply: None,
                commits: false,
            },
            failed: None,
        }
    }

    /// Its session's call.
    fn called(&mut self, out: &Out)
        ensures { self.new ≡ place_called out.now self.old }
    {
        self.live = live_after(self.live, out);
        self.awaits = is_pending(out);
        self.line = None;
        self.in_flight = in_flight_of(out);
        self.failed = None;
    }

    /// A step that was made for its transaction goes on, or fails.
    fn work(&mut self, txn: u64, event: &Event, out: &Out)
        requires { self.old.live ≡ Some txn }
        ensures { self.new ≡ place_worked event.now out.now self.old }
    {
        if !serves(txn, &self.in_flight, event) {
            return;
        }
        if let Some(failure) = failure_of(out) {
            self.failed = Some(failure);
        }
        self.in_flight = sent_on(self.in_flight, out);
    }

    /// A line is told to it, if one is. Only the first one told of a call counts.
    fn tell(&mut self, heard: Option<Heard>)
        ensures { self.new ≡ with_heard heard self.old }
    {
        let Some(heard) = heard else {
            return;
        };
        if heard.ends() {
            self.live = None;
        }
        if self.awaits {
            self.line = Some(heard);
        }
        self.awaits = false;
    }

    /// A step that is no call of its session may be made for it, tell it a line, or cut it off.
    fn hear_other<R: Wait>(&mut self, rt: &R, event: &Event, out: &Out)
        ensures { self.new ≡ place_heard event.now out.now self.old }
    {
        let Some(txn) = self.live else {
            return;
        };
        if cuts_off(event) {
            self.live = None;
            return;
        }
        self.work(txn, event, out);
        self.tell(heard_to(rt, txn, out));
    }

    /// Whether a message is on its way for its session's latest call.
    pub(crate) fn waits(&self) -> bool
        ensures { result ≡ waits self.now }
    {
        if self.live.is_none() || !self.awaits {
            return false;
        }
        self.in_flight.request.is_some() || self.in_flight.reply.is_some()
    }

    /// Whether no transaction of its session is alive, and nothing was told that the session hasn't seen.
    pub(crate) fn is_cut(&self) -> bool
        ensures live { result ≡ true → self.now.live ≡ None }
        ensures line { result ≡ true → self.now.line ≡ None }
    {
        self.live.is_none() && self.line.is_none()
    }

    /// A step.
    pub(crate) fn hear<R: Wait>(&mut self, rt: &R, caller: Option<u64>, event: &Event, out: &Out)
        ensures { self.new ≡ place_after (made caller event.now out.now) self.old }
    {
        if is_call_of(caller, self.number) {
            self.called(out);
        } else {
            self.hear_other(rt, event, out);
        }
    }
}
