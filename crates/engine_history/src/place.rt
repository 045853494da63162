//! What the history keeps of a session.
ghost use Rattle.std.specs.Prelude.{◌≡◌, ◌+◌, [], Some};
ghost use Rattle.engine_history.specs.Kept.{PlaceKept, place_after, place_worked, told_kind};
ghost use Rattle.engine_history.specs.Sessions.{calls_as};

use crate::entry::Entry;
use crate::failure::Failure;
use crate::in_flight::InFlight;
use crate::naming::Naming;
use crate::step::Step;
use crate::told::Told;
use crate::view::CursorEnd;
use boxcar::Pushed;
use engine_agreement::FarEnd;

/// A session's place: its side of what the session has seen, the transaction whose lines are the session's, whether its
/// latest call is still to be told of, and the entry that told of it; what is on its way for that call, and what a step of
/// it failed by that the session hasn't seen.
#[derive(Drop)]
pub struct Place<J: Naming> {
    pub(crate) number: u64,
    pub(crate) cursor_end: CursorEnd<J>,
    pub(crate) live: Option<u64>,
    pub(crate) awaits: bool,
    pub(crate) line: Option<Pushed<Entry>>,
    pub(crate) in_flight: InFlight,
    pub(crate) failed: Option<Failure>,
}

impl<J: Naming> Place<J> {
    /// The place of a session that has seen nothing.
    pub fn new(number: u64, far_end: FarEnd) -> Place<J>
        requires name { far_end.name ≡ J.names (number + 3) }
        requires start { far_end.number ≡ 0 }
        ensures { PlaceKept J.entries J.names [] number result }
    {
        Place {
            number,
            cursor_end: CursorEnd::new(far_end),
            live: None,
            awaits: false,
            line: None,
            in_flight: InFlight {
                request: None,
                reply: None,
                commits: false,
            },
            failed: None,
        }
    }

    // A step that was made for its transaction goes on, or fails.
    fn work(&mut self, txn: u64, step: &Step)
        requires { self.old.live ≡ Some txn }
        ensures { self.new ≡ place_worked step.now.event step.now.out self.old }
    {
        if !step.event.serves(txn, &self.in_flight) {
            return;
        }
        if let Some(failure) = step.out.failure() {
            self.failed = Some(failure);
        }
        self.in_flight = step.out.sent_on(self.in_flight);
    }

    // A line is told to it. Only the first one told of a call counts.
    fn tell(&mut self, kind: Told, token: &Pushed<Entry>)
        ensures { self.new ≡ told_kind kind token.now self.old }
    {
        if self.awaits {
            self.line = Some(token.again());
        }
        self.awaits = false;
        if kind == Told::End {
            self.live = None;
        }
    }

    /// An entry that is no call of its session may be made for it, tell it a line, or cut it off.
    pub fn hear(&mut self, entry: &Entry, token: &Pushed<Entry>)
        requires { entry.now ≡ token.now.value }
        ensures { self.new ≡ place_after token.now self.old }
    {
        let Some(txn) = self.live else {
            return;
        };
        let step = &entry.step;
        if is_call_of(step.caller, self.number) {
            return;
        }
        if step.event.cuts_off() {
            self.live = None;
            return;
        }
        self.work(txn, step);
        let kind = step.out.told_to(txn);
        if kind != Told::Nothing {
            self.tell(kind, token);
        }
    }
}

// Whether it is this session's call.
fn is_call_of(caller: Option<u64>, session: u64) -> bool
    ensures { result ≡ calls_as caller session }
{
    match caller {
        Some(number) => number == session,
        None => false,
    }
}
