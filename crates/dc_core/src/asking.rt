//! What a caller asks who doesn't know what it owes of a request.
ghost use Rattle.std.specs.Prelude.{◌≡◌, ◌<◌, ◌+◌, ◌^◌, ◌↔◌, false, None, IsTrue};
ghost use Rattle.std.specs.List.{AllByRecursion};
ghost use Rattle.record_key.specs.Table.{key_of};
ghost use Rattle.codec.specs.Requests.{HasRequestNumbers};
ghost use Rattle.dc_tree.specs.Leaves.{leaf_at};
ghost use Rattle.dc_core.specs.DcView.{captures_at, leaves};
ghost use Rattle.dc_core.specs.Serves.{runs, connect_refusal, MayAsk};
ghost use Rattle.dc_core.specs.Shows.{was_added, Follows, IsOn, IsSavedOn, NoneHidden, MayCome, ShowsPerform, ShowsTakeBack, Shows};

use crate::dc::Dc;
use codec::{NUMBER_LIMIT, Request};
use record_key::{Answer, Entries, Entry, Key, Op};
use stable::{LogDevice, PageDevice};

impl<D: LogDevice, P: PageDevice> Dc<D, P> {
    /// What a caller asks who doesn't know a request's numbers: whether the leaves tell that each is below 2^48; that an
    /// operation's number is on the key that it has among the performances and in each leaf's entries, and, where its
    /// key's leaf hasn't captured it, comes after those performed on its key; and that what was performed above the end of
    /// a session that begins can be taken back. They don't tell of what a low number has hidden: no where a number that
    /// isn't captured isn't above the greatest low one when redo last ended, or an end is below a low one. It reads all
    /// leaves, so a caller that knows its numbers doesn't ask.
    pub fn may_ask(&self, request: &Request) -> bool
        ensures told { IsTrue result ↔ (HasRequestNumbers request.now × Shows self.now request.now) }
        ensures owed { IsTrue result → HasRequestNumbers request.now × MayAsk self.now request.now }
    {
        self.kept();
        has_numbers(request) && self.may_serve(request)
    }

    fn may_serve(&self, request: &Request) -> bool
        requires { HasRequestNumbers request.now }
        ensures { IsTrue result ↔ Shows self.now request.now }
    {
        match request {
            Request::Connect { session, end } => self.may_connect(*session, *end),
            Request::Perform {
                session,
                number,
                op,
                ..
            } => match self.allows_session(*session) {
                Ok(()) => self.may_perform(*number, op),
                // It will be refused.
                Err(_) => true,
            },
            _ => true,
        }
    }

    fn may_connect(&self, session: u64, end: u64) -> bool
        requires { end < 2 ^ 48 }
        ensures { IsTrue result
            ↔ (connect_refusal self.now session ≡ None
            → runs self.now session ≡ false → ShowsTakeBack self.now end) }
    {
        if self.runs(session) {
            return true;
        }
        match self.can_connect(session) {
            Ok(()) => self.may_take_back(end),
            // It will be refused.
            Err(_) => true,
        }
    }

    fn may_take_back(&self, end: u64) -> bool
        requires { end < 2 ^ 48 }
        ensures { IsTrue result ↔ ShowsTakeBack self.now end }
    {
        self.opened_to <= end && self.none_hidden(end + 1)
    }

    fn may_perform(&self, number: u64, op: &Op) -> bool
        ensures { IsTrue result ↔ ShowsPerform self.now number op.now }
    {
        self.is_saved_on(number, op.key()) && self.is_captured_or_next(number, op)
    }

    fn is_captured_or_next(&self, number: u64, op: &Op) -> bool
        ensures { IsTrue result
            ↔ (captures_at self.now (key_of op.now) number ≡ false
            → (self.now.redone_low < number) × MayCome self.now number op.now) }
    {
        self.captures(number, op.key()) || self.is_next(number, op)
    }

    fn is_next(&self, number: u64, op: &Op) -> bool
        ensures { IsTrue result ↔ ((self.now.redone_low < number) × MayCome self.now number op.now) }
    {
        self.redone_low < number && self.may_come(number, op)
    }

    /// Whether each entry on the operation's key has a lower number, or both are Adds.
    fn may_come(&self, number: u64, op: &Op) -> bool
        ensures { IsTrue result ↔ MayCome self.now number op.now }
    {
        let place = self.system.place_of(op.key());
        follows_all(self.system.leaf(place).entries(), number, op)
    }

    /// Whether each low number is below this one.
    fn none_hidden(&self, number: u64) -> bool
        ensures { IsTrue result ↔ NoneHidden self.now number }
    {
        for place in 0..self.system.len() {
            if number <= self.system.leaf(place).low() {
                return false;
            }
        }
        true
    }

    /// Whether no leaf's entry has the number on another key.
    fn is_saved_on(&self, number: u64, key: &Key) -> bool
        ensures { IsTrue result ↔ IsSavedOn self.now number key.now }
    {
        for place in 0..self.system.len() {
            if !are_on(self.system.leaf(place).entries(), number, key) {
                return false;
            }
        }
        true
    }
}

/// Whether a number that is known for one key isn't asked for on another.
fn is_on(known: u64, its_key: &Key, number: u64, key: &Key) -> bool
    ensures { IsTrue result ↔ (known ≡ number → its_key.now ≡ key.now) }
{
    known != number || its_key == key
}

/// Whether an operation may follow all of these.
fn follows_all(entries: &Entries, number: u64, op: &Op) -> bool
    ensures { IsTrue result ↔ AllByRecursion (Follows number op.now) entries.now }
{
    for place in 0..entries.len() {
        if !follows(number, op, &entries.entry(place)) {
            return false;
        }
    }
    true
}

/// Whether an operation may follow another: on another key, above its number, or both being Adds.
fn follows(number: u64, op: &Op, entry: &Entry) -> bool
    ensures { IsTrue result ↔ Follows number op.now entry.now }
{
    entry.key != *op.key() || entry.number < number || (op.is_add() && was_added(&entry.answer))
}

fn was_added(answer: &Answer) -> bool
    ensures { result ≡ was_added answer.now }
{
    matches!(answer, Answer::Added(_))
}

/// Whether no entry has the number on another key.
fn are_on(entries: &Entries, number: u64, key: &Key) -> bool
    ensures { IsTrue result ↔ AllByRecursion (IsOn number key.now) entries.now }
{
    for place in 0..entries.len() {
        let entry = entries.entry(place);
        if !is_on(entry.number, &entry.key, number, key) {
            return false;
        }
    }
    true
}

fn has_numbers(request: &Request) -> bool
    ensures { IsTrue result ↔ HasRequestNumbers request.now }
{
    match request {
        Request::Connect { session, end } => are_numbers(*session, *end),
        Request::Perform {
            session,
            number,
            stable,
            ..
        } => are_numbers(*session, *number) && *stable < NUMBER_LIMIT,
        Request::Get { session, read, .. } => are_numbers(*session, *read),
        Request::Scan { session, read, .. } => are_numbers(*session, *read),
        Request::LowWater { session, low } => are_numbers(*session, *low),
        Request::Checkpoint { session, low } => are_numbers(*session, *low),
        Request::RedoEnd { session } => *session < NUMBER_LIMIT,
        Request::StableEnd { session, stable } => are_numbers(*session, *stable),
    }
}

fn are_numbers(session: u64, other: u64) -> bool
    ensures { IsTrue result ↔ ((session < 2 ^ 48) × (other < 2 ^ 48)) }
{
    session < NUMBER_LIMIT && other < NUMBER_LIMIT
}
