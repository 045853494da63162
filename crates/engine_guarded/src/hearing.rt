//! What a step is to a transaction.
ghost use Rattle.std.specs.Prelude.{◌≡◌};
ghost use Rattle.history.specs.History.{is_among};
ghost use Rattle.engine_history.specs.InFlightCalls.{in_flight_of, is_commit_logged, sent_on, serves};
ghost use Rattle.engine_history.specs.Failing.{failure_of};
ghost use Rattle.engine_history.specs.Sessions.{cuts_off, is_pending, live_after};
ghost use Rattle.engine_history.specs.node_sides.specs.tc_core.specs.Replies.{is_number};
ghost use Rattle.engine_guarded.specs.Hearing.{heard_to, heard_if};

use crate::heard::Heard;
use codec::Rows;
use engine_history::node_laws::{Event, Out};
use engine_history::{Failure, InFlight, copied_value};
use record_key::Refusal;
use std::sync::Wait;
use std::thread;

// The same rows again. Where memory is refused it is tried again until they are made.
fn copies<R: Wait>(rt: &R, rows: &Rows) -> Rows
    ensures { result ≡ rows.now }
{
    for _ in rt.forever() {
        if let Ok(copy) = rows.copied() {
            return copy;
        }
        thread::yield_now();
    }
    unreachable!()
}

// This line, if it is so.
fn heard_if(is: bool, heard: Heard) -> Option<Heard>
    ensures { result ≡ heard_if is heard }
{
    if is { Some(heard) } else { None }
}

// Whether the transaction is among them.
fn is_among(txn: u64, committed: &[u64]) -> bool
    ensures { result ≡ is_among txn committed.now }
{
    committed.contains(&txn)
}

/// The line that an output tells a transaction, if it tells it one.
pub(crate) fn heard_to<R: Wait>(rt: &R, txn: u64, out: &Out) -> Option<Heard>
    ensures { result ≡ heard_to txn out.now }
{
    match out {
        Out::Answered { txn: of, answer } => heard_if(*of == txn, Heard::Answer(answer.copied())),
        Out::Row { txn: of, value } => heard_if(*of == txn, Heard::Row(copied_value(value))),
        Out::Rows { txn: of, rows } => heard_if(*of == txn, Heard::Rows(copies(rt, rows))),
        Out::Back { txn: of, savepoint } => heard_if(*of == txn, Heard::Back(*savepoint)),
        Out::RolledBack(of) => heard_if(*of == txn, Heard::RolledBack),
        Out::Lost(of) => heard_if(*of == txn, Heard::Lost),
        Out::Stable { committed, .. } | Out::Connects { committed, .. } => {
            heard_if(is_among(txn, committed.as_slice()), Heard::Committed)
        }
        _ => None,
    }
}

// Whether the message on its way, if there is one, has this number.
fn is_number(message: Option<u64>, number: u64) -> bool
    ensures { result ≡ is_number message number }
{
    match message {
        Some(own) => own == number,
        None => false,
    }
}

/// Whether a step is made for this transaction.
pub(crate) fn serves(txn: u64, in_flight: &InFlight, event: &Event) -> bool
    ensures { result ≡ serves txn in_flight.now event.now }
{
    match event {
        Event::Send { txn: of } | Event::Undo { txn: of } => *of == txn,
        Event::Request { number } => is_number(in_flight.request, *number),
        Event::Reply { number } => is_number(in_flight.reply, *number),
        Event::Force => in_flight.commits,
        _ => false,
    }
}

/// What is on its way after a step that was made for a transaction.
pub(crate) fn sent_on(in_flight: InFlight, out: &Out) -> InFlight
    ensures { result ≡ sent_on in_flight out.now }
{
    match out {
        Out::Sent(number) => InFlight {
            request: Some(*number),
            reply: None,
            commits: in_flight.commits,
        },
        Out::Replied(number) => InFlight {
            request: in_flight.request,
            reply: Some(*number),
            commits: in_flight.commits,
        },
        _ => in_flight,
    }
}

/// What is on its way for a call that came to this: nothing is sent yet.
pub(crate) fn in_flight_of(out: &Out) -> InFlight
    ensures { result ≡ in_flight_of out.now }
{
    InFlight {
        request: None,
        reply: None,
        commits: is_commit_logged(out),
    }
}

fn is_commit_logged(out: &Out) -> bool
    ensures { result ≡ is_commit_logged out.now }
{
    matches!(out, Out::CommitLogged(_))
}

/// What a step failed by that came to this, if it did.
pub(crate) fn failure_of(out: &Out) -> Option<Failure>
    ensures { result ≡ failure_of out.now }
{
    match out {
        Out::Refused(Refusal::NoMemory) => Some(Failure::NoMemory),
        Out::Refused(Refusal::Device) => Some(Failure::Device),
        _ => None,
    }
}

/// Whether a call that came to this is told of later.
pub(crate) fn is_pending(out: &Out) -> bool
    ensures { result ≡ is_pending out.now }
{
    matches!(
        out,
        Out::Logged(_) | Out::Asked(_) | Out::RollingBack | Out::CommitLogged(_)
    )
}

/// The transaction whose lines are a session's once a call of its came to this.
pub(crate) fn live_after(live: Option<u64>, out: &Out) -> Option<u64>
    ensures { result ≡ live_after live out.now }
{
    match out {
        Out::Begun(txn) => Some(*txn),
        _ => live,
    }
}

/// Whether it cuts every session's transaction off.
pub(crate) fn cuts_off(event: &Event) -> bool
    ensures { result ≡ cuts_off event.now }
{
    matches!(event, Event::CrashTc { .. })
}
