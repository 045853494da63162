//! Requests of the transaction component to the data component.
ghost use Rattle.std.specs.Prelude.{◌≡◌, ◌↔◌, ◌+◌, ◌<◌, ◌≤◌, ◌^◌, ◌++◌, ℕ, List, length, drop, vec_len, vec_capacity, OnOk, OnErr, IfErr};
ghost use Rattle.codec.specs.declared.request.Request.{Request};
ghost use Rattle.codec.specs.Requests.{request_bytes, HasRequestNumbers, IsRequest};
ghost use Rattle.codec.specs.Frames.{frame, any_length, IfTaken, IfBad, IsThere, IsCut};
ghost use Rattle.codec.specs.Writing.{HasRoom, Puts};
ghost use Rattle.codec.specs.Reading.{Gives, pair, mapped, optional_at, number_at, key_at, op_at, request_at};

use crate::frame::{HEADER_LEN, take_framed};
use crate::framed::Framed;
use crate::lengths::{key_len, op_len, range_len};
use crate::reading::{take_key, take_number, take_op, take_optional_key};
use crate::taken::Taken;
use crate::writing::{put_head, put_long_head, put_number, put_op, put_optional_key, put_text};
use record_key::{Key, Op, Refusal};
use std::convert::Infallible;

/// A request of a session. Requests of other sessions than the last that connected are stale.
#[derive(Debug, PartialEq, Eq, Drop)]
pub enum Request {
    /// The session begins. Each operation numbered above `end` was lost, and what it did is taken back.
    Connect {
        session: u64,
        end: u64,
    },
    /// Do the operation, unless it was done under this number before. No record up to `stable` can be lost.
    Perform {
        session: u64,
        number: u64,
        stable: u64,
        op: Op,
    },
    /// The value at the key.
    Get {
        session: u64,
        read: u64,
        key: Key,
    },
    /// The rows from `low` on, below `high` where there is one.
    Scan {
        session: u64,
        read: u64,
        low: Key,
        high: Option<Key>,
    },
    /// No number up to `low` is sent again.
    LowWater {
        session: u64,
        low: u64,
    },
    /// Make the effects of each number up to `low` stable.
    Checkpoint {
        session: u64,
        low: u64,
    },
    /// The operations of earlier sessions have all been sent again.
    RedoEnd {
        session: u64,
    },
    /// No record up to `stable` can be lost.
    StableEnd {
        session: u64,
        stable: u64,
    },
}

/// Appends the request's frame, its one spelling. Where memory for it is refused nothing is appended.
#[tactic(auto, using(crate::proofs::Numbered::number_lengths))]
pub fn put_request(out: &mut Vec<u8>, request: &Request) -> Result<(), Refusal>
    requires { HasRequestNumbers request.now }
    ensures spelling { OnOk result (out.new.items ≡ out.old.items ++ frame (request_bytes request.now)) }
    ensures refused { OnErr result (out.new.items ≡ out.old.items) }
    ensures cause { IfErr result (λ refusal. refusal ≡ Refusal.NoMemory) }
    ensures room { OnErr result (vec_capacity out.old < vec_len out.old + length (frame (request_bytes request.now))) }
    ensures has_spelling { IsRequest request.now }
    ensures short { length (frame (request_bytes request.now)) ≤ 264 }
{
    let length = body_len(request);
    out.reserve(HEADER_LEN + length)?;
    put_number(out, length as u64);
    put_body(out, request);
    Ok(())
}

/// The request whose frame begins at a place, and the place after it. Takes no memory.
pub fn take_request(bytes: &[u8], at: usize) -> Taken<Request>
    // What is taken stands there.
    ensures found { IfTaken result (IsThere Request request_bytes IsRequest at (drop at bytes.now)) }
    // What stands there is taken, whatever follows.
    ensures only { (r : Request) (rest : List ℕ) → IsRequest r → drop at bytes.now ≡ frame (request_bytes r) ++ rest
        → result ≡ Taken.Record r (at + length (frame (request_bytes r))) }
    ensures short { (result ≡ Taken.Short) ↔ IsCut any_length (drop at bytes.now) }
    ensures bad { IfBad result (λ place. place ≡ at) }
{
    let Ok(taken) = take_framed((), bytes, at, u64::MAX);
    taken
}

/// No request's frame begins another's, so what was written is read back, whatever follows it.
pub fn request_spelling_law()
    ensures { (a b : Request) (x y : List ℕ) → IsRequest a → IsRequest b
        → frame (request_bytes a) ++ x ≡ frame (request_bytes b) ++ y → (a ≡ b) × (x ≡ y) }
{}

#[tactic(auto, unfolding(crate::specs::Requests::request_bytes), using(crate::proofs::Numbered::number_lengths))]
fn body_len(request: &Request) -> usize
    requires { HasRequestNumbers request.now }
    ensures len { result ≡ length (request_bytes request.now) }
    ensures bounded { result ≤ 256 }
    ensures spelled { IsRequest request.now }
{
    match request {
        Request::RedoEnd { .. } => 9,
        Request::Perform { op, .. } => 25 + op_len(op),
        Request::Get { key, .. } => 17 + key_len(key),
        Request::Scan { low, high, .. } => 17 + range_len(low, high.as_ref()),
        Request::Connect { .. }
        | Request::LowWater { .. }
        | Request::Checkpoint { .. }
        | Request::StableEnd { .. } => 17,
    }
}

#[tactic(auto, unfolding(crate::specs::Requests::request_bytes))]
fn put_body(out: &mut Vec<u8>, request: &Request)
    requires { HasRoom out.old (request_bytes request.now) }
    ensures { Puts out.old out.new (request_bytes request.now) }
{
    match request {
        Request::Connect { session, end } => put_long_head(out, 1, *session, *end),
        Request::Perform {
            session,
            number,
            stable,
            op,
        } => {
            put_long_head(out, 2, *session, *number);
            put_number(out, *stable);
            put_op(out, op);
        }
        Request::Get { session, read, key } => {
            put_long_head(out, 3, *session, *read);
            put_text(out, key.as_bytes());
        }
        Request::Scan {
            session,
            read,
            low,
            high,
        } => {
            put_long_head(out, 4, *session, *read);
            put_text(out, low.as_bytes());
            put_optional_key(out, high.as_ref());
        }
        Request::LowWater { session, low } => put_long_head(out, 5, *session, *low),
        Request::Checkpoint { session, low } => put_long_head(out, 6, *session, *low),
        Request::RedoEnd { session } => put_head(out, 7, *session),
        Request::StableEnd { session, stable } => put_long_head(out, 8, *session, *stable),
    }
}

fn take_perform<'a>(bytes: &'a [u8], request: &mut Request) -> Option<&'a [u8]>
    ensures { Gives (λ rest. (request.new, rest.now)) result
        (mapped (λ p. Request.Perform p.0 p.1.0 p.1.1.0 p.1.1.1)
        (pair number_at (pair number_at (pair number_at op_at))) bytes.now) }
{
    let (session, rest) = take_number(bytes)?;
    let (number, rest) = take_number(rest)?;
    let (stable, rest) = take_number(rest)?;
    let mut op = None;
    let rest = take_op(rest, &mut op)?;
    let op = op?;
    *request = Request::Perform {
        session,
        number,
        stable,
        op,
    };
    Some(rest)
}

fn take_scan<'a>(bytes: &'a [u8], request: &mut Request) -> Option<&'a [u8]>
    ensures { Gives (λ rest. (request.new, rest.now)) result (mapped (λ p. Request.Scan p.0 p.1.0 p.1.1.0 p.1.1.1)
        (pair number_at (pair number_at (pair key_at (optional_at key_at)))) bytes.now) }
{
    let (session, rest) = take_number(bytes)?;
    let (read, rest) = take_number(rest)?;
    let (low, rest) = take_key(rest)?;
    let (high, rest) = take_optional_key(rest)?;
    *request = Request::Scan {
        session,
        read,
        low,
        high,
    };
    Some(rest)
}

#[tactic(auto, unfolding(crate::specs::Reading::request_at))]
fn take_fields<'a>(bytes: &'a [u8], request: &mut Request) -> Option<&'a [u8]>
    ensures { Gives (λ rest. (request.new, rest.now)) result (request_at bytes.now) }
{
    let (kind, rest) = bytes.split_first()?;
    match *kind {
        1 => {
            let (session, rest) = take_number(rest)?;
            let (end, rest) = take_number(rest)?;
            *request = Request::Connect { session, end };
            Some(rest)
        }
        2 => take_perform(rest, request),
        3 => {
            let (session, rest) = take_number(rest)?;
            let (read, rest) = take_number(rest)?;
            let (key, rest) = take_key(rest)?;
            *request = Request::Get { session, read, key };
            Some(rest)
        }
        4 => take_scan(rest, request),
        5 => {
            let (session, rest) = take_number(rest)?;
            let (low, rest) = take_number(rest)?;
            *request = Request::LowWater { session, low };
            Some(rest)
        }
        6 => {
            let (session, rest) = take_number(rest)?;
            let (low, rest) = take_number(rest)?;
            *request = Request::Checkpoint { session, low };
            Some(rest)
        }
        7 => {
            let (session, rest) = take_number(rest)?;
            *request = Request::RedoEnd { session };
            Some(rest)
        }
        8 => {
            let (session, rest) = take_number(rest)?;
            let (stable, rest) = take_number(rest)?;
            *request = Request::StableEnd { session, stable };
            Some(rest)
        }
        _ => None,
    }
}

impl Framed for Request {
    ghost use Rattle.codec.specs.Reading.{request_at};

    ghost read_at = { request_at };

    ghost takes_memory = { λ _. ⊥ };

    type Memory = ();

    type Refused = Infallible;

    fn blank() -> Request {
        Request::RedoEnd { session: 0 }
    }

    fn take_all(_memory: (), body: &[u8], request: &mut Request) -> Result<bool, Infallible> {
        match take_fields(body, request) {
            Some(rest) => Ok(rest.is_empty()),
            None => Ok(false),
        }
    }
}
