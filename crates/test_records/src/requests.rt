//! Requests.
ghost use Rattle.codec.specs.Requests.{HasRequestNumbers};

use crate::walking::{Found, Reading};
use crate::written::{marked, told, unwritten};
use codec::{Asking, Request, Taken, asking_at, put_get, put_request, reading_at, take_request};
use record_key::{Change, Key, Op, Refusal};
use std::fmt::Write;
use test_lines::{put_key, put_op};

#[tactic(auto, using(codec::proofs::Requests::request_fits))]
pub fn read(reading: &Reading<'_>, answer: &mut String) -> Result<Found, Refusal> {
    match take_request(reading.bytes, reading.at) {
        Taken::Record(found, next) => {
            let out = written(reading, &found)?;
            if reading.tells {
                put_fields(answer, &found)?;
            }
            compare_apart(reading, &found, &out, answer)?;
            told(reading, next, &out, answer)
        }
        Taken::Short => Ok(Found::Short),
        Taken::Bad(place) => Ok(Found::Bad(place)),
    }
}

/// What is written of it behind the mark. Refused NoMemory.
fn written(reading: &Reading<'_>, found: &Request) -> Result<Vec<u8>, Refusal>
    requires { HasRequestNumbers found.now }
{
    let mut out = marked(reading)?;
    match put_request(&mut out, found) {
        Ok(()) => Ok(out),
        Err(refusal) => Err(unwritten(refusal, &out)),
    }
}

/// Tells where it is read otherwise with its operation or its key apart, or one to read a key is written otherwise so.
fn compare_apart(
    reading: &Reading<'_>,
    found: &Request,
    written: &[u8],
    answer: &mut String,
) -> Result<(), Refusal>
    requires { HasRequestNumbers found.now }
{
    let mut is_same = is_asked(reading, found) && is_read(reading, found);
    if let Request::Get { session, read, key } = found {
        let mut out = marked(reading)?;
        if let Err(refusal) = put_get(&mut out, *session, *read, key) {
            return Err(unwritten(refusal, &out));
        }
        is_same = is_same && out.as_slice() == written;
    }
    if !is_same {
        answer.push_str(" but apart otherwise")?;
    }
    Ok(())
}

fn is_asked(reading: &Reading<'_>, found: &Request) -> bool {
    let mut key = None;
    let asked = asking_at(reading.bytes, reading.at, &mut key);
    let Request::Perform {
        session,
        number,
        stable,
        op,
    } = found
    else {
        return asked.is_none();
    };
    let numbers = Asking {
        session: *session,
        number: *number,
        stable: *stable,
    };
    match (asked, key) {
        (Some((asking, change)), Some(key)) => asking == numbers && does(op, &key, &change),
        _ => false,
    }
}

/// Whether the operation does this to the record of this key.
fn does(op: &Op, key: &Key, change: &Change<'_>) -> bool {
    let is_change = match (op, change) {
        (Op::Insert(_, value), Change::Insert(given))
        | (Op::Update(_, value), Change::Update(given))
        | (Op::Upsert(_, value), Change::Upsert(given)) => value.as_bytes() == given.as_bytes(),
        (Op::Delete(_), Change::Delete) => true,
        (Op::Add(_, amount), Change::Add(given)) => amount == given,
        _ => false,
    };
    is_change && op.key() == key
}

fn is_read(reading: &Reading<'_>, found: &Request) -> bool {
    let mut key = None;
    let numbers = reading_at(reading.bytes, reading.at, &mut key);
    match (numbers, key) {
        (Some(numbers), Some(key)) => {
            let (session, read) = (numbers.session, numbers.read);
            *found == Request::Get { session, read, key }
        }
        (Some(_), None) => false,
        (None, _) => !matches!(found, Request::Get { .. }),
    }
}

fn put_range(answer: &mut String, low: &Key, high: &Option<Key>) -> Result<(), Refusal> {
    put_key(answer, " from", low)?;
    if let Some(high) = high {
        put_key(answer, " to", high)?;
    }
    Ok(())
}

fn put_fields(answer: &mut String, request: &Request) -> Result<(), Refusal> {
    match request {
        Request::Connect { session, end } => write!(answer, "connect session {session} end {end}")?,
        Request::Perform {
            session,
            number,
            stable,
            op,
        } => {
            write!(
                answer,
                "perform session {session} number {number} stable {stable} "
            )?;
            put_op(answer, op)?;
        }
        Request::Get { session, read, key } => {
            write!(answer, "get session {session} read {read}")?;
            put_key(answer, " key", key)?;
        }
        Request::Scan {
            session,
            read,
            low,
            high,
        } => {
            write!(answer, "scan session {session} read {read}")?;
            put_range(answer, low, high)?;
        }
        Request::LowWater { session, low } => {
            write!(answer, "lowwater session {session} low {low}")?;
        }
        Request::Checkpoint { session, low } => {
            write!(answer, "checkpoint session {session} low {low}")?;
        }
        Request::RedoEnd { session } => write!(answer, "redoend session {session}")?,
        Request::StableEnd { session, stable } => {
            write!(answer, "stableend session {session} stable {stable}")?;
        }
    }
    Ok(())
}
