//! Replies.
ghost use Rattle.std.specs.Prelude.{ℕ, drop};
ghost use Rattle.codec.specs.declared.reply.Reply.{Reply as ReplyValue};
ghost use Rattle.codec.specs.Frames.{IsThere};
ghost use Rattle.codec.specs.Replies.{reply_bytes, IsOrdered, IsReply};

use crate::rows::put_rows;
use crate::walking::{Found, Reading};
use crate::written::{marked, told, unwritten};
use codec::{
    Reply, Taken, answered_at, found_at, kept_rows, put_answered, put_found, put_reply,
    reply_session, take_reply,
};
use record_key::{Answer, Refusal, Value};
use std::fmt::Write;
use test_lines::{put_answer, put_text};

#[tactic(auto, using(crate::proofs::Ordered::is_ordered))]
pub fn read(reading: &Reading<'_>, answer: &mut String) -> Result<Found, Refusal> {
    let taken = take_reply(reading.alloc, reading.bytes, reading.at)?;
    match taken {
        Taken::Record(found, next) => {
            let out = written(reading, &found)?;
            put_told(reading, answer, &found)?;
            compare_apart(reading, &found, &out, answer)?;
            compare_kept(reading, &found, answer)?;
            told(reading, next, &out, answer)
        }
        Taken::Short => Ok(Found::Short),
        Taken::Bad(place) => Ok(Found::Bad(place)),
    }
}

/// What is written of it behind the mark. Refused NoMemory.
fn written(reading: &Reading<'_>, found: &Reply) -> Result<Vec<u8>, Refusal>
    requires { IsOrdered found.now }
{
    let mut out = marked(reading)?;
    match put_reply(&mut out, found) {
        Ok(()) => Ok(out),
        Err(refusal) => Err(unwritten(refusal, &out)),
    }
}

/// Tells where a reply that answers is read or written otherwise with its answer apart, or one to a read with its value.
fn compare_apart(
    reading: &Reading<'_>,
    found: &Reply,
    written: &[u8],
    answer: &mut String,
) -> Result<(), Refusal>
    requires { IsOrdered found.now }
{
    let mut is_same = is_answered(reading, found) && is_found(reading, found);
    if let Some(out) = written_apart(reading, found)? {
        is_same = is_same && out.as_slice() == written;
    }
    if !is_same {
        answer.push_str(" but apart otherwise")?;
    }
    Ok(())
}

/// What is written of it behind the mark with its answer or its value apart. Refused NoMemory.
fn written_apart(reading: &Reading<'_>, found: &Reply) -> Result<Option<Vec<u8>>, Refusal>
    requires { IsOrdered found.now }
{
    let mut out = marked(reading)?;
    let put = match found {
        Reply::Answered {
            session,
            number,
            answer: None,
        } => put_answered(&mut out, *session, *number, None),
        Reply::Answered {
            session,
            number,
            answer: Some(given),
        } => put_answered(&mut out, *session, *number, Some(&given.lent())),
        Reply::Row {
            session,
            read,
            value: None,
        } => put_found(&mut out, *session, *read, None),
        Reply::Row {
            session,
            read,
            value: Some(value),
        } => put_found(&mut out, *session, *read, Some(&value.lent())),
        _ => return Ok(None),
    };
    match put {
        Ok(()) => Ok(Some(out)),
        Err(refusal) => Err(unwritten(refusal, &out)),
    }
}

/// Tells where its rows are read otherwise without a look at them.
fn compare_kept(reading: &Reading<'_>, found: &Reply, answer: &mut String) -> Result<(), Refusal>
    requires { (next : ℕ) × IsThere ReplyValue reply_bytes IsReply reading.now.at
        (drop reading.now.at reading.now.bytes.now) found.now next }
{
    let kept = kept_rows(reading.alloc, reading.bytes, reading.at)?;
    if !are_same(&kept, found) {
        answer.push_str(" but kept otherwise")?;
    }
    Ok(())
}

fn are_same(kept: &Option<Reply>, found: &Reply) -> bool {
    let Reply::Rows {
        session,
        read,
        rows,
    } = found
    else {
        return kept.is_none();
    };
    match kept {
        Some(
            Reply::Rows {
                session: of,
                read: number,
                rows: same,
            },
        ) => of == session && number == read && same == rows,
        _ => false,
    }
}

fn is_answered(reading: &Reading<'_>, found: &Reply) -> bool {
    let answered = answered_at(reading.bytes, reading.at);
    let Reply::Answered {
        number,
        answer: given,
        ..
    } = found
    else {
        return answered.is_none();
    };
    match (answered, given) {
        (Some((of, None)), None) => of == *number,
        (Some((of, Some(held))), Some(given)) => of == *number && held.owned() == *given,
        _ => false,
    }
}

fn is_found(reading: &Reading<'_>, found: &Reply) -> bool {
    let mut value = None;
    let of = found_at(reading.bytes, reading.at, &mut value);
    match found {
        Reply::Row {
            read,
            value: given,
            ..
        } => of == Some(*read) && value == *given,
        _ => of.is_none(),
    }
}

/// Tells the reply, and where its session is found to be another one without its rows.
fn put_told(reading: &Reading<'_>, answer: &mut String, reply: &Reply) -> Result<(), Refusal> {
    if reading.tells {
        put_fields(answer, reply)?;
    }
    if reply_session(reading.bytes, reading.at) != Some(reply.session()) {
        answer.push_str(" of another session")?;
    }
    Ok(())
}

fn put_fields(answer: &mut String, reply: &Reply) -> Result<(), Refusal> {
    match reply {
        Reply::Connected { session } => write!(answer, "connected session {session}")?,
        Reply::Answered {
            session,
            number,
            answer: given,
        } => {
            write!(answer, "answered session {session} number {number} ")?;
            put_given(answer, given)?;
        }
        Reply::Row {
            session,
            read,
            value,
        } => {
            write!(answer, "row session {session} read {read} ")?;
            put_value(answer, value)?;
        }
        Reply::Rows {
            session,
            read,
            rows,
        } => {
            write!(answer, "rows session {session} read {read}")?;
            put_rows(answer, rows)?;
        }
        Reply::Checkpointed { session, low } => {
            write!(answer, "checkpointed session {session} low {low}")?;
        }
        Reply::RedoEnded { session } => write!(answer, "redoended session {session}")?,
    }
    Ok(())
}

fn put_given(answer: &mut String, given: &Option<Answer>) -> Result<(), Refusal> {
    match given {
        Some(given) => put_answer(answer, given),
        None => Ok(answer.push('-')?),
    }
}

fn put_value(answer: &mut String, value: &Option<Value>) -> Result<(), Refusal> {
    match value {
        Some(value) => put_text(answer, value.as_bytes()),
        None => Ok(answer.push('-')?),
    }
}
