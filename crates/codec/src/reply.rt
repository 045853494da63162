//! Replies of the data component to the transaction component.
ghost use Rattle.std.specs.Prelude.{Some, false, ◌≡◌, ◌≢◌, ◌↔◌, ◌+◌, ◌<◌, ◌≤◌, ◌^◌, ◌++◌, ℕ, List, length, drop, vec_len, vec_capacity, slice_index, OnOk, OnErr, IfOk, IfErr, IsErrOf, IfSome, IfNone, OnSome};
ghost use Rattle.std.specs.Option.{option_copied, option_map};
ghost use Rattle.record_key.specs.Lent.{answer_lent};
ghost use Rattle.codec.specs.declared.reply.Reply.{Reply};
ghost use Rattle.codec.specs.Replies.{reply_bytes, session_of, has_rows, IsOrdered, IsReply};
ghost use Rattle.codec.specs.Frames.{frame, any_length, IfTaken, IfBad, IsThere, IsCut, IsFrameOf, HasKind};
ghost use Rattle.codec.specs.Writing.{HasRoom, Puts};
ghost use Rattle.codec.specs.Reading.{Gives, Finds, IfRefused, pair, mapped, optional_at, number_at, answer_at};
ghost use Rattle.codec.specs.Reading.{choose, reply_choices, reply_at};

use crate::fault::Fault;
use crate::frame::{HEADER_LEN, left_at, take_framed};
use crate::framed::Framed;
use crate::lengths::{optional_answer_len, optional_value_len};
use crate::reading::{take_number, take_optional_answer, take_optional_value};
use crate::rows::{Rows, put_rows, rows_len, take_rows};
use crate::taken::Taken;
use crate::writing::{
    put_head, put_long_head, put_number, put_optional_answer, put_optional_value,
};
use record_key::{Answer, AnswerRef, Refusal, Value, ValueRef};
use std::alloc::{AllocError, Global};

/// A reply to a request of the same session.
#[derive(Debug, Drop)]
pub enum Reply {
    /// The session has begun.
    Connected {
        session: u64,
    },
    /// The operation of this number was done. No answer: it is no longer kept.
    Answered {
        session: u64,
        number: u64,
        answer: Option<Answer>,
    },
    /// The value that a Get found.
    Row {
        session: u64,
        read: u64,
        value: Option<Value>,
    },
    /// The rows that a Scan found, with rising keys.
    Rows {
        session: u64,
        read: u64,
        rows: Rows,
    },
    /// The effects of each number up to `low` are stable.
    Checkpointed {
        session: u64,
        low: u64,
    },
    /// The end of the operations of earlier sessions is noted.
    RedoEnded {
        session: u64,
    },
}

impl Reply {
    /// The session that it is of.
    pub fn session(&self) -> u64
        ensures { result ≡ session_of self.now }
    {
        match self {
            Reply::Connected { session }
            | Reply::Answered { session, .. }
            | Reply::Row { session, .. }
            | Reply::Rows { session, .. }
            | Reply::Checkpointed { session, .. }
            | Reply::RedoEnded { session } => *session,
        }
    }
}

/// Appends the reply's frame, its one spelling. Where memory for it is refused nothing is appended.
#[tactic(auto, using(crate::proofs::Numbered::number_lengths))]
pub fn put_reply(out: &mut Vec<u8>, reply: &Reply) -> Result<(), Refusal>
    requires { IsOrdered reply.now }
    ensures spelling { OnOk result (out.new.items ≡ out.old.items ++ frame (reply_bytes reply.now)) }
    ensures has_spelling { OnOk result (IsReply reply.now) }
    ensures bounded { OnOk result (length (reply_bytes reply.now) < 2 ^ 64) }
    ensures refused { OnErr result (out.new.items ≡ out.old.items) }
    ensures cause { IfErr result (λ refusal. refusal ≡ Refusal.NoMemory) }
    ensures room { OnErr result (vec_capacity out.old < vec_len out.old + length (frame (reply_bytes reply.now))) }
    ensures short { has_rows reply.now ≡ false → length (frame (reply_bytes reply.now)) ≤ 264 }
{
    let Some(length) = frame_len(reply) else {
        return Err(Refusal::NoMemory);
    };
    out.reserve(length)?;
    put_number(out, (length - HEADER_LEN) as u64);
    put_body(out, reply);
    Ok(())
}

/// The reply whose frame begins at a place, and the place after it. Only rows take memory.
pub fn take_reply(alloc: Global, bytes: &[u8], at: usize) -> Result<Taken<Reply>, Refusal>
    // What is taken stands there.
    ensures found { IfOk result (λ taken. IfTaken taken (IsThere Reply reply_bytes IsReply at (drop at bytes.now))) }
    // What stands there is taken, whatever follows.
    ensures only { IfOk result (λ taken. (r : Reply) (rest : List ℕ) → IsReply r
        → drop at bytes.now ≡ frame (reply_bytes r) ++ rest
        → taken ≡ Taken.Record r (at + length (frame (reply_bytes r)))) }
    ensures short { IfOk result (λ taken. (taken ≡ Taken.Short) ↔ IsCut any_length (drop at bytes.now)) }
    ensures bad { IfOk result (λ taken. IfBad taken (λ place. place ≡ at)) }
    ensures cause { IfErr result (λ refusal. refusal ≡ Refusal.NoMemory) }
    // Memory is refused only for a whole frame of the kind that has rows.
    ensures memory { IfErr result (λ _. IsFrameOf any_length (HasKind 20) (drop at bytes.now)) }
{
    let taken = take_framed(alloc, bytes, at, u64::MAX)?;
    Ok(taken)
}

/// The session of the reply whose frame begins at a place, of any kind. Takes no memory, which the rows of a reply do.
pub fn reply_session(bytes: &[u8], at: usize) -> Option<u64>
    ensures { (r : Reply) (rest : List ℕ) → IsReply r → drop at bytes.now ≡ frame (reply_bytes r) ++ rest
        → result ≡ Some (session_of r) }
{
    // One byte of kind stands before it.
    Some(take_number(left_at(left_at(bytes, at), HEADER_LEN + 1))?.0)
}

/// How many bytes the reply's frame takes. None where that is 2 to the power of 64 or more.
#[tactic(auto, unfolding(crate::specs::Replies::reply_bytes), using(crate::proofs::Numbered::number_lengths))]
fn frame_len(reply: &Reply) -> Option<usize>
    requires { IsOrdered reply.now }
    ensures some { IfSome result (λ len. len ≡ 8 + length (reply_bytes reply.now)) }
    ensures spelled { OnSome result (IsReply reply.now) }
    ensures none { IfNone result (2 ^ 64 ≤ 8 + length (reply_bytes reply.now)) }
    ensures short { has_rows reply.now ≡ false → 8 + length (reply_bytes reply.now) ≤ 264 }
{
    match reply {
        Reply::Connected { .. } | Reply::RedoEnded { .. } => Some(17),
        Reply::Answered { answer, .. } => Some(25 + optional_answer_len(answer)),
        Reply::Row { value, .. } => Some(25 + optional_value_len(lent(value).as_ref())),
        Reply::Rows { rows, .. } => {
            let Some(len) = rows_len(&rows.lent()) else {
                return None;
            };
            len.checked_add(25)
        }
        Reply::Checkpointed { .. } => Some(25),
    }
}

#[tactic(auto, unfolding(crate::specs::Replies::reply_bytes))]
fn put_body(out: &mut Vec<u8>, reply: &Reply)
    requires { HasRoom out.old (reply_bytes reply.now) }
    ensures { Puts out.old out.new (reply_bytes reply.now) }
{
    match reply {
        Reply::Connected { session } => put_head(out, 0x11, *session),
        Reply::Answered {
            session,
            number,
            answer,
        } => {
            put_long_head(out, 0x12, *session, *number);
            put_optional_answer(out, answer);
        }
        Reply::Row {
            session,
            read,
            value,
        } => {
            put_long_head(out, 0x13, *session, *read);
            put_optional_value(out, lent(value).as_ref());
        }
        Reply::Rows {
            session,
            read,
            rows,
        } => {
            put_long_head(out, ROWS, *session, *read);
            put_rows(out, &rows.lent());
        }
        Reply::Checkpointed { session, low } => put_long_head(out, 0x15, *session, *low),
        Reply::RedoEnded { session } => put_head(out, 0x16, *session),
    }
}

/// The kind of a reply that has rows.
pub(crate) const ROWS: u8 = 0x14;

/// The value, lent, if there is one.
fn lent(value: &Option<Value>) -> Option<ValueRef<'_>>
    ensures { result ≡ value.now }
{
    match value {
        Some(value) => Some(value.lent()),
        None => None,
    }
}

/// An answer of its own, if there is one.
fn owned(answer: Option<&AnswerRef<'_>>) -> Option<Answer>
    ensures { result ≡ option_map answer_lent (option_copied answer.entry) }
{
    match answer {
        None => None,
        Some(answer) => Some(answer.owned()),
    }
}

fn take_answered<'a>(bytes: &'a [u8], reply: &mut Reply) -> Option<&'a [u8]>
    ensures { Gives (λ rest. (reply.new, rest.now)) result (mapped (λ p. Reply.Answered p.0 p.1.0 p.1.1)
        (pair number_at (pair number_at (optional_at answer_at))) bytes.now) }
{
    let (session, rest) = take_number(bytes)?;
    let (number, rest) = take_number(rest)?;
    let (answer, rest) = take_optional_answer(rest)?;
    *reply = Reply::Answered {
        session,
        number,
        answer: owned(answer.as_ref()),
    };
    Some(rest)
}

/// The fields of a kind that takes no memory.
fn take_plain<'a>(kind: u8, bytes: &'a [u8], reply: &mut Reply) -> Option<&'a [u8]>
    requires { kind ≢ 20 }
    ensures { Gives (λ rest. (reply.new, rest.now)) result (choose reply_choices kind bytes.now) }
{
    match kind {
        0x11 => {
            let (session, rest) = take_number(bytes)?;
            *reply = Reply::Connected { session };
            Some(rest)
        }
        0x12 => take_answered(bytes, reply),
        0x13 => {
            let (session, rest) = take_number(bytes)?;
            let (read, rest) = take_number(rest)?;
            let mut value = None;
            let rest = take_optional_value(rest, &mut value)?;
            *reply = Reply::Row {
                session,
                read,
                value,
            };
            Some(rest)
        }
        0x15 => {
            let (session, rest) = take_number(bytes)?;
            let (low, rest) = take_number(rest)?;
            *reply = Reply::Checkpointed { session, low };
            Some(rest)
        }
        0x16 => {
            let (session, rest) = take_number(bytes)?;
            *reply = Reply::RedoEnded { session };
            Some(rest)
        }
        _ => None,
    }
}

/// The session and the read number of rows.
pub(crate) fn take_read(bytes: &[u8]) -> Option<((u64, u64), &[u8])>
    ensures { Gives (λ x. (x.0, x.1.now)) result (pair number_at number_at bytes.now) }
{
    let (session, rest) = take_number(bytes)?;
    let (read, rest) = take_number(rest)?;
    Some(((session, read), rest))
}

/// No reply's frame begins another's, so what was written is read back, whatever follows it.
pub fn reply_spelling_law()
    ensures { (a b : Reply) (x y : List ℕ) → IsReply a → IsReply b
        → length (reply_bytes a) < 2 ^ 64 → length (reply_bytes b) < 2 ^ 64
        → frame (reply_bytes a) ++ x ≡ frame (reply_bytes b) ++ y → (a ≡ b) × (x ≡ y) }
{}

#[tactic(auto, unfolding(crate::specs::Reading::reply_at))]
fn take_fields<'a>(alloc: Global, bytes: &'a [u8], reply: &mut Reply) -> Result<&'a [u8], Fault>
    ensures found { Finds (λ rest. (reply.new, rest.now)) result (reply_at bytes.now) }
    ensures memory { IfRefused result (HasKind 20 bytes.now) }
{
    let Some((kind, rest)) = bytes.split_first() else {
        return Err(Fault::Outside);
    };
    if *kind != ROWS {
        return match take_plain(*kind, rest, reply) {
            Some(rest) => Ok(rest),
            None => Err(Fault::Outside),
        };
    }
    let Some(((session, read), rest)) = take_read(rest) else {
        return Err(Fault::Outside);
    };
    let (rows, rest) = take_rows(alloc, rest)?;
    *reply = Reply::Rows {
        session,
        read,
        rows,
    };
    Ok(rest)
}

impl Framed for Reply {
    ghost use Rattle.codec.specs.Frames.{HasKind};
    ghost use Rattle.codec.specs.Reading.{reply_at};

    ghost read_at = { reply_at };

    ghost takes_memory = { HasKind 20 };

    type Memory = Global;

    type Refused = AllocError;

    fn blank() -> Reply {
        Reply::RedoEnded { session: 0 }
    }

    fn take_all(memory: Global, body: &[u8], reply: &mut Reply) -> Result<bool, AllocError> {
        match take_fields(memory, body, reply) {
            Ok(rest) => Ok(rest.is_empty()),
            Err(Fault::Outside) => Ok(false),
            Err(Fault::Memory) => Err(AllocError),
        }
    }
}
