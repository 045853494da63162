//! Requests to perform and replies that answer, apart from the messages around them: a large value that is handed on in
//! a message is copied at each hand-over, and here it is lent.
ghost use Rattle.std.specs.Prelude.{◌≡◌, ◌+◌, ◌<◌, ◌≤◌, ◌++◌, ℕ, List, length, drop, Some, vec_len, vec_capacity, IsSome, OnOk, OnErr, OnSome, IfErr};
ghost use Rattle.std.specs.Option.{option_copied, option_map};
ghost use Rattle.record_key.specs.Lent.{op_on, answer_lent};
ghost use Rattle.codec.specs.declared.request.Request.{Request};
ghost use Rattle.codec.specs.declared.reply.Reply.{Reply};
ghost use Rattle.codec.specs.declared.reply.Reply.TheVariants as says;
ghost use Rattle.codec.specs.Fields.{IsNumber};
ghost use Rattle.codec.specs.Frames.{frame, any_length};
ghost use Rattle.codec.specs.Parted.{asking_of, answered_of, asked_with, asked_parts};
ghost use Rattle.codec.specs.Given.{answer_given};
ghost use Rattle.codec.specs.Reading.{Gives, pair, mapped, number_at, op_at};
ghost use Rattle.codec.specs.Replies.{reply_bytes, IsReply};
ghost use Rattle.codec.specs.Requests.{request_bytes, IsRequest};

use crate::frame::{HEADER_LEN, left_at, take_body};
use crate::lengths::answer_len;
use crate::reading::{take_change, take_number};
use crate::spelled_answer::{GivenAnswer, take_optional_spelled};
use crate::taken::Taken;
use crate::writing::{put_answer, put_byte, put_long_start};
use record_key::{AnswerRef, Change, Key, Refusal};

/// The numbers of a request to perform an operation.
#[derive(Debug, Clone, Copy, PartialEq, Eq)]
pub struct Asking {
    pub session: u64,
    pub number: u64,
    /// No record up to this number can be lost.
    pub stable: u64,
}

/// The request to perform whose frame begins at a place: what it does to the record of its key, lent, and the key is put
/// in `key`. None where another request's frame begins there; what `key` has then is not said. Takes no memory.
pub fn asking_at<'a>(
    bytes: &'a [u8],
    at: usize,
    key: &mut Option<Key>,
) -> Option<(Asking, Change<'a>)>
    ensures asked { (r : Request) (rest : List ℕ) → IsRequest r → drop at bytes.now ≡ frame (request_bytes r) ++ rest
        → asked_with result key.new ≡ asking_of r }
    ensures key { OnSome result (IsSome key.new) }
{
    match take_body(bytes, at, u64::MAX) {
        Taken::Record(body, _) => asking_in(body, key),
        Taken::Short | Taken::Bad(_) => None,
    }
}

/// The same of a request's body.
fn asking_in<'a>(body: &'a [u8], key: &mut Option<Key>) -> Option<(Asking, Change<'a>)>
    ensures asked { (r : Request) → IsRequest r → body.now ≡ request_bytes r
        → asked_with result key.new ≡ asking_of r }
    ensures key { OnSome result (IsSome key.new) }
{
    let (kind, rest) = body.split_first()?;
    if *kind != 2 {
        return None;
    }
    let (asked, _) = take_asked(rest, key)?;
    Some(asked)
}

/// A request's numbers and what it does to the record of its key, which is put in `key`, and the bytes after them.
fn take_asked<'a>(
    bytes: &'a [u8],
    key: &mut Option<Key>,
) -> Option<((Asking, Change<'a>), &'a [u8])>
    ensures { Gives (λ x. ((x.0.0, option_map (λ k. op_on k x.0.1) key.new), x.1.now)) result (mapped asked_parts
        (pair number_at (pair number_at (pair number_at op_at))) bytes.now) }
{
    let (session, rest) = take_number(bytes)?;
    let (number, rest) = take_number(rest)?;
    let (stable, rest) = take_number(rest)?;
    let (change, rest) = take_change(rest, key)?;
    let asking = Asking {
        session,
        number,
        stable,
    };
    Some(((asking, change), rest))
}

/// The number of the operation that is answered by the reply whose frame begins at a place, and its answer, lent. None
/// where another reply's frame begins there. Takes no memory.
pub fn answered_at(bytes: &[u8], at: usize) -> Option<(u64, Option<GivenAnswer<'_>>)>
    ensures { (r : Reply) (rest : List ℕ) → IsReply r → drop at bytes.now ≡ frame (reply_bytes r) ++ rest
        → option_map (λ x. (x.0, option_map answer_given x.1)) result ≡ answered_of r }
{
    match take_body(bytes, at, u64::MAX) {
        Taken::Record(body, _) => answered_in(body),
        Taken::Short | Taken::Bad(_) => None,
    }
}

/// The same of a reply's body.
fn answered_in(body: &[u8]) -> Option<(u64, Option<GivenAnswer<'_>>)>
    ensures { (r : Reply) → IsReply r → body.now ≡ reply_bytes r
        → option_map (λ x. (x.0, option_map answer_given x.1)) result ≡ answered_of r }
{
    let (kind, rest) = body.split_first()?;
    if *kind != 0x12 {
        return None;
    }
    // The session's number stands before it.
    let (number, rest) = take_number(left_at(rest, 8))?;
    let (answer, _) = take_optional_spelled(rest)?;
    Some((number, answer))
}

/// Appends the frame of the reply that answers an operation so. Where memory for it is refused nothing is appended.
#[tactic(auto, using(crate::proofs::Numbered::number_lengths))]
pub fn put_answered(
    out: &mut Vec<u8>,
    session: u64,
    number: u64,
    answer: Option<&AnswerRef<'_>>,
) -> Result<(), Refusal>
    requires numbers { IsNumber session × IsNumber number }
    ensures spelling { OnOk result (out.new.items ≡ out.old.items
        ++ frame (reply_bytes (says.Answered session number (option_map answer_lent (option_copied answer.entry))))) }
    ensures has_spelling { IsReply (says.Answered session number (option_map answer_lent (option_copied answer.entry))) }
    ensures refused { OnErr result (out.new.items ≡ out.old.items) }
    ensures cause { IfErr result (λ refusal. refusal ≡ Refusal.NoMemory) }
    ensures room { OnErr result (vec_capacity out.old < vec_len out.old + 264) }
    ensures short { length (reply_bytes (says.Answered session number (option_map answer_lent (option_copied answer.entry)))) ≤ 256 }
{
    let length = match answer {
        None => 18,
        Some(answer) => 18 + answer_len(answer),
    };
    out.reserve(HEADER_LEN + length)?;
    put_long_start(out, length, 0x12, session, number);
    match answer {
        None => put_byte(out, 0),
        Some(answer) => {
            put_byte(out, 1);
            put_answer(out, answer);
        }
    }
    Ok(())
}
