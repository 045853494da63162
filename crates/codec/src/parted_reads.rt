//! Requests to read one key and replies with its value, apart from the messages around them, as `parted` has it.
ghost use Rattle.std.specs.Prelude.{◌≡◌, ◌+◌, ◌<◌, ◌≤◌, ◌++◌, ℕ, List, length, drop, vec_len, vec_capacity, IsSome, OnOk, OnErr, OnSome, IfErr};
ghost use Rattle.std.specs.Option.{option_copied, option_map};
ghost use Rattle.codec.specs.declared.request.Request.{Request};
ghost use Rattle.codec.specs.declared.request.Request.TheVariants as asks;
ghost use Rattle.codec.specs.declared.reply.Reply.{Reply};
ghost use Rattle.codec.specs.declared.reply.Reply.TheVariants as says;
ghost use Rattle.codec.specs.Fields.{IsNumber};
ghost use Rattle.codec.specs.Frames.{frame};
ghost use Rattle.codec.specs.Parted.{both, reading_of, found_of};
ghost use Rattle.codec.specs.Replies.{reply_bytes, IsReply};
ghost use Rattle.codec.specs.Requests.{request_bytes, IsRequest};

use crate::frame::{HEADER_LEN, left_at, take_body};
use crate::lengths::{key_len, optional_value_len};
use crate::reading::{take_key, take_number, take_optional_value};
use crate::taken::Taken;
use crate::writing::{put_long_start, put_optional_value, put_text};
use record_key::{Key, Refusal, Value, ValueRef};

/// A request to read a key, without the key.
#[derive(Debug, Clone, Copy, PartialEq, Eq)]
pub struct Reading {
    pub session: u64,
    /// The number of the read.
    pub read: u64,
}

/// The request to read a key whose frame begins at a place; its key is put in `key`. None where another request's frame
/// begins there; what `key` has then is not said. Takes no memory.
pub fn reading_at(bytes: &[u8], at: usize, key: &mut Option<Key>) -> Option<Reading>
    ensures asked { (r : Request) (rest : List ℕ) → IsRequest r → drop at bytes.now ≡ frame (request_bytes r) ++ rest
        → both result key.new ≡ reading_of r }
    ensures key { OnSome result (IsSome key.new) }
{
    match take_body(bytes, at, u64::MAX) {
        Taken::Record(body, _) => reading_in(body, key),
        Taken::Short | Taken::Bad(_) => None,
    }
}

/// The same of a request's body.
fn reading_in(body: &[u8], key: &mut Option<Key>) -> Option<Reading>
    ensures asked { (r : Request) → IsRequest r → body.now ≡ request_bytes r → both result key.new ≡ reading_of r }
    ensures key { OnSome result (IsSome key.new) }
{
    let (kind, rest) = body.split_first()?;
    if *kind != 3 {
        return None;
    }
    let (session, rest) = take_number(rest)?;
    let (read, rest) = take_number(rest)?;
    let (asked, _) = take_key(rest)?;
    *key = Some(asked);
    Some(Reading { session, read })
}

/// Appends the frame of the request to read a key. Where memory for it is refused nothing is appended.
#[tactic(auto, using(crate::proofs::Numbered::number_lengths))]
pub fn put_get(out: &mut Vec<u8>, session: u64, read: u64, key: &Key) -> Result<(), Refusal>
    requires numbers { IsNumber session × IsNumber read }
    ensures spelling { OnOk result (out.new.items
        ≡ out.old.items ++ frame (request_bytes (asks.Get session read key.now))) }
    ensures has_spelling { IsRequest (asks.Get session read key.now) }
    ensures refused { OnErr result (out.new.items ≡ out.old.items) }
    ensures cause { IfErr result (λ refusal. refusal ≡ Refusal.NoMemory) }
    ensures room { OnErr result (vec_capacity out.old < vec_len out.old + 264) }
    ensures short { length (request_bytes (asks.Get session read key.now)) ≤ 256 }
{
    let length = 17 + key_len(key);
    out.reserve(HEADER_LEN + length)?;
    put_long_start(out, length, 3, session, read);
    put_text(out, key.as_bytes());
    Ok(())
}

/// The number of the read of a key that is replied to by the reply whose frame begins at a place; the value that was found
/// is put in `value`. None where another reply's frame begins there; what `value` has then is not said. Takes no memory.
pub fn found_at(bytes: &[u8], at: usize, value: &mut Option<Value>) -> Option<u64>
    ensures { (r : Reply) (rest : List ℕ) → IsReply r → drop at bytes.now ≡ frame (reply_bytes r) ++ rest
        → option_map (λ read. (read, value.new)) result ≡ found_of r }
{
    match take_body(bytes, at, u64::MAX) {
        Taken::Record(body, _) => found_in(body, value),
        Taken::Short | Taken::Bad(_) => None,
    }
}

/// The same of a reply's body.
fn found_in(body: &[u8], value: &mut Option<Value>) -> Option<u64>
    ensures { (r : Reply) → IsReply r → body.now ≡ reply_bytes r
        → option_map (λ read. (read, value.new)) result ≡ found_of r }
{
    let (kind, rest) = body.split_first()?;
    if *kind != 0x13 {
        return None;
    }
    // The session's number stands before it.
    let (read, rest) = take_number(left_at(rest, 8))?;
    take_optional_value(rest, value)?;
    Some(read)
}

/// Appends the frame of the reply that this value was found, if any. Where memory for it is refused nothing is appended.
#[tactic(auto, using(crate::proofs::Numbered::number_lengths))]
pub fn put_found(
    out: &mut Vec<u8>,
    session: u64,
    read: u64,
    value: Option<&ValueRef<'_>>,
) -> Result<(), Refusal>
    requires numbers { IsNumber session × IsNumber read }
    ensures spelling { OnOk result (out.new.items ≡ out.old.items
        ++ frame (reply_bytes (says.Row session read (option_copied value.entry)))) }
    ensures has_spelling { IsReply (says.Row session read (option_copied value.entry)) }
    ensures refused { OnErr result (out.new.items ≡ out.old.items) }
    ensures cause { IfErr result (λ refusal. refusal ≡ Refusal.NoMemory) }
    ensures room { OnErr result (vec_capacity out.old < vec_len out.old + 264) }
    ensures short { length (reply_bytes (says.Row session read (option_copied value.entry))) ≤ 256 }
{
    let length = 17 + optional_value_len(value);
    out.reserve(HEADER_LEN + length)?;
    put_long_start(out, length, 0x13, session, read);
    put_optional_value(out, value);
    Ok(())
}
