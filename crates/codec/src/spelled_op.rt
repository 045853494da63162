//! An operation handed on as the bytes that spell it: from the log into a message, read by neither.
ghost use Rattle.std.specs.Prelude.{◌≡◌, ◌+◌, ◌<◌, ◌≤◌, ◌++◌, ℕ, List, length, drop, vec_len, vec_capacity, OnOk, OnErr, IfErr, IfSome};
ghost use Rattle.std.specs.Option.{option_copied, option_map};
ghost use Rattle.history.specs.declared.record.Record.{Record};
ghost use Rattle.history.specs.Log.{request_of};
ghost use Rattle.record_key.specs.declared.op.Op.{Op};
ghost use Rattle.codec.specs.declared.request.Request.TheVariants as asks;
ghost use Rattle.codec.specs.Fields.{IsNumber, op_bytes};
ghost use Rattle.codec.specs.Frames.{frame};
ghost use Rattle.codec.specs.Records.{record_bytes, IsRecord};
ghost use Rattle.codec.specs.Requests.{request_bytes};
ghost use Rattle.codec.specs.Reading.{bytes_if};
ghost use Rattle.codec.specs.Writing.{Puts};

use crate::frame::{HEADER_LEN, left_at, take_body};
use crate::record::RECORD_LIMIT;
use crate::taken::Taken;
use crate::writing::{put_bytes, put_longer_start};
use record_key::Refusal;

/// The bytes that spell the operation which the record whose frame begins at a place asks for, if any. Takes no memory.
pub fn asked_bytes(bytes: &[u8], at: usize) -> Option<&[u8]>
    ensures asked { (r : Record) (rest : List ℕ) → IsRecord r → drop at bytes.now ≡ frame (record_bytes r) ++ rest
        → option_copied result ≡ option_map op_bytes (request_of r) }
    ensures short { IfSome result (λ asked. length asked.now ≤ 164) }
{
    match take_body(bytes, at, RECORD_LIMIT) {
        Taken::Record(body, _) => asked_in(body),
        Taken::Short | Taken::Bad(_) => None,
    }
}

/// The same of a record's body.
fn asked_in(body: &[u8]) -> Option<&[u8]>
    requires { length body.now ≤ 181 }
    ensures asked { (r : Record) → body.now ≡ record_bytes r
        → option_copied result ≡ option_map op_bytes (request_of r) }
    ensures short { IfSome result (λ asked. length asked.now ≤ 164) }
{
    let (kind, rest) = body.split_first()?;
    // Two numbers stand before an Op's operation, three and a flag before a Comp's inverse.
    match *kind {
        3 => Some(left_at(rest, 16)),
        5 => bytes_if(left_at(rest, 24)),
        _ => None,
    }
}

/// The bytes after a flag, where it is set.
fn bytes_if(bytes: &[u8]) -> Option<&[u8]>
    ensures after { option_copied result ≡ bytes_if bytes.now }
    ensures fewer { IfSome result (λ rest. length rest.now < length bytes.now) }
{
    let (flag, rest) = bytes.split_first()?;
    if *flag == 1 { Some(rest) } else { None }
}

/// Appends the frame of a request to perform the operation that these bytes spell. Where memory for it is refused
/// nothing is appended.
#[tactic(auto, using(crate::proofs::Numbered::number_lengths))]
pub fn put_perform(
    out: &mut Vec<u8>,
    session: u64,
    number: u64,
    stable: u64,
    op: &[u8],
) -> Result<(), Refusal>
    requires short { length op.now ≤ 164 }
    ensures spelling { (o : Op) → op.now ≡ op_bytes o → OnOk result (out.new.items
        ≡ out.old.items ++ frame (request_bytes (asks.Perform session number stable o))) }
    ensures refused { OnErr result (out.new.items ≡ out.old.items) }
    ensures cause { IfErr result (λ refusal. refusal ≡ Refusal.NoMemory) }
    ensures room { OnErr result (vec_capacity out.old < vec_len out.old + 264) }
{
    let length = 25 + op.len();
    out.reserve(HEADER_LEN + length)?;
    put_longer_start(out, length, 2, session, number, stable);
    put_bytes(out, op);
    Ok(())
}
