//! Records of the transaction log.
ghost use Rattle.std.specs.Prelude.{◌≡◌, ◌↔◌, ◌+◌, ◌<◌, ◌≤◌, ◌++◌, ℕ, List, length, drop, Some, vec_len, vec_capacity, OnOk, OnErr, IfErr};
ghost use Rattle.history.specs.declared.record.Record.{Record};
ghost use Rattle.history.specs.declared.record.Record.TheVariants as is;
ghost use Rattle.codec.specs.Records.{record_bytes, HasNumbers, IsRecord};
ghost use Rattle.codec.specs.Frames.{frame, IfTaken, IfBad, IsThere, IsCut};
ghost use Rattle.std.specs.List.{flat_map, AllByRecursion};
ghost use Rattle.codec.specs.Writing.{HasRoom, Puts};
ghost use Rattle.history.specs.Log.{request_of, step_of};
ghost use Rattle.record_key.specs.Lent.{answer_lent};
ghost use Rattle.history.specs.Chains.{undo_from, prev_in};
ghost use Rattle.codec.specs.Reading.{Gives, pair, mapped, optional_at, byte_at, number_at, op_at, record_at, taken_at};

use crate::frame::{FrameEnd, HEADER_LEN, left_at, read_framed, taken_at};
use crate::framed::Framed;
use crate::lengths::{answer_len, op_len, optional_op_len};
use crate::reading::{take_answer, take_number, take_op, take_optional_op};
use crate::taken::Taken;
use crate::writing::{
    put_answer, put_byte, put_head, put_long_head, put_long_start, put_number, put_op,
    put_optional_op, put_start,
};
use history::Record;
use record_key::{AnswerRef, Op, Refusal};
use std::convert::Infallible;

/// Appends the record's frame, its one spelling. Where memory for it is refused nothing is appended.
#[tactic(auto, using(crate::proofs::Numbered::number_lengths))]
pub fn put_record(out: &mut Vec<u8>, record: &Record) -> Result<(), Refusal>
    requires { HasNumbers «record».now }
    ensures spelling { OnOk result (out.new.items ≡ out.old.items ++ frame (record_bytes «record».now)) }
    ensures refused { OnErr result (out.new.items ≡ out.old.items) }
    ensures cause { IfErr result (λ refusal. refusal ≡ Refusal.NoMemory) }
    ensures room { OnErr result (vec_capacity out.old < vec_len out.old + length (frame (record_bytes «record».now))) }
    ensures has_spelling { IsRecord «record».now }
{
    let length = body_len(record);
    out.reserve(HEADER_LEN + length)?;
    put_number(out, length as u64);
    put_body(out, record);
    Ok(())
}

/// The same of an Op record, whose operation is lent.
#[tactic(auto, unfolding(crate::specs::Records::record_bytes), using(crate::proofs::Numbered::number_lengths))]
pub fn put_op_record(out: &mut Vec<u8>, txn: u64, prev: u64, op: &Op) -> Result<(), Refusal>
    requires { HasNumbers (is.Op txn prev op.now) }
    ensures spelling { OnOk result (out.new.items ≡ out.old.items ++ frame (record_bytes (is.Op txn prev op.now))) }
    ensures refused { OnErr result (out.new.items ≡ out.old.items) }
    ensures cause { IfErr result (λ refusal. refusal ≡ Refusal.NoMemory) }
    ensures room { OnErr result (vec_capacity out.old
        < vec_len out.old + length (frame (record_bytes (is.Op txn prev op.now)))) }
    ensures has_spelling { IsRecord (is.Op txn prev op.now) }
{
    let length = 17 + op_len(op);
    out.reserve(HEADER_LEN + length)?;
    put_long_start(out, length, 3, txn, prev);
    put_op(out, op);
    Ok(())
}

/// The same of an Answer record, whose answer is lent.
#[tactic(auto, unfolding(crate::specs::Records::record_bytes), using(crate::proofs::Numbered::number_lengths))]
pub(crate) fn put_answer_record(
    out: &mut Vec<u8>,
    of: u64,
    answer: &AnswerRef<'_>,
) -> Result<(), Refusal>
    requires { HasNumbers (is.Answer of (answer_lent answer.now)) }
    ensures spelling { OnOk result (out.new.items
        ≡ out.old.items ++ frame (record_bytes (is.Answer of (answer_lent answer.now)))) }
    ensures refused { OnErr result (out.new.items ≡ out.old.items) }
    ensures cause { IfErr result (λ refusal. refusal ≡ Refusal.NoMemory) }
    ensures room { OnErr result (vec_capacity out.old
        < vec_len out.old + length (frame (record_bytes (is.Answer of (answer_lent answer.now))))) }
    ensures has_spelling { IsRecord (is.Answer of (answer_lent answer.now)) }
{
    let length = 9 + answer_len(answer);
    out.reserve(HEADER_LEN + length)?;
    put_start(out, length, 4, of);
    put_answer(out, answer);
    Ok(())
}

/// Puts the record whose frame begins at a place in place of another, and tells where that frame ends: a record is large,
/// and each hand-over of one is a copy. Where there is none, what stands in its place is not said. Takes no memory.
pub fn read_record(bytes: &[u8], at: usize, record: &mut Record) -> FrameEnd
    // What is read stands there.
    ensures found { IfTaken (taken_at at result «record».new)
        (IsThere Record record_bytes IsRecord at (drop at bytes.now)) }
    // What stands there is read, whatever follows.
    ensures only { (r : Record) (rest : List ℕ) → IsRecord r → drop at bytes.now ≡ frame (record_bytes r) ++ rest
        → taken_at at result «record».new ≡ Taken.Record r (at + length (frame (record_bytes r))) }
    ensures short { (result ≡ FrameEnd.Short) ↔ IsCut 181 (drop at bytes.now) }
{
    let Ok(end) = read_framed((), bytes, at, RECORD_LIMIT, record);
    end
}

/// The record whose frame begins at a place, and the place after it. Takes no memory.
pub fn take_record(bytes: &[u8], at: usize) -> Taken<Record>
    ensures found { IfTaken result (IsThere Record record_bytes IsRecord at (drop at bytes.now)) }
    ensures only { (r : Record) (rest : List ℕ) → IsRecord r → drop at bytes.now ≡ frame (record_bytes r) ++ rest
        → result ≡ Taken.Record r (at + length (frame (record_bytes r))) }
    ensures short { (result ≡ Taken.Short) ↔ IsCut 181 (drop at bytes.now) }
    ensures bad { IfBad result (λ place. place ≡ at) }
{
    let mut record = Record::Session;
    let end = read_record(bytes, at, &mut record);
    taken_at(at, end, record)
}

/// The transaction of the Op or Comp record whose frame begins at a place, none of another record. Reads no more than
/// the kind and one number, and takes no memory.
pub fn step_txn(bytes: &[u8], at: usize) -> Option<u64>
    ensures { (r : Record) (rest : List ℕ) → IsRecord r → drop at bytes.now ≡ frame (record_bytes r) ++ rest
        → result ≡ step_of r }
{
    let (kind, rest) = kind_at(bytes, at)?;
    match kind {
        3 | 5 => Some(take_number(rest)?.0),
        _ => None,
    }
}

/// The operation that the record whose frame begins at a place asks for, if any. Takes no memory.
pub fn asked_op(bytes: &[u8], at: usize) -> Option<Op>
    ensures { (r : Record) (rest : List ℕ) → IsRecord r → drop at bytes.now ≡ frame (record_bytes r) ++ rest
        → result ≡ request_of r }
{
    let (kind, rest) = kind_at(bytes, at)?;
    let mut op = None;
    // Two numbers stand before an Op's operation, three before a Comp's inverse.
    match kind {
        3 => {
            take_op(left_at(rest, 16), &mut op)?;
        }
        5 => {
            take_optional_op(left_at(rest, 24), &mut op)?;
        }
        _ => {}
    }
    op
}

/// What is left to undo from the record whose frame begins at a place, where it has this number: the number of an Op,
/// a Comp's undo-next, 0 for another record. Reads no more than the kind and one number, and takes no memory.
pub fn left_to_undo(bytes: &[u8], at: usize, number: u64) -> u64
    ensures { (r : Record) (rest : List ℕ) → IsRecord r → drop at bytes.now ≡ frame (record_bytes r) ++ rest
        → result ≡ undo_from (Some r) number }
{
    let Some((kind, rest)) = kind_at(bytes, at) else {
        return 0;
    };
    match kind {
        3 => number,
        // Two numbers stand before a Comp's undo-next.
        5 => match take_number(left_at(rest, 16)) {
            Some((next, _)) => next,
            None => 0,
        },
        _ => 0,
    }
}

/// The transaction's step before the Op record whose frame begins at a place: its number, 0 if none. 0 for another record
/// too. Reads no more than the kind and one number, and takes no memory.
pub fn step_prev(bytes: &[u8], at: usize) -> u64
    ensures { (r : Record) (rest : List ℕ) → IsRecord r → drop at bytes.now ≡ frame (record_bytes r) ++ rest
        → result ≡ prev_in (Some r) }
{
    let Some((kind, rest)) = kind_at(bytes, at) else {
        return 0;
    };
    if kind != 3 {
        return 0;
    }
    // The transaction's number stands before it.
    match take_number(left_at(rest, 8)) {
        Some((prev, _)) => prev,
        None => 0,
    }
}

/// The kind of the record whose frame begins at a place, and the bytes after it.
fn kind_at(bytes: &[u8], at: usize) -> Option<(u8, &[u8])>
    ensures { Gives (λ x. (x.0, x.1.now)) result (byte_at (drop 8 (drop at bytes.now))) }
{
    let (kind, rest) = left_at(left_at(bytes, at), HEADER_LEN).split_first()?;
    Some((*kind, rest))
}

/// No record's frame begins another's, so what was written is read back, whatever follows it.
pub fn record_spelling_law()
    ensures one { (a b : Record) (x y : List ℕ) → IsRecord a → IsRecord b
        → frame (record_bytes a) ++ x ≡ frame (record_bytes b) ++ y → (a ≡ b) × (x ≡ y) }
    // A log's bytes are those of one list of records.
    ensures all { (rs qs : List Record) → AllByRecursion IsRecord rs → AllByRecursion IsRecord qs
        → flat_map (λ r. frame (record_bytes r)) rs ≡ flat_map (λ r. frame (record_bytes r)) qs → rs ≡ qs }
{}

#[tactic(auto, unfolding(crate::specs::Records::record_bytes), using(crate::proofs::Numbered::number_lengths))]
fn body_len(record: &Record) -> usize
    requires { HasNumbers «record».now }
    ensures len { result ≡ length (record_bytes «record».now) }
    ensures bounded { result ≤ 181 }
    ensures spelled { IsRecord «record».now }
{
    match record {
        Record::Session | Record::Begin => 1,
        Record::Op { op, .. } => 17 + op_len(op),
        Record::Answer { answer, .. } => 9 + answer_len(&answer.lent()),
        Record::Comp { inverse, .. } => 25 + optional_op_len(inverse),
        Record::Commit { .. } | Record::End { .. } | Record::Checkpoint { .. } => 9,
    }
}

#[tactic(auto, unfolding(crate::specs::Records::record_bytes))]
fn put_body(out: &mut Vec<u8>, record: &Record)
    requires { HasRoom out.old (record_bytes «record».now) }
    ensures { Puts out.old out.new (record_bytes «record».now) }
{
    match record {
        Record::Session => put_byte(out, 1),
        Record::Begin => put_byte(out, 2),
        Record::Op { txn, prev, op } => {
            put_long_head(out, 3, *txn, *prev);
            put_op(out, op);
        }
        Record::Answer { of, answer } => {
            put_head(out, 4, *of);
            put_answer(out, &answer.lent());
        }
        Record::Comp {
            txn,
            undoes,
            next,
            inverse,
        } => {
            put_long_head(out, 5, *txn, *undoes);
            put_number(out, *next);
            put_optional_op(out, inverse);
        }
        Record::Commit { txn } => put_head(out, 6, *txn),
        Record::End { txn } => put_head(out, 7, *txn),
        Record::Checkpoint { low } => put_head(out, 8, *low),
    }
}

/// The longest body of a record, in bytes: a Comp whose inverse has a key and a value of the greatest lengths.
pub(crate) const RECORD_LIMIT: u64 = 181;

fn take_comp<'a>(bytes: &'a [u8], record: &mut Record) -> Option<&'a [u8]>
    ensures { Gives (λ rest. («record».new, rest.now)) result (mapped (λ p. Record.Comp p.0 p.1.0 p.1.1.0 p.1.1.1)
        (pair number_at (pair number_at (pair number_at (optional_at op_at)))) bytes.now) }
{
    let (txn, rest) = take_number(bytes)?;
    let (undoes, rest) = take_number(rest)?;
    let (next, rest) = take_number(rest)?;
    let mut inverse = None;
    let rest = take_optional_op(rest, &mut inverse)?;
    *record = Record::Comp {
        txn,
        undoes,
        next,
        inverse,
    };
    Some(rest)
}

#[tactic(auto, unfolding(crate::specs::Reading::record_at))]
fn take_fields<'a>(bytes: &'a [u8], record: &mut Record) -> Option<&'a [u8]>
    ensures { Gives (λ rest. («record».new, rest.now)) result (record_at bytes.now) }
{
    let (kind, rest) = bytes.split_first()?;
    match *kind {
        1 => {
            *record = Record::Session;
            Some(rest)
        }
        2 => {
            *record = Record::Begin;
            Some(rest)
        }
        3 => {
            let (txn, rest) = take_number(rest)?;
            let (prev, rest) = take_number(rest)?;
            let mut op = None;
            let rest = take_op(rest, &mut op)?;
            let op = op?;
            *record = Record::Op { txn, prev, op };
            Some(rest)
        }
        4 => {
            let (of, rest) = take_number(rest)?;
            let (answer, rest) = take_answer(rest)?;
            *record = Record::Answer {
                of,
                answer: answer.owned(),
            };
            Some(rest)
        }
        5 => take_comp(rest, record),
        6 => {
            let (txn, rest) = take_number(rest)?;
            *record = Record::Commit { txn };
            Some(rest)
        }
        7 => {
            let (txn, rest) = take_number(rest)?;
            *record = Record::End { txn };
            Some(rest)
        }
        8 => {
            let (low, rest) = take_number(rest)?;
            *record = Record::Checkpoint { low };
            Some(rest)
        }
        _ => None,
    }
}

impl Framed for Record {
    ghost use Rattle.codec.specs.Reading.{record_at};

    ghost read_at = { record_at };

    ghost takes_memory = { λ _. ⊥ };

    type Memory = ();

    type Refused = Infallible;

    fn blank() -> Record {
        Record::Session
    }

    fn take_all(_memory: (), body: &[u8], record: &mut Record) -> Result<bool, Infallible> {
        match take_fields(body, record) {
            Some(rest) => Ok(rest.is_empty()),
            None => Ok(false),
        }
    }
}
