//! The record that undoes an answered operation, spelled from the bytes of the operation's record and of its answer's:
//! neither is read into values.
ghost use Rattle.std.specs.Prelude.{◌≡◌, ◌+◌, ◌<◌, ◌≤◌, ◌++◌, ℕ, List, length, drop, is_some, vec_len, vec_capacity, OnOk, OnErr, IfOk, IfErr, IfSome};
ghost use Rattle.std.specs.Option.{option_copied, option_map};
ghost use Rattle.history.specs.declared.record.Record.{Record};
ghost use Rattle.history.specs.declared.record.Record.TheVariants as is;
ghost use Rattle.inverse.specs.Inverse.{undo_of, inverse_of};
ghost use Rattle.record_key.specs.Amounts.{negated};
ghost use Rattle.record_key.specs.Table.{Bytes, key_of};
ghost use Rattle.record_key.specs.declared.op.Op.{Op};
ghost use Rattle.record_key.specs.declared.op.Answer.{Answer};
ghost use Rattle.codec.specs.Fields.{number, text, op_bytes, answer_bytes, IsAmount, IsAnswer};
ghost use Rattle.codec.specs.Frames.{frame};
ghost use Rattle.codec.specs.Records.{record_bytes, IsRecord};
ghost use Rattle.codec.specs.Undoing.{answer_held, comp_bytes, comp_of, AreAnsweredAt};

use crate::frame::{HEADER_LEN, left_at, take_body};
use crate::reading::take_count;
use crate::record::RECORD_LIMIT;
use crate::spelled_op::asked_bytes;
use crate::taken::Taken;
use crate::writing::{put_bytes, put_few, put_longer_start};
use byteorder::{BigEndian, ByteOrder};
use record_key::Refusal;

/// The numbers of a Comp record.
#[derive(Debug, Clone, Copy, PartialEq, Eq)]
pub struct CompNumbers {
    /// The number of the transaction's Begin record.
    pub txn: u64,
    /// The operation that is undone.
    pub undoes: u64,
    /// The operation that is left to undo then, 0 if none.
    pub next: u64,
}

/// Appends the frame of the Comp record with these numbers that undoes the operation whose record's frame begins at
/// `op_at`, answered by the record whose frame begins at `answer_at`. Answers whether it has an inverse. Where memory for
/// it is refused nothing is appended. What is appended where other records' frames begin there is not said.
pub fn put_undo(
    out: &mut Vec<u8>,
    numbers: CompNumbers,
    bytes: &[u8],
    op_at: usize,
    answer_at: usize,
) -> Result<bool, Refusal>
    ensures spelling { (o : Op) (a : Answer) → AreAnsweredAt bytes.now op_at answer_at o a
        → OnOk result (out.new.items ≡ out.old.items ++ frame (record_bytes (comp_of numbers o a))) }
    ensures asks { (o : Op) (a : Answer) → AreAnsweredAt bytes.now op_at answer_at o a
        → IfOk result (λ asks. asks ≡ is_some (inverse_of o a)) }
    ensures refused { OnErr result (out.new.items ≡ out.old.items) }
    ensures cause { IfErr result (λ refusal. refusal ≡ Refusal.NoMemory) }
    ensures room { OnErr result (vec_capacity out.old < vec_len out.old + 397) }
{
    let Some(op) = asked_bytes(bytes, op_at) else {
        return Ok(false);
    };
    let Some(answer) = answer_bytes_at(bytes, answer_at) else {
        return Ok(false);
    };
    put_inverse(out, numbers, key_bytes(op), answer)?;
    Ok(has_inverse(answer))
}

/// The bytes that spell the answer of the Answer record whose frame begins at a place, none of another record. Takes no
/// memory.
fn answer_bytes_at(bytes: &[u8], at: usize) -> Option<&[u8]>
    ensures held { (r : Record) (rest : List ℕ) → IsRecord r → drop at bytes.now ≡ frame (record_bytes r) ++ rest
        → option_copied result ≡ option_map answer_bytes (answer_held r) }
    ensures short { IfSome result (λ answer. length answer.now ≤ 181) }
{
    match take_body(bytes, at, RECORD_LIMIT) {
        Taken::Record(body, _) => answer_in(body),
        Taken::Short | Taken::Bad(_) => None,
    }
}

/// The same of a record's body.
fn answer_in(body: &[u8]) -> Option<&[u8]>
    requires { length body.now ≤ 181 }
    ensures held { (r : Record) → body.now ≡ record_bytes r
        → option_copied result ≡ option_map answer_bytes (answer_held r) }
    ensures short { IfSome result (λ answer. length answer.now ≤ 181) }
{
    let (kind, rest) = body.split_first()?;
    // The number of the operation stands before it.
    if *kind == 4 {
        Some(left_at(rest, 8))
    } else {
        None
    }
}

/// Of the bytes that spell an operation those that spell its key, with its length in front.
fn key_bytes(op: &[u8]) -> &[u8]
    ensures key { (o : Op) → op.now ≡ op_bytes o → result.now ≡ text (key_of o) }
    ensures short { length result.now ≤ length op.now }
{
    let rest = left_at(op, 1);
    let Some((length, _)) = rest.split_first() else {
        return rest;
    };
    let end = 1 + *length as usize;
    if end <= rest.len() {
        &rest[..end]
    } else {
        rest
    }
}

/// What was answered so has an inverse. Answers of the kinds 6 to 8 say that nothing was done.
fn has_inverse(answer: &[u8]) -> bool
    ensures { (k : Bytes) (a : Answer) → answer.now ≡ answer_bytes a → result ≡ is_some (undo_of k a) }
{
    match answer.split_first() {
        Some((kind, _)) => *kind < 6 || 8 < *kind,
        None => false,
    }
}

/// The bytes of the amount that takes back the amount which these spell.
#[tactic(auto, unfolding(crate::specs::Fields::number))]
fn negated_bytes(amount: &[u8]) -> [u8; 8]
    ensures { (x : ℕ) → IsAmount x → amount.now ≡ number x → result ≡ number (negated x) }
{
    let Some((amount, _)) = take_count(amount) else {
        return [0; 8];
    };
    let mut bytes = [0; 8];
    BigEndian::write_u64(&mut bytes, amount.wrapping_neg());
    bytes
}

/// Appends the frame of the Comp record whose inverse undoes what was answered so on a key, by the bytes of both.
fn put_inverse(
    out: &mut Vec<u8>,
    numbers: CompNumbers,
    key: &[u8],
    answer: &[u8],
) -> Result<(), Refusal>
    requires short { (length key.now ≤ 181) × (length answer.now ≤ 181) }
    ensures spelling { (k : Bytes) (a : Answer) → IsAnswer a → key.now ≡ text k → answer.now ≡ answer_bytes a
        → OnOk result (out.new.items
        ≡ out.old.items ++ frame (record_bytes (is.Comp numbers.txn numbers.undoes numbers.next (undo_of k a)))) }
    ensures refused { OnErr result (out.new.items ≡ out.old.items) }
    ensures cause { IfErr result (λ refusal. refusal ≡ Refusal.NoMemory) }
    ensures room { OnErr result (vec_capacity out.old < vec_len out.old + 397) }
{
    let Some((kind, old)) = answer.split_first() else {
        return Ok(());
    };
    // An answer's kind on the left; on the right the inverse's, behind the flag that it is there.
    match *kind {
        1 | 3 => put_comp(out, numbers, &[1, 4], key, &[]),
        2 | 4 => put_comp(out, numbers, &[1, 2], key, old),
        5 => put_comp(out, numbers, &[1, 1], key, old),
        9 => put_comp(out, numbers, &[1, 5], key, &negated_bytes(old)),
        _ => put_comp(out, numbers, &[0], &[], &[]),
    }
}

/// Appends the frame of the Comp record whose inverse is spelled by these one after another: the flag that it is there
/// with its kind, its key, and what follows. They are apart so that nothing is copied together first.
#[tactic(auto, using(crate::proofs::Numbered::number_lengths))]
fn put_comp(
    out: &mut Vec<u8>,
    numbers: CompNumbers,
    head: &[u8],
    key: &[u8],
    rest: &[u8],
) -> Result<(), Refusal>
    requires short { (length head.now ≤ 2) × (length key.now ≤ 181) × (length rest.now ≤ 181) }
    ensures spelling { OnOk result (out.new.items
        ≡ out.old.items ++ frame (comp_bytes numbers (head.now ++ (key.now ++ rest.now)))) }
    ensures refused { OnErr result (out.new.items ≡ out.old.items) }
    ensures cause { IfErr result (λ refusal. refusal ≡ Refusal.NoMemory) }
    ensures room { OnErr result (vec_capacity out.old < vec_len out.old + 397) }
{
    let length = 25 + head.len() + key.len() + rest.len();
    out.reserve(HEADER_LEN + length)?;
    put_longer_start(out, length, 5, numbers.txn, numbers.undoes, numbers.next);
    put_few(out, head);
    put_bytes(out, key);
    put_bytes(out, rest);
    Ok(())
}
