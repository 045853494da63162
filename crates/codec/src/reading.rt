//! The readers of a frame's parts. Each gives the value at the front and the bytes after it. A large value is lent, or put
//! in its place instead, since each hand-over of one is a copy.
ghost use Rattle.std.specs.Prelude.{◌≡◌, Some};
ghost use Rattle.std.specs.Option.{option_map};
ghost use Rattle.record_key.specs.Lent.{op_on, answer_lent};
ghost use Rattle.codec.specs.Reading.{Gives, mapped, number_at, count_at, bytes_at, key_at, value_at, row_at, flag_at, optional_at, op_at, answer_at};

use byteorder::{BigEndian, ByteOrder};
use record_key::{AnswerRef, Change, Key, Op, Value, ValueRef};

/// What each number is below that names something in a frame: a record, a transaction, a session, a read or a leaf. Counts and
/// amounts have eight bytes.
pub const NUMBER_LIMIT: u64 = 1 << 48;

#[tactic(auto, unfolding(crate::specs::Reading::below_at, crate::specs::Fields::first_number))]
pub(crate) fn take_number(bytes: &[u8]) -> Option<(u64, &[u8])>
    ensures { Gives (λ x. (x.0, x.1.now)) result (number_at bytes.now) }
{
    if bytes.len() < 8 {
        return None;
    }
    let number = BigEndian::read_u64(bytes);
    if number < NUMBER_LIMIT {
        Some((number, &bytes[8..]))
    } else {
        None
    }
}

/// How many follow, or an amount. There is no bound on it but what the bytes have room for.
#[tactic(auto, unfolding(crate::specs::Reading::below_at, crate::specs::Fields::first_number))]
pub(crate) fn take_count(bytes: &[u8]) -> Option<(u64, &[u8])>
    ensures { Gives (λ x. (x.0, x.1.now)) result (count_at bytes.now) }
{
    if bytes.len() < 8 {
        return None;
    }
    Some((BigEndian::read_u64(bytes), &bytes[8..]))
}

#[tactic(auto, unfolding(crate::specs::Reading::bytes_at))]
pub(crate) fn take_bytes(bytes: &[u8]) -> Option<(&[u8], &[u8])>
    ensures { Gives (λ x. (x.0.now, x.1.now)) result (bytes_at bytes.now) }
{
    let (length, rest) = bytes.split_first()?;
    let length = *length as usize;
    if rest.len() < length {
        return None;
    }
    Some(rest.split_at(length))
}

#[tactic(auto, unfolding(crate::specs::Reading::key_at))]
pub(crate) fn take_key(bytes: &[u8]) -> Option<(Key, &[u8])>
    ensures { Gives (λ x. (x.0, x.1.now)) result (key_at bytes.now) }
{
    let (text, rest) = take_bytes(bytes)?;
    Some((Key::new(text).ok()?, rest))
}

#[tactic(auto, unfolding(crate::specs::Reading::value_at))]
pub(crate) fn take_value(bytes: &[u8]) -> Option<(ValueRef<'_>, &[u8])>
    ensures { Gives (λ x. (x.0, x.1.now)) result (value_at bytes.now) }
{
    let (text, rest) = take_bytes(bytes)?;
    Some((ValueRef::new(text)?, rest))
}

/// An operation: what it does to the record of its key, which is put in `key`.
#[tactic(auto, unfolding(crate::specs::Reading::op_at))]
pub(crate) fn take_change<'a>(
    bytes: &'a [u8],
    key: &mut Option<Key>,
) -> Option<(Change<'a>, &'a [u8])>
    ensures { Gives (λ x. (option_map (λ k. op_on k x.0) key.new, x.1.now)) result
        (mapped (λ op. Some op) op_at bytes.now) }
{
    let (kind, rest) = bytes.split_first()?;
    let (found, rest) = take_key(rest)?;
    *key = Some(found);
    match *kind {
        1 => {
            let (value, rest) = take_value(rest)?;
            Some((Change::Insert(value), rest))
        }
        2 => {
            let (value, rest) = take_value(rest)?;
            Some((Change::Update(value), rest))
        }
        3 => {
            let (value, rest) = take_value(rest)?;
            Some((Change::Upsert(value), rest))
        }
        4 => Some((Change::Delete, rest)),
        5 => {
            let (amount, rest) = take_count(rest)?;
            Some((Change::Add(amount), rest))
        }
        _ => None,
    }
}

/// Each kind is put in its place by itself: what the kinds come to together would be copied once more.
pub(crate) fn take_op<'a>(bytes: &'a [u8], op: &mut Option<Op>) -> Option<&'a [u8]>
    ensures { Gives (λ rest. (op.new, rest.now)) result (mapped (λ op. Some op) op_at bytes.now) }
{
    let mut key = None;
    let (change, rest) = take_change(bytes, &mut key)?;
    let key = key?;
    match change {
        Change::Insert(value) => {
            *op = Some(Op::Insert(key, value.owned()));
            Some(rest)
        }
        Change::Update(value) => {
            *op = Some(Op::Update(key, value.owned()));
            Some(rest)
        }
        Change::Upsert(value) => {
            *op = Some(Op::Upsert(key, value.owned()));
            Some(rest)
        }
        Change::Delete => {
            *op = Some(Op::Delete(key));
            Some(rest)
        }
        Change::Add(amount) => {
            *op = Some(Op::Add(key, amount));
            Some(rest)
        }
    }
}

#[tactic(auto, unfolding(crate::specs::Reading::flag_at))]
pub(crate) fn take_flag(bytes: &[u8]) -> Option<(bool, &[u8])>
    ensures { Gives (λ x. (x.0, x.1.now)) result (flag_at bytes.now) }
{
    let (flag, rest) = bytes.split_first()?;
    match *flag {
        0 => Some((false, rest)),
        1 => Some((true, rest)),
        _ => None,
    }
}

pub(crate) fn take_optional_key(bytes: &[u8]) -> Option<(Option<Key>, &[u8])>
    ensures { Gives (λ x. (x.0, x.1.now)) result (optional_at key_at bytes.now) }
{
    let (is_there, rest) = take_flag(bytes)?;
    if !is_there {
        return Some((None, rest));
    }
    let (key, rest) = take_key(rest)?;
    Some((Some(key), rest))
}

pub(crate) fn take_optional_op<'a>(bytes: &'a [u8], op: &mut Option<Op>) -> Option<&'a [u8]>
    ensures { Gives (λ rest. (op.new, rest.now)) result (optional_at op_at bytes.now) }
{
    let (is_there, rest) = take_flag(bytes)?;
    if !is_there {
        *op = None;
        return Some(rest);
    }
    take_op(rest, op)
}

#[tactic(auto, unfolding(crate::specs::Reading::answer_at))]
pub(crate) fn take_answer(bytes: &[u8]) -> Option<(AnswerRef<'_>, &[u8])>
    ensures { Gives (λ x. (answer_lent x.0, x.1.now)) result (answer_at bytes.now) }
{
    let (kind, rest) = bytes.split_first()?;
    match *kind {
        1 => Some((AnswerRef::Inserted, rest)),
        2 => {
            let (value, rest) = take_value(rest)?;
            Some((AnswerRef::Updated(value), rest))
        }
        3 => Some((AnswerRef::Was(None), rest)),
        4 => {
            let (value, rest) = take_value(rest)?;
            Some((AnswerRef::Was(Some(value)), rest))
        }
        5 => {
            let (value, rest) = take_value(rest)?;
            Some((AnswerRef::Deleted(value), rest))
        }
        6 => Some((AnswerRef::Exists, rest)),
        7 => Some((AnswerRef::NoRecord, rest)),
        8 => Some((AnswerRef::NotNumber, rest)),
        9 => {
            let (amount, rest) = take_count(rest)?;
            Some((AnswerRef::Added(amount), rest))
        }
        _ => None,
    }
}

pub(crate) fn take_optional_answer(bytes: &[u8]) -> Option<(Option<AnswerRef<'_>>, &[u8])>
    ensures { Gives (λ x. (option_map answer_lent x.0, x.1.now)) result (optional_at answer_at bytes.now) }
{
    let (is_there, rest) = take_flag(bytes)?;
    if !is_there {
        return Some((None, rest));
    }
    let (answer, rest) = take_answer(rest)?;
    Some((Some(answer), rest))
}

pub(crate) fn take_optional_value<'a>(
    bytes: &'a [u8],
    value: &mut Option<Value>,
) -> Option<&'a [u8]>
    ensures { Gives (λ rest. (value.new, rest.now)) result (optional_at value_at bytes.now) }
{
    let (is_there, rest) = take_flag(bytes)?;
    if !is_there {
        *value = None;
        return Some(rest);
    }
    let (found, rest) = take_value(rest)?;
    *value = Some(found.owned());
    Some(rest)
}
