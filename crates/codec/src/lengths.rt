//! How many bytes each part of a frame takes. A value of its type has a spelling, by the lengths that the type keeps.
ghost use Rattle.std.specs.Prelude.{◌≡◌, ◌≤◌, ◌++◌, length, IfSome};
ghost use Rattle.std.specs.Option.{option_copied};
ghost use Rattle.record_key.specs.Lent.{answer_lent};
ghost use Rattle.codec.specs.Fields.{number, IsAmount, text, IsKey, IsValue, optional, op_bytes, IsOp, answer_bytes, IsAnswer};

use record_key::{Answer, AnswerRef, Key, Op, Value, ValueRef};

pub(crate) fn key_len(key: &Key) -> usize
    ensures len { result ≡ length (text key.now) }
    ensures bounded { result ≤ 33 }
    ensures spelled { IsKey key.now }
{
    1 + key.as_bytes().len()
}

pub(crate) fn value_len(value: &ValueRef<'_>) -> usize
    ensures len { result ≡ length (text value.now) }
    ensures bounded { result ≤ 121 }
    ensures spelled { IsValue value.now }
{
    1 + value.as_bytes().len()
}

/// A key, then a value.
pub(crate) fn row_len(key: &Key, value: &Value) -> usize
    ensures len { result ≡ length (text key.now ++ text value.now) }
    ensures bounded { result ≤ 154 }
    ensures key { IsKey key.now }
    ensures value { IsValue value.now }
{
    key_len(key) + value_len(&value.lent())
}

#[tactic(auto, unfolding(crate::specs::Fields::number))]
fn amount_len(amount: u64) -> usize
    ensures len { result ≡ length (number amount) }
    ensures bounded { result ≤ 8 }
    ensures spelled { IsAmount amount }
{
    8
}

/// A key, then an amount.
fn sum_len(key: &Key, amount: u64) -> usize
    ensures len { result ≡ length (text key.now ++ number amount) }
    ensures bounded { result ≤ 41 }
    ensures key { IsKey key.now }
    ensures amount { IsAmount amount }
{
    key_len(key) + amount_len(amount)
}

/// A key, then a key or none.
pub(crate) fn range_len(low: &Key, high: Option<&Key>) -> usize
    ensures len { result ≡ length (text low.now ++ optional text (option_copied high.entry)) }
    ensures bounded { result ≤ 67 }
    ensures low { IsKey low.now }
    ensures high { IfSome (option_copied high.entry) IsKey }
{
    key_len(low) + optional_key_len(high)
}

#[tactic(auto, unfolding(crate::specs::Fields::op_bytes))]
pub(crate) fn op_len(op: &Op) -> usize
    ensures len { result ≡ length (op_bytes op.now) }
    ensures bounded { result ≤ 155 }
    ensures spelled { IsOp op.now }
{
    match op {
        Op::Insert(key, value) | Op::Update(key, value) | Op::Upsert(key, value) => {
            1 + row_len(key, value)
        }
        Op::Delete(key) => 1 + key_len(key),
        Op::Add(key, amount) => 1 + sum_len(key, *amount),
    }
}

pub(crate) fn optional_key_len(key: Option<&Key>) -> usize
    ensures len { result ≡ length (optional text (option_copied key.entry)) }
    ensures bounded { result ≤ 34 }
    ensures spelled { IfSome (option_copied key.entry) IsKey }
{
    match key {
        None => 1,
        Some(key) => 1 + key_len(key),
    }
}

pub(crate) fn optional_op_len(op: &Option<Op>) -> usize
    ensures len { result ≡ length (optional op_bytes op.now) }
    ensures bounded { result ≤ 156 }
    ensures spelled { IfSome op.now IsOp }
{
    match op {
        None => 1,
        Some(op) => 1 + op_len(op),
    }
}

#[tactic(auto, unfolding(crate::specs::Fields::answer_bytes))]
pub(crate) fn answer_len(answer: &AnswerRef<'_>) -> usize
    ensures len { result ≡ length (answer_bytes (answer_lent answer.now)) }
    ensures bounded { result ≤ 122 }
    ensures spelled { IsAnswer (answer_lent answer.now) }
{
    match answer {
        AnswerRef::Inserted
        | AnswerRef::Was(None)
        | AnswerRef::Exists
        | AnswerRef::NoRecord
        | AnswerRef::NotNumber => 1,
        AnswerRef::Added(amount) => 1 + amount_len(*amount),
        AnswerRef::Updated(value) | AnswerRef::Was(Some(value)) | AnswerRef::Deleted(value) => {
            1 + value_len(value)
        }
    }
}

pub(crate) fn optional_value_len(value: Option<&ValueRef<'_>>) -> usize
    ensures len { result ≡ length (optional text (option_copied value.entry)) }
    ensures bounded { result ≤ 122 }
    ensures spelled { IfSome (option_copied value.entry) IsValue }
{
    match value {
        None => 1,
        Some(value) => 1 + value_len(value),
    }
}

pub(crate) fn optional_answer_len(answer: &Option<Answer>) -> usize
    ensures len { result ≡ length (optional answer_bytes answer.now) }
    ensures bounded { result ≤ 123 }
    ensures spelled { IfSome answer.now IsAnswer }
{
    match answer {
        None => 1,
        Some(answer) => 1 + answer_len(&answer.lent()),
    }
}
