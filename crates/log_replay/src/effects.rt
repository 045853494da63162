//! What a record asks for, and what an operation does to the value at its key.
ghost use Rattle.std.specs.Prelude.{◌≡◌};
ghost use Rattle.std.specs.Option.{option_copied};
ghost use Rattle.history.specs.Log.{request_of};
ghost use Rattle.record_key.specs.Table.{answer_at, value_after};

use history::Record;
use record_key::{Answer, Op, Value};

/// What the record has done to a table: an operation, or an inverse.
pub fn request(next: &Record) -> Option<&Op>
    ensures { option_copied result ≡ request_of next.now }
{
    match next {
        Record::Op { op, .. } => Some(op),
        Record::Comp { inverse, .. } => inverse.as_ref(),
        _ => None,
    }
}

/// What the operation is answered, where this is the value at its key.
pub fn answer_at(op: &Op, old: &Option<Value>) -> Answer
    ensures { result ≡ answer_at op.now old.now }
{
    match (op, old) {
        (Op::Insert(_, _), None) => Answer::Inserted,
        (Op::Insert(_, _), Some(_)) => Answer::Exists,
        (Op::Update(_, _), None) => Answer::NoRecord,
        (Op::Update(_, _), Some(old)) => Answer::Updated(old.copied()),
        (Op::Upsert(_, _), None) => Answer::Was(None),
        (Op::Upsert(_, _), Some(old)) => Answer::Was(Some(old.copied())),
        (Op::Delete(_), None) => Answer::NoRecord,
        (Op::Delete(_), Some(old)) => Answer::Deleted(old.copied()),
        (Op::Add(_, _), None) => Answer::NoRecord,
        (Op::Add(_, amount), Some(old)) => match old.plus(*amount) {
            None => Answer::NotNumber,
            Some(_) => Answer::Added(*amount),
        },
    }
}

/// The value at its key afterwards.
pub fn value_after(op: &Op, old: Option<Value>) -> Option<Value>
    ensures { result ≡ value_after op.now old }
{
    match (op, old) {
        (Op::Insert(_, value), None) => Some(value.copied()),
        (Op::Insert(_, _), Some(old)) => Some(old),
        (Op::Update(_, _), None) => None,
        (Op::Update(_, value), Some(_)) => Some(value.copied()),
        (Op::Upsert(_, value), _) => Some(value.copied()),
        (Op::Delete(_), _) => None,
        (Op::Add(_, _), None) => None,
        (Op::Add(_, amount), Some(old)) => match old.plus(*amount) {
            None => Some(old),
            Some(sum) => Some(sum),
        },
    }
}
