//! The inverse of an operation, decided by its key and its answer alone.
//!
//! Knows: the table of operations of `record_key`.
//! Must not know: who undoes, when, or in which order.
//! Promises the next crates the inverse law: an operation, then others on other keys, or Adds where it is one, then
//! its inverse leave what the others alone leave, with the same answers, and the inverse is always effective; an
//! operation without an inverse left the table as it was.
#![tactic(auto)]

ghost use Rattle.std.specs.Prelude.{◌≡◌};
ghost use Rattle.inverse.specs.Inverse.{undo_of, inverse_of, Undone, WithoutEffect};

use record_key::{Answer, Key, Op};

/// What undoes the operation that was answered so; none where it did nothing. Takes no memory.
pub fn inverse(op: &Op, answer: &Answer) -> Option<Op>
    ensures { result ≡ inverse_of op.now answer.now }
{
    inverse_on(op.key(), answer)
}

/// What undoes an operation on the key that was answered so; none where it did nothing. Takes no memory.
pub fn inverse_on(key: &Key, answer: &Answer) -> Option<Op>
    ensures { result ≡ undo_of key.now answer.now }
{
    let key = key.copied();
    match answer {
        Answer::Inserted | Answer::Was(None) => Some(Op::Delete(key)),
        Answer::Updated(old) | Answer::Was(Some(old)) => Some(Op::Update(key, old.copied())),
        Answer::Deleted(old) => Some(Op::Insert(key, old.copied())),
        Answer::Added(amount) => Some(Op::Add(key, amount.wrapping_neg())),
        Answer::Exists | Answer::NoRecord | Answer::NotNumber => None,
    }
}

/// An operation, any others on other keys, or Adds where it is one, and then its inverse leave what the others alone
/// leave. The others are answered as if neither had been, and the inverse is answered neither Exists nor NoRecord nor
/// NotNumber.
pub fn inverse_law()
    ensures { Undone }
{}

/// An operation whose answer has no inverse left the table as it was.
pub fn no_inverse_law()
    ensures { WithoutEffect }
{}
