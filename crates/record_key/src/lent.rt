//! Operations and answers whose values are lent, so that a value's bytes are copied to where they are kept and nowhere
//! else on the way.
ghost use Rattle.std.specs.Prelude.{◌≡◌, ◌≤◌, length, Some, IfNone, IfSome};
ghost use Rattle.std.specs.Option.{option_map};
ghost use Rattle.record_key.specs.Table.{key_of};
ghost use Rattle.record_key.specs.Lent.{op_lent, answer_lent};

use crate::key::Key;
use crate::op::{Answer, Op};
use crate::value::Value;
use std::marker::Model;

/// A value where its bytes stand: 0 to 120 of them.
#[derive(Debug, Drop)]
pub struct ValueRef<'a> {
    bytes: &'a [u8],
}

impl<'a> Model for ValueRef<'a> {
    ghost use Rattle.std.specs.Prelude.{List, ℕ, ◌≤◌, length};

    ghost Value = { List ℕ };

    ghost view = { λ v. v.bytes.now };

    ghost invariant = { λ v. length v.bytes.now ≤ 120 };
}

impl<'a> ValueRef<'a> {
    /// These bytes. None where they are more than a value has.
    pub fn new(bytes: &'a [u8]) -> Option<ValueRef<'a>>
        ensures some { length bytes.now ≤ 120 → result ≡ Some bytes.now }
        ensures short { IfSome result (λ value. length bytes.now ≤ 120) }
    {
        if bytes.len() > Value::MAX_LEN {
            return None;
        }
        Some(ValueRef { bytes })
    }

    /// The value's bytes.
    pub fn as_bytes(&self) -> &'a [u8]
        ensures bytes { result.now ≡ self.now }
        ensures bounded { length self.now ≤ 120 }
    {
        self.bytes
    }

    /// A copy of its own.
    pub fn owned(&self) -> Value
        ensures { result ≡ self.now }
    {
        match Value::new(self.bytes) {
            Ok(value) => value,
            Err(_) => unreachable!(),
        }
    }
}

/// What an operation does to the record of its key.
#[derive(Debug, Drop)]
pub enum Change<'a> {
    Insert(ValueRef<'a>),
    Update(ValueRef<'a>),
    Upsert(ValueRef<'a>),
    Delete,
    Add(u64),
}

/// An operation on the record of one key.
#[derive(Debug, Drop)]
pub struct OpRef<'a> {
    pub key: &'a Key,
    pub change: Change<'a>,
}

impl<'a> OpRef<'a> {
    /// The key whose record the operation is on.
    pub fn key(&self) -> &'a Key
        ensures { result.now ≡ key_of (op_lent self.now) }
    {
        self.key
    }
}

/// What an operation was answered, as `Answer` says it.
#[derive(Debug, Drop)]
pub enum AnswerRef<'a> {
    Inserted,
    Updated(ValueRef<'a>),
    Was(Option<ValueRef<'a>>),
    Deleted(ValueRef<'a>),
    Exists,
    NoRecord,
    NotNumber,
    Added(u64),
}

impl<'a> AnswerRef<'a> {
    /// An answer of its own.
    pub fn owned(&self) -> Answer
        ensures { result ≡ answer_lent self.now }
    {
        match self {
            AnswerRef::Inserted => Answer::Inserted,
            AnswerRef::Updated(old) => Answer::Updated(old.owned()),
            AnswerRef::Was(None) => Answer::Was(None),
            AnswerRef::Was(Some(old)) => Answer::Was(Some(old.owned())),
            AnswerRef::Deleted(old) => Answer::Deleted(old.owned()),
            AnswerRef::Exists => Answer::Exists,
            AnswerRef::NoRecord => Answer::NoRecord,
            AnswerRef::NotNumber => Answer::NotNumber,
            AnswerRef::Added(amount) => Answer::Added(*amount),
        }
    }
}

impl Value {
    /// The value, lent.
    pub fn lent(&self) -> ValueRef<'_>
        ensures { result ≡ self.now }
    {
        ValueRef {
            bytes: self.as_bytes(),
        }
    }
}

impl Op {
    /// The operation, lent.
    pub fn lent(&self) -> OpRef<'_>
        ensures { op_lent result ≡ self.now }
    {
        match self {
            Op::Insert(key, value) => OpRef {
                key,
                change: Change::Insert(value.lent()),
            },
            Op::Update(key, value) => OpRef {
                key,
                change: Change::Update(value.lent()),
            },
            Op::Upsert(key, value) => OpRef {
                key,
                change: Change::Upsert(value.lent()),
            },
            Op::Delete(key) => OpRef {
                key,
                change: Change::Delete,
            },
            Op::Add(key, amount) => OpRef {
                key,
                change: Change::Add(*amount),
            },
        }
    }
}

impl Answer {
    /// The answer, lent.
    pub fn lent(&self) -> AnswerRef<'_>
        ensures { answer_lent result ≡ self.now }
    {
        match self {
            Answer::Inserted => AnswerRef::Inserted,
            Answer::Updated(old) => AnswerRef::Updated(old.lent()),
            Answer::Was(None) => AnswerRef::Was(None),
            Answer::Was(Some(old)) => AnswerRef::Was(Some(old.lent())),
            Answer::Deleted(old) => AnswerRef::Deleted(old.lent()),
            Answer::Exists => AnswerRef::Exists,
            Answer::NoRecord => AnswerRef::NoRecord,
            Answer::NotNumber => AnswerRef::NotNumber,
            Answer::Added(amount) => AnswerRef::Added(*amount),
        }
    }
}
