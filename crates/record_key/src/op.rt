//! The five operations on a record, and what they are answered.
ghost use Rattle.std.specs.Prelude.{◌≡◌};

use crate::key::Key;
use crate::value::Value;

/// An operation on the record of one key.
#[derive(Debug, Clone, PartialEq, Eq, Drop)]
pub enum Op {
    /// Puts a record where there is none.
    Insert(Key, Value),
    /// Gives the record that is there another value.
    Update(Key, Value),
    /// Puts the record, whether there is one or not.
    Upsert(Key, Value),
    /// Removes the record that is there.
    Delete(Key),
    /// Adds to the number that is there.
    Add(Key, u64),
}

/// What an operation was answered. Exists, NoRecord and NotNumber say that it did nothing.
#[derive(Debug, Clone, PartialEq, Eq, Drop)]
pub enum Answer {
    /// An Insert put its record.
    Inserted,
    /// An Update took the place of this value.
    Updated(Value),
    /// An Upsert took the place of this value, or of no record.
    Was(Option<Value>),
    /// A Delete removed the record of this value.
    Deleted(Value),
    /// An Insert found a record.
    Exists,
    /// An Update, a Delete or an Add found none.
    NoRecord,
    /// An Add found a value that is no number.
    NotNumber,
    /// An Add added this amount.
    Added(u64),
}

impl Op {
    ghost use Rattle.record_key.specs.Table.{key_of, is_add};

    /// The key whose record the operation is on.
    pub fn key(&self) -> &Key
        ensures { result.now ≡ key_of self.now }
    {
        match self {
            Op::Insert(key, _)
            | Op::Update(key, _)
            | Op::Upsert(key, _)
            | Op::Delete(key)
            | Op::Add(key, _) => key,
        }
    }

    /// Whether it is an increment.
    pub fn is_add(&self) -> bool
        ensures { result ≡ is_add self.now }
    {
        matches!(self, Op::Add(_, _))
    }

    /// The same operation again. Takes no memory.
    pub fn copied(&self) -> Op
        ensures { result ≡ self.now }
    {
        self.clone().unwrap()
    }
}

impl Answer {
    /// The same answer again. Takes no memory.
    pub fn copied(&self) -> Answer
        ensures { result ≡ self.now }
    {
        self.clone().unwrap()
    }
}
