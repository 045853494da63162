//! A numbered operation that was done: its key and its answer.
ghost use Rattle.std.specs.Prelude.{◌≡◌};

use crate::key::Key;
use crate::op::Answer;

/// An operation that is done: its number, the key that it was on, and what it was answered.
#[derive(Debug, Clone, PartialEq, Eq, Drop)]
pub struct Entry {
    pub number: u64,
    pub key: Key,
    pub answer: Answer,
}

impl Entry {
    /// The same entry again. Takes no memory.
    pub fn copied(&self) -> Entry
        ensures { result ≡ self.now }
    {
        Entry {
            number: self.number,
            key: self.key.copied(),
            answer: self.answer.copied(),
        }
    }
}
