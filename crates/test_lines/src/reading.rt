//! The words of a call.
use crate::hex::bytes_of;
use record_key::{Answer, Key, Op, Refusal, Value};
use std::alloc::Global;

/// A word is outside the grammar of the data.
pub const OUTSIDE: Refusal = Refusal::BadScript(0);

/// The words that are left of a call, one space between two.
#[derive(Debug, Clone, Copy)]
pub struct Words<'a> {
    alloc: Global,
    left: &'a str,
}

impl<'a> Words<'a> {
    pub fn new(alloc: Global, call: &'a str) -> Words<'a> {
        Words { alloc, left: call }
    }

    /// Whether none is left.
    pub fn is_empty(&self) -> bool {
        self.left.is_empty()
    }

    /// All that is left.
    pub fn rest(&mut self) -> &'a str {
        let rest = self.left;
        self.left = "";
        rest
    }

    /// The next word, empty where none is left.
    pub fn word(&mut self) -> &'a str {
        match self.left.split_once(' ') {
            Some((word, left)) => {
                self.left = left;
                word
            }
            None => self.rest(),
        }
    }

    /// A number in decimal. Outside the grammar where it isn't one below 2^64.
    pub fn number(&mut self) -> Result<u64, Refusal> {
        self.word().parse::<u64>().map_err(|_| OUTSIDE)
    }

    /// The bytes of a key or a value: a dot for none, digits after `#`, or the word itself.
    pub fn text(&mut self) -> Result<Vec<u8>, Refusal> {
        let word = self.word();
        match word.strip_prefix('#') {
            Some(digits) => bytes_of(self.alloc, digits),
            None if word == "." => Ok(Vec::new(self.alloc)),
            None => Ok(Vec::from_slice(self.alloc, word.as_bytes())?),
        }
    }

    pub fn key(&mut self) -> Result<Key, Refusal> {
        Key::new(&self.text()?)
    }

    pub fn value(&mut self) -> Result<Value, Refusal> {
        Value::new(&self.text()?)
    }

    pub fn op(&mut self) -> Result<Op, Refusal> {
        match self.inverse()? {
            Some(op) => Ok(op),
            None => Err(OUTSIDE),
        }
    }

    /// An operation, or `none`.
    pub fn inverse(&mut self) -> Result<Option<Op>, Refusal> {
        Ok(match self.word() {
            "none" => None,
            "insert" => Some(Op::Insert(self.key()?, self.value()?)),
            "update" => Some(Op::Update(self.key()?, self.value()?)),
            "upsert" => Some(Op::Upsert(self.key()?, self.value()?)),
            "delete" => Some(Op::Delete(self.key()?)),
            "add" => Some(Op::Add(self.key()?, self.number()?)),
            _ => return Err(OUTSIDE),
        })
    }

    /// An answer, in the words of the shell.
    pub fn answer(&mut self) -> Result<Answer, Refusal> {
        Ok(match self.word() {
            "inserted" => Answer::Inserted,
            "updated" => Answer::Updated(self.value()?),
            "was" => Answer::Was(self.old()?),
            "deleted" => Answer::Deleted(self.value()?),
            "exists" => Answer::Exists,
            "missing" => Answer::NoRecord,
            "notnumber" => Answer::NotNumber,
            "added" => Answer::Added(self.number()?),
            _ => return Err(OUTSIDE),
        })
    }

    /// A value, or a dash for no record.
    fn old(&mut self) -> Result<Option<Value>, Refusal> {
        if self.left == "-" {
            self.left = "";
            return Ok(None);
        }
        Ok(Some(self.value()?))
    }
}
