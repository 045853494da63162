//! The words of a line.
use crate::bytes::Bytes;
use record_key::{Answer, Key, Op, Refusal, Value};

/// What a line that isn't one is refused with.
pub const UNREADABLE: Refusal = Refusal::BadScript(0);

/// The words that are left of a line.
#[derive(Drop)]
pub struct Words<'a> {
    rest: &'a str,
}

impl<'a> Words<'a> {
    pub fn of(line: &'a str) -> Words<'a> {
        Words { rest: line }
    }

    /// The next word, empty where there is none.
    pub fn word(&mut self) -> &'a str {
        let line = self.rest.trim();
        match line.split_once(" ") {
            Some((word, rest)) => {
                self.rest = rest;
                word
            }
            None => {
                self.rest = "";
                line
            }
        }
    }

    /// Whether no word is left.
    pub fn are_read(&self) -> bool {
        self.rest.trim().is_empty()
    }

    /// Passes over the next word where it is this one, and says whether it is.
    pub fn is_next(&mut self, word: &str) -> bool {
        match self.rest.trim().strip_prefix(word) {
            Some(rest) if rest.is_empty() || rest.starts_with(" ") => {
                self.rest = rest;
                true
            }
            _ => false,
        }
    }

    pub fn number(&mut self) -> Result<u64, Refusal> {
        self.word().parse::<u64>().map_err(|_| UNREADABLE)
    }

    /// The known end that a line ends with, or one that no entry is above.
    pub fn known_end(&mut self) -> Result<u64, Refusal> {
        if self.are_read() {
            return Ok(u64::MAX);
        }
        self.number()
    }

    pub fn bytes(&mut self) -> Result<Bytes, Refusal> {
        match self.word() {
            "" => Err(UNREADABLE),
            word => Bytes::spelled(word),
        }
    }

    pub fn key(&mut self) -> Result<Key, Refusal> {
        Key::new(self.bytes()?.as_slice())
    }

    /// The upper end of a range: `*` for none.
    pub fn end(&mut self) -> Result<Option<Key>, Refusal> {
        match self.word() {
            "*" => Ok(None),
            word => Ok(Some(Key::new(Bytes::spelled(word)?.as_slice())?)),
        }
    }

    pub fn value(&mut self) -> Result<Value, Refusal> {
        Value::new(self.bytes()?.as_slice())
    }

    /// `insert K V`, `update K V`, `upsert K V`, `delete K`, `add K N`.
    pub fn op(&mut self) -> Result<Op, Refusal> {
        let name = self.word();
        let key = self.key()?;
        match name {
            "insert" => Ok(Op::Insert(key, self.value()?)),
            "update" => Ok(Op::Update(key, self.value()?)),
            "upsert" => Ok(Op::Upsert(key, self.value()?)),
            "delete" => Ok(Op::Delete(key)),
            "add" => Ok(Op::Add(key, self.number()?)),
            _ => Err(UNREADABLE),
        }
    }

    /// An answer as `Text::put_answer` spells it.
    pub fn answer(&mut self) -> Result<Answer, Refusal> {
        match self.word() {
            "inserted" => Ok(Answer::Inserted),
            "exists" => Ok(Answer::Exists),
            "missing" => Ok(Answer::NoRecord),
            "notnumber" => Ok(Answer::NotNumber),
            "added" => Ok(Answer::Added(self.number()?)),
            "updated" => Ok(Answer::Updated(self.value()?)),
            "deleted" => Ok(Answer::Deleted(self.value()?)),
            "was" => Ok(Answer::Was(self.found()?)),
            _ => Err(UNREADABLE),
        }
    }

    /// A value, or none: `-`.
    pub fn found(&mut self) -> Result<Option<Value>, Refusal> {
        match self.word() {
            "-" => Ok(None),
            word => Ok(Some(Value::new(Bytes::spelled(word)?.as_slice())?)),
        }
    }
}
