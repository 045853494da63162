//! Bytes that a script writes, to put them on a device or to compare a device's with them.
use record_key::Refusal;
use std::alloc::Global;
use test_calls::{Bytes, UNREADABLE, Words};

/// A name for some bytes.
#[derive(Drop)]
struct Named {
    name: String,
    bytes: Vec<u8>,
}

/// Named bytes, and what is written now.
#[derive(Drop)]
pub struct Paper {
    alloc: Global,
    named: Vec<Named>,
    written: Vec<u8>,
}

impl Paper {
    pub fn new(alloc: Global) -> Paper {
        Paper {
            alloc,
            named: Vec::new(alloc),
            written: Vec::new(alloc),
        }
    }

    pub fn as_slice(&self) -> &[u8] {
        self.written.as_slice()
    }

    /// `name NAME HEX ..`.
    pub fn name(&mut self, words: &mut Words) -> Result<(), Refusal> {
        let name = String::from_str(self.alloc, words.word())?;
        let mut bytes = Vec::new(self.alloc);
        for _ in 0..99 {
            if words.are_read() {
                break;
            }
            bytes.extend_from_slice(Bytes::of_digits(words.word())?.as_slice())?;
        }
        self.named.push(Named { name, bytes })?;
        Ok(())
    }

    /// `write NAME ..`: these and nothing else.
    pub fn write(&mut self, words: &mut Words) -> Result<(), Refusal> {
        self.written.clear();
        for _ in 0..9 {
            if words.are_read() {
                break;
            }
            self.add(words.word())?;
        }
        Ok(())
    }

    fn add(&mut self, name: &str) -> Result<(), Refusal> {
        for named in &self.named {
            if named.name.as_str() == name {
                self.written.extend_from_slice(named.bytes.as_slice())?;
                return Ok(());
            }
        }
        Err(UNREADABLE)
    }

    /// `change PLACE BYTE`.
    pub fn change(&mut self, words: &mut Words) -> Result<(), Refusal> {
        let place = words.number()? as usize;
        let byte = u8::try_from(words.number()?).map_err(|_| UNREADABLE)?;
        match self.written.get_mut(place) {
            Some(old) => {
                *old = byte;
                Ok(())
            }
            None => Err(UNREADABLE),
        }
    }

    /// `keep COUNT`: the first bytes alone.
    pub fn keep(&mut self, words: &mut Words) -> Result<(), Refusal> {
        self.written.truncate(words.number()? as usize);
        Ok(())
    }
}
