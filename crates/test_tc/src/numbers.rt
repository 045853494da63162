//! Numbers of records as a script writes them.
use record_key::Refusal;
use test_calls::{Text, Words};

/// Where a session was begun a second time since its device failed, the record of the first stays in the log, and each
/// number above it is greater by one than the script says.
#[derive(Clone, Copy)]
pub struct Numbers {
    pub orphan: Option<u64>,
}

impl Numbers {
    pub const PLAIN: Numbers = Numbers { orphan: None };

    /// The number that the script means.
    pub fn meant(self, written: u64) -> u64 {
        match self.orphan {
            Some(orphan) if written >= orphan => written.wrapping_add(1),
            _ => written,
        }
    }

    /// How the script writes a number.
    pub fn written(self, number: u64) -> u64 {
        match self.orphan {
            Some(orphan) if number > orphan => number.wrapping_sub(1),
            _ => number,
        }
    }

    pub fn read(self, words: &mut Words) -> Result<u64, Refusal> {
        Ok(self.meant(words.number()?))
    }

    pub fn put(self, text: &mut Text, word: &str, number: u64) {
        text.put(word);
        self.put_plain(text, number);
    }

    pub fn put_plain(self, text: &mut Text, number: u64) {
        text.put_number(self.written(number));
    }
}
