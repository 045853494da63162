//! A number for what can be seen of something.
use codec::LentRows;
use record_key::Entries;

/// The hash of Fowler, Noll and Vo, 64 bits, over what is added.
#[derive(Drop)]
pub struct Digest {
    hash: u64,
}

impl Digest {
    pub fn new() -> Digest {
        Digest {
            hash: 0xcbf2_9ce4_8422_2325,
        }
    }

    pub fn number(&self) -> u64 {
        self.hash
    }

    fn add_byte(&mut self, byte: u8) {
        self.hash = (self.hash ^ u64::from(byte)).wrapping_mul(0x0000_0100_0000_01b3);
    }

    pub fn add_number(&mut self, number: u64) {
        for byte in number.to_be_bytes() {
            self.add_byte(byte);
        }
    }

    pub fn add_bytes(&mut self, bytes: &[u8]) {
        for byte in bytes {
            self.add_byte(*byte);
        }
        self.add_number(bytes.len() as u64);
    }

    pub fn add_rows(&mut self, rows: &LentRows<'_>) {
        let mut rest = rows.again();
        for _ in 0..rows.len() {
            if let Some((key, value)) = rest.next_texts() {
                self.add_bytes(key);
                self.add_bytes(value);
            }
        }
    }

    /// Which numbers there are, and on which keys.
    pub fn add_entries(&mut self, entries: &Entries) {
        for place in 0..entries.len() {
            let entry = entries.entry(place);
            self.add_number(entry.number);
            self.add_bytes(entry.key.as_bytes());
        }
    }
}
