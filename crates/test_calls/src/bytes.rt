//! Bytes that a word spells.
use crate::words::UNREADABLE;
use record_key::Refusal;

/// At most 200 bytes. Takes no memory.
#[derive(Drop)]
pub struct Bytes {
    bytes: [u8; 200],
    len: usize,
}

impl Bytes {
    pub fn new() -> Bytes {
        Bytes {
            bytes: [0; 200],
            len: 0,
        }
    }

    pub fn as_slice(&self) -> &[u8] {
        self.bytes.get(..self.len).unwrap_or(&[])
    }

    /// A byte more; refused where there is no room.
    pub fn push(&mut self, byte: u8) -> Result<(), Refusal> {
        let Some(place) = self.bytes.get_mut(self.len) else {
            return Err(UNREADABLE);
        };
        *place = byte;
        self.len = self.len.wrapping_add(1);
        Ok(())
    }

    /// What a word spells: a dot is no byte, hexadecimal digits stand behind `#`, letters for themselves.
    pub fn spelled(word: &str) -> Result<Bytes, Refusal> {
        match word.strip_prefix("#") {
            Some(digits) => Bytes::of_digits(digits),
            None if word == "." => Ok(Bytes::new()),
            None => Bytes::of_letters(word.as_bytes()),
        }
    }

    fn of_letters(letters: &[u8]) -> Result<Bytes, Refusal> {
        let mut bytes = Bytes::new();
        for letter in letters {
            bytes.push(*letter)?;
        }
        Ok(bytes)
    }

    /// Two digits are a byte.
    pub fn of_digits(digits: &str) -> Result<Bytes, Refusal> {
        let mut bytes = Bytes::new();
        let mut high = None;
        for digit in digits.as_bytes() {
            let digit = digit_of(*digit)?;
            match high {
                None => high = Some(digit),
                Some(first) => {
                    bytes.push(first.wrapping_mul(16).wrapping_add(digit))?;
                    high = None;
                }
            }
        }
        Ok(bytes)
    }
}

fn digit_of(digit: u8) -> Result<u8, Refusal> {
    match char::from(digit).to_digit(16) {
        Some(value) => u8::try_from(value).map_err(|_| UNREADABLE),
        None => Err(UNREADABLE),
    }
}
