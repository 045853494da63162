//! The text of an answer.
use arrayvec::ArrayString;
use itoa::Buffer;

/// Words with a space between them. What goes past its end is left out, and it takes no memory.
#[derive(Drop)]
pub struct Text {
    text: ArrayString<800>,
}

impl Text {
    pub fn new() -> Text {
        Text {
            text: ArrayString::new(),
        }
    }

    pub fn clear(&mut self) {
        self.text.clear();
    }

    pub fn as_str(&self) -> &str {
        self.text.as_str()
    }

    pub fn is_empty(&self) -> bool {
        self.as_str().is_empty()
    }

    /// A part of a word.
    pub fn push(&mut self, part: &str) {
        let _ = self.text.try_push_str(part);
    }

    pub fn push_number(&mut self, number: u64) {
        self.push(Buffer::new().format(number));
    }

    /// What a key or a value holds: a dot where it is empty, letters and digits as they are, else its hexadecimal
    /// digits behind `#`.
    pub fn push_bytes(&mut self, bytes: &[u8]) {
        if bytes.is_empty() {
            self.push(".");
        } else if bytes.iter().all(|byte| byte.is_ascii_alphanumeric()) {
            self.push_plain(bytes);
        } else {
            self.push("#");
            self.push_digits(bytes);
        }
    }

    fn push_plain(&mut self, bytes: &[u8]) {
        for byte in bytes {
            let _ = self.text.try_push(char::from(*byte));
        }
    }

    /// Two hexadecimal digits for each byte.
    pub fn push_digits(&mut self, bytes: &[u8]) {
        for byte in bytes {
            self.push_digit(*byte / 16);
            self.push_digit(*byte % 16);
        }
    }

    fn push_digit(&mut self, digit: u8) {
        let digits = b"0123456789abcdef";
        if let Some(digit) = digits.get(usize::from(digit)) {
            let _ = self.text.try_push(char::from(*digit));
        }
    }

    /// A word more.
    pub fn put(&mut self, word: &str) {
        if !self.is_empty() {
            self.push(" ");
        }
        self.push(word);
    }

    pub fn put_number(&mut self, number: u64) {
        self.put("");
        self.push_number(number);
    }

    pub fn put_bytes(&mut self, bytes: &[u8]) {
        self.put("");
        self.push_bytes(bytes);
    }
}
