//! Lists of numbers.
use crate::text::Text;

/// Numbers that are printed one by one: those that follow each other as one span.
#[derive(Clone, Copy)]
pub struct Numbers {
    first: u64,
    last: u64,
    is_begun: bool,
    has_any: bool,
}

impl Numbers {
    pub fn new() -> Numbers {
        Numbers {
            first: 0,
            last: 0,
            is_begun: false,
            has_any: false,
        }
    }

    /// Takes the next number, which is above those before.
    pub fn take(&mut self, text: &mut Text<'_, Vec<u8>>, number: u64) {
        if self.is_begun && self.last.checked_add(1) == Some(number) {
            self.last = number;
            return;
        }
        self.put(text);
        self.first = number;
        self.last = number;
        self.is_begun = true;
    }

    /// Writes the span that is left, if any.
    fn put(&mut self, text: &mut Text<'_, Vec<u8>>) {
        if !self.is_begun {
            return;
        }
        if self.has_any {
            text.say(", ");
        }
        self.has_any = true;
        self.is_begun = false;
        text.number(self.first);
        if self.first != self.last {
            text.say("-").number(self.last);
        }
    }

    /// Writes what is left, or that there is none.
    pub fn end(&mut self, text: &mut Text<'_, Vec<u8>>) {
        self.put(text);
        if !self.has_any {
            text.say("none");
        }
    }
}
