//! Savepoints that are set and gone back to.
use record_key::Refusal;
use std::alloc::Global;
use std::fmt::Write;
use tc_undo::Saves;
use test_lines::{OUTSIDE, Subject, Words};

/// The savepoints that the lines before have left.
#[derive(Drop)]
pub struct Saved {
    alloc: Global,
    saves: Saves,
}

impl Saved {
    pub fn new(alloc: Global) -> Saved {
        Saved {
            alloc,
            saves: Saves::new(),
        }
    }
}

impl Subject for Saved {
    fn call(&mut self, call: &str, answer: &mut String) -> Result<(), Refusal> {
        let mut words = Words::new(self.alloc, call);
        match words.word() {
            "new" => self.saves = Saves::new(),
            "save" => write!(answer, "{}", self.saves.save(words.number()?)?)?,
            "back" => write!(answer, "{}", self.saves.back_to(words.number()?)?)?,
            "len" => write!(answer, "{}", self.saves.len())?,
            _ => return Err(OUTSIDE),
        }
        Ok(())
    }
}
