//! A table as a map from texts to texts, as the shell writes them.
use crate::eight_bytes::{number_of, text_of};
use std::alloc::{AllocError, Global};
use std::collections::BTreeMap;

/// The rows, by key.
#[derive(Drop)]
pub struct PlainTable<'a> {
    alloc: Global,
    rows: BTreeMap<&'a str, String>,
}

impl<'a> PlainTable<'a> {
    /// A table without rows.
    pub fn new(alloc: Global) -> PlainTable<'a> {
        PlainTable {
            alloc,
            rows: BTreeMap::new(alloc),
        }
    }

    /// Performs the operation, and gives its answer.
    pub fn perform(&mut self, operation: &'a str) -> Result<String, AllocError> {
        let (name, words) = parted(operation);
        let (key, value) = parted(words);
        match self.rows.remove(key) {
            Some(old) => self.change(name, key, value, old),
            None => self.make(name, key, value),
        }
    }

    /// Performs an operation on a key without a record.
    fn make(&mut self, name: &str, key: &'a str, value: &str) -> Result<String, AllocError> {
        let answer = match name {
            "insert" => "inserted",
            "upsert" => "was -",
            _ => return String::from_str(self.alloc, "missing"),
        };
        self.put(key, value)?;
        String::from_str(self.alloc, answer)
    }

    /// Performs an operation on a key whose record was taken out.
    fn change(
        &mut self,
        name: &str,
        key: &'a str,
        value: &str,
        old: String,
    ) -> Result<String, AllocError> {
        match name {
            "update" => {
                self.put(key, value)?;
                format!(in self.alloc; "updated {old}")
            }
            "upsert" => {
                self.put(key, value)?;
                format!(in self.alloc; "was {old}")
            }
            "delete" => format!(in self.alloc; "deleted {old}"),
            "add" => self.add(key, value, old.as_str()),
            _ => {
                self.put(key, old.as_str())?;
                String::from_str(self.alloc, "exists")
            }
        }
    }

    /// Adds to a record that was taken out.
    fn add(&mut self, key: &'a str, amount: &str, old: &str) -> Result<String, AllocError> {
        let (Some(number), Ok(added)) = (number_of(old), amount.parse::<u64>()) else {
            self.put(key, old)?;
            return String::from_str(self.alloc, "notnumber");
        };
        let sum = text_of(self.alloc, number.wrapping_add(added))?;
        self.put(key, sum.as_str())?;
        format!(in self.alloc; "added {added}")
    }

    fn put(&mut self, key: &'a str, value: &str) -> Result<(), AllocError> {
        self.rows.insert(key, String::from_str(self.alloc, value)?)?;
        Ok(())
    }

    /// The lines of the table.
    pub fn text(&self) -> Result<String, AllocError> {
        let mut text = String::new(self.alloc);
        for (key, value) in &self.rows {
            text.push_str(format!(in self.alloc; "{key}={value}\n")?.as_str())?;
        }
        text.push_str(format!(in self.alloc; "rows {}\n", self.rows.len())?.as_str())?;
        Ok(text)
    }
}

/// The first word, and those behind it.
fn parted(words: &str) -> (&str, &str) {
    match words.split_once(' ') {
        Some(parts) => parts,
        None => (words, ""),
    }
}
