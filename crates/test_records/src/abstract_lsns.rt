//! Abstract page LSNs beside a plain list of what was captured.
use dc_ab_lsn::AbLsn;
use record_key::{Answer, Entry, Key, Refusal, Value};
use std::alloc::Global;
use std::fmt::Write;
use std::mem;
use test_lines::{OUTSIDE, Subject, Words, put_answer, put_key, refused};

/// One that notes numbers, another beside it, and all numbers that were noted.
#[derive(Drop)]
pub struct AbstractLsns {
    alloc: Global,
    own: AbLsn,
    other: AbLsn,
    noted: Vec<u64>,
}

impl AbstractLsns {
    pub fn new(alloc: Global) -> AbstractLsns {
        AbstractLsns {
            alloc,
            own: AbLsn::new(alloc),
            other: AbLsn::new(alloc),
            noted: Vec::new(alloc),
        }
    }

    /// Notes the numbers, each on the key of its last digit.
    fn note_all(&mut self, words: &mut Words<'_>) -> Result<(), Refusal> {
        for _ in 0..100 {
            if !words.is_empty() {
                self.noted.reserve(1)?;
                self.noted.push_reserved(note_next(&mut self.own, words)?);
            }
        }
        Ok(())
    }

    /// Drops the entries above an end; of the numbers that were noted those above it go too.
    fn pop_above(&mut self, end: u64) -> Result<(), Refusal> {
        self.own.pop_above(end);
        self.noted.retain(|number| *number <= end);
        Ok(())
    }
}

impl Subject for AbstractLsns {
    fn call(&mut self, call: &str, answer: &mut String) -> Result<(), Refusal> {
        let mut words = Words::new(self.alloc, call);
        match words.word() {
            "new" => self.own = AbLsn::new(self.alloc),
            "note" => return self.note_all(&mut words),
            "put" => return put_one(&mut self.own, &mut words),
            "raise" => self.own.raise(words.number()?),
            "pop" => return self.pop_above(words.number()?),
            "swap" => mem::swap(&mut self.own, &mut self.other),
            "cut" => return cut_at(&mut self.own, &mut self.other, &mut words),
            "join" => return join(&mut self.own, &self.other),
            "copy" => self.other = self.own.copied()?,
            "entries" => return put_entries(&self.own, answer),
            "captured" => return put_captured(&self.own, &self.noted, answer),
            "below" => return put_below(&self.own, &mut words, answer),
            _ => return Err(OUTSIDE),
        }
        Ok(())
    }
}

/// Notes a number on the key of its last digit.
fn note_next(own: &mut AbLsn, words: &mut Words<'_>) -> Result<u64, Refusal> {
    let number = words.number()?;
    let key = Key::new(&[(number % 10) as u8])?;
    note(own, number, &key)?;
    Ok(number)
}

/// Notes a number on the key that stands behind it.
fn put_one(own: &mut AbLsn, words: &mut Words<'_>) -> Result<(), Refusal> {
    let number = words.number()?;
    let key = words.key()?;
    note(own, number, &key)
}

/// An answer that tells numbers apart.
fn answer_of(number: u64) -> Result<Answer, Refusal> {
    Ok(Answer::Updated(Value::new(&[(number % 251) as u8])?))
}

/// Captures one number more, if it isn't captured. Refused NoMemory.
fn note(own: &mut AbLsn, number: u64, key: &Key) -> Result<(), Refusal> {
    if own.captures(number) {
        return Ok(());
    }
    let len = own.entries().len();
    let given = answer_of(number)?;
    match own.note(number, key, &given.lent()) {
        Ok(()) => Ok(()),
        Err(refusal) => {
            let is_unchanged = own.entries().len() == len && !own.captures(number);
            Err(refused(refusal, is_unchanged))
        }
    }
}

/// Gives the entries from a key on away to another one. Refused NoMemory.
fn cut_at(own: &mut AbLsn, other: &mut AbLsn, words: &mut Words<'_>) -> Result<(), Refusal> {
    let key = words.key()?;
    cut(own, other, &key)
}

fn cut(own: &mut AbLsn, other: &mut AbLsn, key: &Key) -> Result<(), Refusal> {
    let len = own.entries().len();
    match own.cut(key) {
        Ok(upper) => {
            *other = upper;
            Ok(())
        }
        Err(refusal) => Err(refused(refusal, own.entries().len() == len)),
    }
}

/// Takes what the other one captures besides. Refused NoMemory.
fn join(own: &mut AbLsn, other: &AbLsn) -> Result<(), Refusal> {
    let len = own.entries().len();
    match own.join(other) {
        Ok(()) => Ok(()),
        Err(refusal) => Err(refused(refusal, own.entries().len() == len)),
    }
}

/// The low number, and each entry above it.
fn put_entries(own: &AbLsn, answer: &mut String) -> Result<(), Refusal> {
    write!(answer, "low {}", own.low())?;
    for at in 0..own.entries().len() {
        put_entry(&own.entries().entry(at), answer)?;
    }
    Ok(())
}

fn put_entry(entry: &Entry, answer: &mut String) -> Result<(), Refusal> {
    write!(answer, " {}", entry.number)?;
    put_key(answer, "", &entry.key)?;
    answer.push(' ')?;
    put_answer(answer, &entry.answer)
}

/// The low number and how many entries there are, after each number below 200 that isn't captured or answered as the
/// list of what was noted says.
fn put_captured(own: &AbLsn, noted: &[u64], answer: &mut String) -> Result<(), Refusal> {
    for number in 0..200 {
        let is_saved = own.low() < number && noted.contains(&number);
        let is_captured = number <= own.low() || is_saved;
        if own.captures(number) != is_captured || !has_answer(own, number, is_saved)? {
            write!(answer, "differs at {number} ")?;
        }
    }
    write!(answer, "low {} entries {}", own.low(), own.entries().len())?;
    Ok(())
}

/// Whether the number has its own answer, or none where it isn't saved.
fn has_answer(own: &AbLsn, number: u64, is_saved: bool) -> Result<bool, Refusal> {
    match own.answer_of(number) {
        Some(given) => Ok(is_saved && given == answer_of(number)?),
        None => Ok(!is_saved),
    }
}

/// How many entries have keys below this one, of how many.
fn put_below(own: &AbLsn, words: &mut Words<'_>, answer: &mut String) -> Result<(), Refusal> {
    let key = words.key()?;
    let below = count_below(own, &key);
    let len = own.entries().len();
    write!(answer, "{below} of {len}")?;
    Ok(())
}

fn count_below(own: &AbLsn, key: &Key) -> usize {
    let mut below = 0usize;
    for at in 0..own.entries().len() {
        if own.entries().entry(at).key < *key {
            below = below.saturating_add(1);
        }
    }
    below
}
