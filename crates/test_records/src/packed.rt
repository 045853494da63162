//! Packed entries beside a plain list.
use record_key::{Answer, Entries, Entry, Key, Refusal, Value};
use std::alloc::Global;
use std::fmt::Write;
use test_lines::{OUTSIDE, Subject, Words, refused};

/// The same entries packed and listed, after so many steps.
#[derive(Drop)]
pub struct Packed {
    alloc: Global,
    packed: Entries,
    listed: Vec<Entry>,
    steps: u64,
}

impl Packed {
    pub fn new(alloc: Global) -> Packed {
        Packed {
            alloc,
            packed: Entries::new(alloc),
            listed: Vec::new(alloc),
            steps: 0,
        }
    }

    /// Takes steps until there were so many. Answers how many entries there are, or after which step both differ.
    fn walk(&mut self, end: u64, answer: &mut String) -> Result<(), Refusal> {
        for step in self.steps..end {
            take_step(&mut self.packed, &mut self.listed, step)?;
            self.steps = step + 1;
            if !is_listed(&self.packed, &self.listed) {
                write!(answer, "differs after {} ", self.steps)?;
            }
        }
        write!(answer, "{}", self.packed.len())?;
        Ok(())
    }
}

impl Subject for Packed {
    fn call(&mut self, call: &str, answer: &mut String) -> Result<(), Refusal> {
        let mut words = Words::new(self.alloc, call);
        match words.word() {
            "walk" => self.walk(words.number()?, answer)?,
            "copy" => put_copy(&self.packed, &self.listed, answer)?,
            "drop" => {
                self.packed.drop_to(words.number()?);
                write!(answer, "{}", self.packed.len())?;
            }
            _ => return Err(OUTSIDE),
        }
        Ok(())
    }
}

/// Whether a copy has the entries of the list.
fn put_copy(packed: &Entries, listed: &[Entry], answer: &mut String) -> Result<(), Refusal> {
    let copied = packed.copied()?;
    write!(answer, "{}", is_listed(&copied, listed))?;
    Ok(())
}

/// Puts an entry into both, and drops some. Refused NoMemory before anything has changed.
fn take_step(packed: &mut Entries, listed: &mut Vec<Entry>, step: u64) -> Result<(), Refusal> {
    put(packed, listed, step)?;
    drop_some(packed, listed, step)
}

/// The entries are those of the list.
fn is_listed(packed: &Entries, listed: &[Entry]) -> bool {
    if packed.len() != listed.len() {
        return false;
    }
    for at in 0..packed.len() {
        if packed.entry(at) != listed[at] {
            return false;
        }
    }
    true
}

/// Each kind of answer in turn, with values of 0 to 120 bytes.
fn nth_answer(n: u64) -> Result<Answer, Refusal> {
    let bytes = [(n % 256) as u8; 120];
    let value = Value::new(&bytes[..(n % 1000 * 17 % 121) as usize])?;
    Ok(match n % 9 {
        0 => Answer::Inserted,
        1 => Answer::Updated(value),
        2 => Answer::Was(None),
        3 => Answer::Was(Some(value)),
        4 => Answer::Deleted(value),
        5 => Answer::Exists,
        6 => Answer::NotNumber,
        7 => Answer::Added(n.wrapping_mul(0x0123_4567_89ab_cdef)),
        _ => Answer::NoRecord,
    })
}

/// A key of 1 to 32 bytes.
fn nth_key(n: u64) -> Result<Key, Refusal> {
    let bytes = [(n % 1000 * 31 % 256) as u8; 32];
    Key::new(&bytes[..1 + (n % 1000 * 13 % 32) as usize])
}

fn nth(n: u64) -> Result<Entry, Refusal> {
    Ok(Entry {
        number: n % 1000 * 7 % 400,
        key: nth_key(n)?,
        answer: nth_answer(n)?,
    })
}

/// Puts an entry at a place of both. Refused NoMemory, and both are unchanged then.
fn put(packed: &mut Entries, listed: &mut Vec<Entry>, n: u64) -> Result<(), Refusal> {
    let at = (n % 1000 * 11) as usize % (listed.len() + 1);
    listed.reserve(1)?;
    let entry = nth(n)?;
    put_packed(packed, at, &entry, listed)?;
    listed.insert(at, entry)?;
    Ok(())
}

fn put_packed(
    packed: &mut Entries,
    at: usize,
    entry: &Entry,
    listed: &[Entry],
) -> Result<(), Refusal> {
    if at > packed.len() {
        return Ok(());
    }
    match packed.insert(at, entry.number, &entry.key, &entry.answer.lent()) {
        Ok(()) => Ok(()),
        Err(refusal) => Err(refused(refusal, is_listed(packed, listed))),
    }
}

/// Drops of both what has a low number, or a high key.
fn drop_some(packed: &mut Entries, listed: &mut Vec<Entry>, n: u64) -> Result<(), Refusal> {
    if n % 40 == 39 {
        packed.drop_to(n / 2);
        listed.retain(|entry| n / 2 < entry.number);
    }
    if n % 60 == 59 {
        let key = nth_key(n)?;
        packed.drop_from(&key);
        listed.retain(|entry| entry.key < key);
    }
    Ok(())
}
