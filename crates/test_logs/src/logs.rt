//! Logs as lists of records, what may follow them, and what their bytes are opened as.
use crate::damaged::{is_legal_to_both, put_beginnings, put_changes, put_exactness};
use crate::opening::{both, open_on, opened};
use crate::planned::compare_restarts;
use crate::questions::put_question;
use crate::spelled::spelled;
use history::Record;
use log_laws::{fits, plain_history};
use record_key::Refusal;
use std::alloc::Global;
use std::fmt::Write;
use test_lines::{OUTSIDE, Subject, Words, put_text};

/// The records that the lines before have listed.
#[derive(Drop)]
pub struct Logs {
    alloc: Global,
    records: Vec<Record>,
}

impl Logs {
    pub fn new(alloc: Global) -> Logs {
        Logs {
            alloc,
            records: Vec::new(alloc),
        }
    }
}

impl Subject for Logs {
    fn call(&mut self, call: &str, answer: &mut String) -> Result<(), Refusal> {
        let (alloc, records) = (self.alloc, &mut self.records);
        let mut words = Words::new(alloc, call);
        let mut whole = words;
        match words.word() {
            "new" => {
                records.clear();
                Ok(())
            }
            "legal" => put_legality(alloc, records, answer),
            "fits" => put_fit(alloc, records, &mut words, answer),
            "rows" => put_rows(alloc, records, answer),
            "exact" => put_exactness(alloc, records, answer),
            "restarts" => compare_restarts(alloc, records, answer),
            "ask" => ask(alloc, records, &mut words, answer),
            "bytes" => call_spelled(alloc, records, &mut words, answer),
            _ => list(records, &mut whole),
        }
    }
}

fn list(records: &mut Vec<Record>, words: &mut Words<'_>) -> Result<(), Refusal> {
    records.reserve(1)?;
    records.push_reserved(words.record()?);
    Ok(())
}

fn put_legality(alloc: Global, records: &[Record], answer: &mut String) -> Result<(), Refusal> {
    let is_legal = is_legal_to_both(alloc, records, answer)?;
    write!(answer, "{is_legal}")?;
    Ok(())
}

/// Whether a record may follow the records, which are left as they were.
fn put_fit(
    alloc: Global,
    records: &mut Vec<Record>,
    words: &mut Words<'_>,
    answer: &mut String,
) -> Result<(), Refusal> {
    list(records, words)?;
    let judged = judge_last(alloc, records, answer);
    records.pop();
    judged
}

/// Whether the last record fits, as one that the log has read says, and as the slow checker says of this one alone.
fn judge_last(alloc: Global, records: &[Record], answer: &mut String) -> Result<(), Refusal> {
    let Some((last, before)) = records.split_last() else {
        return Ok(());
    };
    let slow = fits(before, last);
    let fast = is_legal_to_both(alloc, records, answer)?;
    write!(answer, "{slow}")?;
    if slow != fast {
        write!(answer, " but {fast}")?;
    }
    Ok(())
}

fn ask(
    alloc: Global,
    records: &[Record],
    words: &mut Words<'_>,
    answer: &mut String,
) -> Result<(), Refusal> {
    let log = opened(alloc, records)?;
    put_question(alloc, &log, words, answer)
}

fn call_spelled(
    alloc: Global,
    records: &[Record],
    words: &mut Words<'_>,
    answer: &mut String,
) -> Result<(), Refusal> {
    let mut bytes = spelled(alloc, records)?;
    call_bytes(alloc, &mut bytes, words, answer)
}

/// The rows of the log's history.
fn put_rows(alloc: Global, records: &[Record], answer: &mut String) -> Result<(), Refusal> {
    let table = plain_history(alloc, records)?;
    for (key, value) in table.rows() {
        put_text(answer, key.as_bytes())?;
        answer.push('=')?;
        put_text(answer, value.as_bytes())?;
        answer.push(' ')?;
    }
    Ok(())
}

/// What the bytes of the log are opened as: all of them, the first ones, these with a device that fails, with one byte
/// changed, and each beginning and each change of a byte.
fn call_bytes(
    alloc: Global,
    bytes: &mut Vec<u8>,
    words: &mut Words<'_>,
    answer: &mut String,
) -> Result<(), Refusal> {
    let how = words.word();
    match how {
        "beginnings" => return put_beginnings(alloc, bytes, answer),
        "changes" => return put_changes(alloc, bytes, answer),
        "open" => {}
        "first" => bytes.truncate(words.number()? as usize),
        "fails" => {
            let fails = words.number()?;
            bytes.truncate(words.number()? as usize);
            return open_on(alloc, bytes, fails)?.put(answer);
        }
        "changed" => change(bytes, words.number()? as usize, words.number()?)?,
        _ => return Err(OUTSIDE),
    }
    both(alloc, bytes, answer)?.put(answer)
}

fn change(bytes: &mut Vec<u8>, place: usize, new: u64) -> Result<(), Refusal> {
    match bytes.get_mut(place) {
        Some(byte) if new < 256 => {
            *byte = new as u8;
            Ok(())
        }
        _ => Err(OUTSIDE),
    }
}
