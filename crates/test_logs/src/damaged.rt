//! Logs that aren't as they were: a record is missing, stands twice or names another number, a byte is changed or the
//! last ones are missing. A legal log lets none of the first three pass.
use crate::opening::{Outcome, both};
use crate::spelled::spelled;
use history::Record;
use log_laws::is_legal;
use record_key::Refusal;
use std::alloc::Global;
use std::fmt::Write;

/// Whether the records are legal, by the log and by the slow checker, which is told where it says something else.
pub fn is_legal_to_both(
    alloc: Global,
    records: &[Record],
    answer: &mut String,
) -> Result<bool, Refusal> {
    let slow = is_legal(records);
    let fast = match spelled(alloc, records) {
        Ok(bytes) => both(alloc, &bytes, answer)? == Outcome::Records(records.len(), bytes.len()),
        Err(Refusal::NumbersSpent) => false,
        Err(refusal) => return Err(refusal),
    };
    if slow != fast {
        write!(answer, "slowly {slow} but {fast}; ")?;
    }
    Ok(slow)
}

/// The log with these records in place of one.
fn with(
    alloc: Global,
    log: &[Record],
    place: usize,
    instead: &[Record],
) -> Result<Vec<Record>, Refusal> {
    let mut new = Vec::new(alloc);
    for (at, record) in log.iter().enumerate() {
        if at == place {
            for other in instead {
                new.push(other.copied())?;
            }
        } else {
            new.push(record.copied())?;
        }
    }
    Ok(new)
}

/// The record with one of its numbers shifted, if it has so many.
fn shifted(record: &Record, which: usize, by: u64) -> Option<Record> {
    let mut new = record.copied();
    let number = match &mut new {
        Record::Commit { txn } | Record::End { txn } if which == 0 => txn,
        Record::Answer { of, .. } if which == 0 => of,
        Record::Op { txn, .. } | Record::Comp { txn, .. } if which == 0 => txn,
        Record::Op { prev, .. } if which == 1 => prev,
        Record::Comp { undoes, .. } if which == 1 => undoes,
        Record::Comp { next, .. } if which == 2 => next,
        _ => return None,
    };
    *number = number.wrapping_add(by);
    Some(new)
}

/// Each record counts: none may be missing but the last, none may stand twice, and no number may be one off. Tells
/// where that isn't so.
pub fn put_exactness(alloc: Global, log: &[Record], answer: &mut String) -> Result<(), Refusal> {
    for (place, record) in log.iter().enumerate() {
        let missing = with(alloc, log, place, &[])?;
        if is_legal_to_both(alloc, &missing, answer)? != (missing.len() == place) {
            write!(answer, "without {place}; ")?;
        }
        let twice = with(alloc, log, place, &[record.copied(), record.copied()])?;
        if is_legal_to_both(alloc, &twice, answer)? {
            write!(answer, "twice {place}; ")?;
        }
        put_shifts(alloc, log, place, record, answer)?;
    }
    Ok(())
}

fn put_shifts(
    alloc: Global,
    log: &[Record],
    place: usize,
    record: &Record,
    answer: &mut String,
) -> Result<(), Refusal> {
    for which in 0..3 {
        for by in [1, u64::MAX] {
            if let Some(other) = shifted(record, which, by) {
                let changed = with(alloc, log, place, &[other])?;
                if is_legal_to_both(alloc, &changed, answer)? {
                    write!(answer, "number {which} of {place}; ")?;
                }
            }
        }
    }
    Ok(())
}

/// Each beginning of the bytes, as both readers read it. Answers how many there are.
pub fn put_beginnings(alloc: Global, bytes: &[u8], answer: &mut String) -> Result<(), Refusal> {
    for end in 0..=bytes.len() {
        both(alloc, &bytes[..end], answer)?;
    }
    write!(answer, "{}", bytes.len().saturating_add(1))?;
    Ok(())
}

/// Each byte changed to each value, its own too, as both readers read it. Answers how many changes there are.
pub fn put_changes(alloc: Global, bytes: &mut Vec<u8>, answer: &mut String) -> Result<(), Refusal> {
    let mut count = 0u64;
    for place in 0..bytes.len() {
        count = count.saturating_add(changes_at(alloc, bytes, place, answer)?);
    }
    write!(answer, "{count}")?;
    Ok(())
}

fn changes_at(
    alloc: Global,
    bytes: &mut Vec<u8>,
    place: usize,
    answer: &mut String,
) -> Result<u64, Refusal> {
    let mut count = 0u64;
    let before = bytes.get(place).copied();
    for other in 0..=255u8 {
        put_at(bytes, place, Some(other));
        both(alloc, bytes, answer)?;
        count = count.saturating_add(1);
    }
    put_at(bytes, place, before);
    Ok(count)
}

fn put_at(bytes: &mut Vec<u8>, place: usize, new: Option<u8>) {
    if let (Some(byte), Some(new)) = (bytes.get_mut(place), new) {
        *byte = new;
    }
}
