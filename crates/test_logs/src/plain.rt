//! A slow reader of a log, which reads all of it for each question. The log has the oldest record first.
use history::Record;
use inverse::inverse;
use record_key::{Answer, Op, Refusal};
use std::alloc::Global;

pub fn has_commit(log: &[Record], txn: u64) -> bool {
    log.iter().any(|found| matches!(found, Record::Commit { txn: by } if *by == txn))
}

fn has_end(log: &[Record], txn: u64) -> bool {
    log.iter().any(|found| matches!(found, Record::End { txn: by } if *by == txn))
}

fn is_named(log: &[Record], number: u64) -> bool {
    log.iter().any(|found| matches!(found, Record::Comp { undoes, .. } if *undoes == number))
}

fn is_answered(log: &[Record], number: u64) -> bool {
    log.iter().any(|found| matches!(found, Record::Answer { of, .. } if *of == number))
}

fn is_loser(log: &[Record], txn: u64) -> bool {
    0 < txn
        && matches!(log.get(txn as usize - 1), Some(Record::Begin))
        && !has_commit(log, txn)
        && !has_end(log, txn)
}

/// The transaction whose operation of this number no Comp names, where that is a loser.
pub fn left_of(log: &[Record], number: u64) -> Option<u64> {
    if 0 < number
        && let Some(Record::Op { txn, .. }) = log.get(number as usize - 1)
        && is_loser(log, *txn)
        && !is_named(log, number)
    {
        return Some(*txn);
    }
    None
}

/// The greatest number below this one of an operation that is left, of this transaction or of any.
pub fn latest_left(log: &[Record], below: u64, of: Option<u64>) -> u64 {
    let mut latest = 0;
    for number in 1..below {
        if let Some(txn) = left_of(log, number)
            && (of.is_none() || of == Some(txn))
        {
            latest = number;
        }
    }
    latest
}

/// The least loser that has nothing left, 0 if none.
pub fn least_ended(log: &[Record]) -> u64 {
    let end = log.len() as u64;
    for txn in 1..=end {
        if is_loser(log, txn) && latest_left(log, end + 1, Some(txn)) == 0 {
            return txn;
        }
    }
    0
}

fn asks(log: &[Record], number: u64) -> bool {
    0 < number
        && matches!(
            log.get(number as usize - 1),
            Some(
                Record::Op { .. }
                    | Record::Comp {
                        inverse: Some(_),
                        ..
                    }
            )
        )
}

pub fn lacks_answer(log: &[Record], number: u64) -> bool {
    asks(log, number) && !is_answered(log, number)
}

/// One past the greatest number that is named as a checkpoint.
pub fn redo_start(log: &[Record]) -> u64 {
    let mut start = 1;
    for found in log {
        if let Record::Checkpoint { low } = found {
            start = start.max(low.saturating_add(1));
        }
    }
    start
}

/// The Comp of an operation, whose answer is somewhere in the log.
pub fn comp_of(log: &[Record], txn: u64, undoes: u64, next: u64) -> Record {
    let mut by = None;
    for found in log {
        if let Record::Answer { of, answer } = found
            && *of == undoes
        {
            by = inverse_at(log, undoes, answer);
        }
    }
    Record::Comp {
        txn,
        undoes,
        next,
        inverse: by,
    }
}

fn inverse_at(log: &[Record], number: u64, answer: &Answer) -> Option<Op> {
    if 0 < number
        && let Some(Record::Op { op, .. }) = log.get(number as usize - 1)
    {
        return inverse(op, answer);
    }
    None
}

/// The log, and an answer for each request that has none.
pub fn all_answered(alloc: Global, log: &[Record]) -> Result<Vec<Record>, Refusal> {
    let mut answered = Vec::new(alloc);
    for found in log {
        answered.push(found.copied())?;
    }
    let end = log.len() as u64;
    for number in 1..=end {
        if lacks_answer(log, number) {
            answered.push(Record::Answer {
                of: number,
                answer: Answer::Exists,
            })?;
        }
    }
    Ok(answered)
}

/// The first request from a number on, of all that stand.
pub fn redo_next(log: &[Record], from: u64) -> Option<u64> {
    let end = log.len() as u64;
    for number in 0..end {
        if from <= number && asks(log, number) {
            return Some(number);
        }
    }
    None
}
