//! The records of a log by their numbers. The log has the oldest first, and is read whole each time.
ghost use Rattle.std.specs.Prelude.{◌≡◌, reverse};
ghost use Rattle.std.specs.Option.{option_copied};
ghost use Rattle.history.specs.Log.{record_at, answer_of, is_crossed, has_ended, request_of, request_in, step_of, step_in, op_of, op_in};

use history::Record;
use record_key::{Answer, Op};

/// The transaction whose Op or Comp record it is.
pub fn step(item: &Record) -> Option<u64>
    ensures { result ≡ step_of item.now }
{
    match item {
        Record::Op { txn, .. } | Record::Comp { txn, .. } => Some(*txn),
        _ => None,
    }
}

/// What the record has done to a table: an operation, or an inverse.
pub fn request(item: &Record) -> Option<Op>
    ensures { result ≡ request_of item.now }
{
    match item {
        Record::Op { op, .. } => Some(op.copied()),
        Record::Comp {
            inverse: Some(inverse),
            ..
        } => Some(inverse.copied()),
        _ => None,
    }
}

/// The transaction and the operation of an Op record.
pub fn operation(item: &Record) -> Option<(u64, Op)>
    ensures { result ≡ op_of item.now }
{
    match item {
        Record::Op { txn, op, .. } => Some((*txn, op.copied())),
        _ => None,
    }
}

/// The record of this number.
pub fn numbered(log: &[Record], number: u64) -> Option<&Record>
    ensures { option_copied result ≡ record_at (reverse log.now) number }
{
    if number == 0 {
        None
    } else {
        log.get(number as usize - 1)
    }
}

/// What the record of this number has done to a table.
pub fn request_at(log: &[Record], number: u64) -> Option<Op>
    ensures { result ≡ request_in (record_at (reverse log.now) number) }
{
    numbered(log, number).and_then(request)
}

/// The transaction and the operation of the Op record of this number.
pub fn operation_at(log: &[Record], number: u64) -> Option<(u64, Op)>
    ensures { result ≡ op_in (record_at (reverse log.now) number) }
{
    numbered(log, number).and_then(operation)
}

/// The latest answer of the operation of this number.
pub fn answer(log: &[Record], number: u64) -> Option<Answer>
    ensures { result ≡ answer_of (reverse log.now) number }
{
    let mut found = None;
    for record in log {
        if let Record::Answer { of, answer } = record
            && *of == number
        {
            found = Some(answer.copied());
        }
    }
    found
}

/// A compensation names the operation of this number.
pub fn is_undone(log: &[Record], number: u64) -> bool
    ensures { result ≡ is_crossed (reverse log.now) number }
{
    let mut found = false;
    for record in log {
        if let Record::Comp { undoes, .. } = record
            && *undoes == number
        {
            found = true;
        }
    }
    found
}

/// A Commit or End of the transaction stands.
pub fn is_over(log: &[Record], txn: u64) -> bool
    ensures { result ≡ has_ended (reverse log.now) txn }
{
    let mut found = false;
    for record in log {
        if let Record::Commit { txn: ended } | Record::End { txn: ended } = record
            && *ended == txn
        {
            found = true;
        }
    }
    found
}
