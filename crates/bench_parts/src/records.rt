//! One measurement: a log of records is written into memory, and read again.
ghost use Rattle.std.specs.Prelude.{◌≤◌};

use codec::{Taken, put_record, take_record};
use history::Record;
use record_key::{Answer, Key, Op, Refusal, Value};
use std::alloc::Global;
use std::io;
use std::time::{Clock, Duration, Instant};

const TRANSACTIONS: u64 = 25_000;

/// What was written and read, and at how many megabytes a second.
pub struct Times {
    pub records: u64,
    pub bytes: usize,
    pub put: u64,
    pub taken: u64,
}

/// An operation with a key of 16 bytes, one of 100,000, and a value of 64.
fn insert(at: u64) -> Result<Op, Refusal> {
    let mut key = [b'k'; 16];
    let mut rest = at % 100_000;
    for place in 0..5 {
        key[place] = b'0' + (rest % 10) as u8;
        rest /= 10;
    }
    Ok(Op::Insert(Key::new(&key)?, Value::new(&[b'v'; 64])?))
}

/// Writes a log of transactions with one operation each.
pub fn put_log(log: &mut Vec<u8>, transactions: u64) -> Result<(), Refusal>
    requires few { transactions ≤ 1_000_000 }
{
    for at in 0..transactions {
        let txn = 4 * at + 1;
        put_record(log, &Record::Begin)?;
        let record = Record::Op {
            txn,
            prev: 0,
            op: insert(at)?,
        };
        put_record(log, &record)?;
        let answer = Record::Answer {
            of: txn + 1,
            answer: Answer::Inserted,
        };
        put_record(log, &answer)?;
        put_record(log, &Record::Commit { txn })?;
    }
    Ok(())
}

/// Reads the log to its end, and counts its records.
fn take_log(log: &[u8]) -> u64 {
    let mut at = 0;
    for count in 0..u64::MAX {
        match take_record(log, at) {
            Taken::Record(_, next) => at = next,
            _ => return count,
        }
    }
    u64::MAX
}

fn megabytes_a_second(bytes: usize, took: Duration) -> u64 {
    let micros = u64::try_from(took.as_micros()).unwrap_or(u64::MAX);
    bytes as u64 / micros.max(1)
}

/// Writes the log, then reads it.
pub fn measured<R: Clock>(rt: &R, alloc: Global) -> io::Result<Times> {
    let mut log = Vec::new(alloc);
    let start = Instant::now(rt)?;
    if put_log(&mut log, TRANSACTIONS).is_err() {
        return Err(io::Error::from(io::ErrorKind::OutOfMemory));
    }
    let written = Instant::now(rt)?;
    let records = take_log(log.as_slice());
    let read = Instant::now(rt)?;
    Ok(Times {
        records,
        bytes: log.len(),
        put: megabytes_a_second(log.len(), written.duration_since(start)),
        taken: megabytes_a_second(log.len(), read.duration_since(written)),
    })
}
