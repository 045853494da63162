//! A log that is written record by record, beside the list of its records.
ghost use Rattle.std.specs.Prelude.{◌≡◌, [], reverse};

use crate::spelled::has_numbers;
use history::Record;
use log_laws::fits;
use record_key::Refusal;
use stable::{CrashLog, LogDevice, MemLog};
use std::alloc::Global;
use std::fmt::Write;
use std::mem;
use tc_log::Log;
use test_lines::{OUTSIDE, Subject, Words, put_hex};

/// A log and its records, the oldest first.
#[derive(Drop)]
struct Written {
    log: Log<MemLog>,
    records: Vec<Record>,
    ghost same: { log.records ≡ reverse records.items },
}

impl Written {
    /// The log of no records. Its device fails at a call of this number, at none where that is 0.
    fn new(alloc: Global, fails: u64) -> Written {
        Written {
            log: log_of(alloc, fails),
            records: Vec::new(alloc),
        }
    }

    /// Appends a record and gives its number. Refused NotNow where it doesn't fit, else as the log refuses it.
    fn append(&mut self, next: Record) -> Result<u64, Refusal> {
        self.records.reserve(1)?;
        if !fits(&self.records, &next) || !has_numbers(&next) {
            return Err(Refusal::NotNow);
        }
        let number = self.log.append(&next)?;
        self.records.push_reserved(next);
        Ok(number)
    }
}

/// The log of no records on a device that fails at a call of this number, at none where that is 0.
fn log_of(alloc: Global, fails: u64) -> Log<MemLog>
    ensures { result.records ≡ [] }
{
    let mut device = MemLog::new(alloc);
    if fails == 0 {
        return Log::new(alloc, device);
    }
    device.fail_at(fails);
    Log::new(alloc, device)
}

/// The log that the lines before have written.
#[derive(Drop)]
pub struct Writing {
    alloc: Global,
    written: Written,
}

impl Writing {
    pub fn new(alloc: Global) -> Writing {
        Writing {
            alloc,
            written: Written::new(alloc, 0),
        }
    }
}

impl Subject for Writing {
    fn call(&mut self, call: &str, answer: &mut String) -> Result<(), Refusal> {
        let mut words = Words::new(self.alloc, call);
        match words.word() {
            "new" => self.written = Written::new(self.alloc, words.number()?),
            "append" => return append(&mut self.written, &mut words, answer),
            "force" => return force(&mut self.written, answer),
            "ends" => return put_ends(&self.written.log, answer),
            "stop" => {
                let stopped = mem::replace(&mut self.written, Written::new(self.alloc, 0));
                return put_stopped(stopped, answer);
            }
            _ => return Err(OUTSIDE),
        }
        Ok(())
    }
}

fn append(
    written: &mut Written,
    words: &mut Words<'_>,
    answer: &mut String,
) -> Result<(), Refusal> {
    let next = words.record()?;
    let number = written.append(next)?;
    write!(answer, "{number}")?;
    Ok(())
}

fn force(written: &mut Written, answer: &mut String) -> Result<(), Refusal> {
    let end = written.log.force()?;
    write!(answer, "{end}")?;
    Ok(())
}

/// How many records are stable, up to which one all answers are, and which is the last that isn't a Session.
fn put_ends(log: &Log<MemLog>, answer: &mut String) -> Result<(), Refusal> {
    write!(
        answer,
        "stable {} answered {} last {}",
        log.stable_end(),
        log.answered_end(),
        log.last_not_session()
    )?;
    Ok(())
}

/// The bytes that the log leaves on its device.
fn put_stopped(written: Written, answer: &mut String) -> Result<(), Refusal> {
    let Written { log, records: _ } = written;
    match log.stop().bytes() {
        Ok(bytes) => put_hex(answer, bytes),
        Err(_) => Err(Refusal::Device),
    }
}
