//! Log devices: one in memory that fails and crashes when it is told to, and one written against the trait alone.
ghost use Rattle.std.specs.Prelude.{◌≡◌, []};

use crate::listed_log::ListedLog;
use record_key::Refusal;
use stable::{CrashLog, DeviceError, LogDevice, MemLog};
use std::alloc::Global;
use std::fmt::Write;
use std::marker::Send;
use test_lines::{OUTSIDE, Subject, Words, bytes_of, put_hex};

/// The devices that the lines before have left.
#[derive(Drop)]
pub struct Devices {
    alloc: Global,
    log: MemLog,
    listed: ListedLog,
}

impl Devices {
    pub fn new(alloc: Global) -> Devices {
        Devices {
            alloc,
            log: sent(MemLog::new(alloc)),
            listed: ListedLog::new(alloc, Vec::new(alloc)),
        }
    }

    /// Another device from outside. Its calls to come fail where a 1 is listed, the last one first.
    fn list_faults(&mut self, words: &mut Words<'_>) -> Result<(), Refusal> {
        let mut faults = Vec::new(self.alloc);
        for _ in 0..64 {
            if !words.is_empty() {
                faults.push(words.number()? == 1)?;
            }
        }
        self.listed = ListedLog::new(self.alloc, faults);
        Ok(())
    }
}

impl Subject for Devices {
    fn call(&mut self, call: &str, answer: &mut String) -> Result<(), Refusal> {
        let mut words = Words::new(self.alloc, call);
        match words.word() {
            "new" => self.log = MemLog::new(self.alloc),
            "list" => return self.list_faults(&mut words),
            "store" => {
                let bytes = bytes_of(self.alloc, words.rest())?;
                return store(&mut self.log, &bytes, answer);
            }
            "storelisted" => {
                let bytes = bytes_of(self.alloc, words.rest())?;
                return store(&mut self.listed, &bytes, answer);
            }
            "errors" => write!(answer, "{}, {}", DeviceError::NoMemory, DeviceError::Device)?,
            name => return call_log(self.alloc, &mut self.log, name, &mut words, answer),
        }
        Ok(())
    }
}

/// A device may go to another thread.
fn sent<T: Send>(device: T) -> T {
    device
}

pub fn refusal_of(error: DeviceError) -> Refusal {
    match error {
        DeviceError::NoMemory => Refusal::NoMemory,
        DeviceError::Device => Refusal::Device,
    }
}

/// Appends, forces and tells all, knowing no more than the trait.
fn store<D: LogDevice>(log: &mut D, bytes: &[u8], answer: &mut String) -> Result<(), Refusal> {
    log.append(bytes).map_err(refusal_of)?;
    log.force().map_err(refusal_of)?;
    put_bytes(log, answer)
}

fn put_bytes<D: LogDevice>(log: &mut D, answer: &mut String) -> Result<(), Refusal> {
    match log.bytes() {
        Ok(bytes) => put_hex(answer, bytes),
        Err(error) => Err(refusal_of(error)),
    }
}

fn call_log(
    alloc: Global,
    log: &mut MemLog,
    name: &str,
    words: &mut Words<'_>,
    answer: &mut String,
) -> Result<(), Refusal> {
    match name {
        "append" => log
            .append(&bytes_of(alloc, words.rest())?)
            .map_err(refusal_of),
        "force" => log.force().map_err(refusal_of),
        "bytes" => put_bytes(log, answer),
        "pending" => put_hex(answer, log.pending()),
        "fail" => fail_at(log, words.number()?),
        "crash" => {
            log.crash(words.number()? as usize);
            Ok(())
        }
        "clear" => clear(log),
        "cut" => cut(log, words.number()? as usize),
        _ => Err(OUTSIDE),
    }
}

fn fail_at(log: &mut MemLog, n: u64) -> Result<(), Refusal> {
    if n == 0 {
        return Err(OUTSIDE);
    }
    log.fail_at(n);
    Ok(())
}

/// Cuts all that a crash leaves, in one device call.
fn clear(log: &mut MemLog) -> Result<(), Refusal> {
    log.crash(usize::MAX);
    log.cut(0).map_err(refusal_of)
}

/// Keeps so many bytes of a device on which all are forced.
fn cut(log: &mut MemLog, len: usize) -> Result<(), Refusal> {
    if !log.pending().is_empty() {
        return Err(OUTSIDE);
    }
    trim(log, len).map_err(refusal_of)
}

/// Reads all, and cuts what stands after the first `len` bytes.
fn trim<D: LogDevice>(log: &mut D, len: usize) -> Result<(), DeviceError>
    requires { D.pending log.old ≡ [] }
{
    if len < log.bytes()?.len() {
        log.cut(len)?;
    }
    Ok(())
}
