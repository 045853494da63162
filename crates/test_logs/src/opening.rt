//! What opening bytes comes to.
ghost use Rattle.std.specs.Prelude.{◌≡◌, [], IfOk};

use crate::devices::refusal_of;
use crate::slow::slowly;
use crate::spelled::spelled;
use history::Record;
use record_key::Refusal;
use stable::{CrashLog, LogDevice, MemLog};
use std::alloc::Global;
use std::fmt::Write;
use tc_log::{Log, Refused};
use test_lines::{put_refusal, refused};

/// How many records there are and where their frames end, or why the device isn't opened.
#[derive(Debug, Clone, Copy, PartialEq, Eq)]
pub enum Outcome {
    Records(usize, usize),
    No(Refusal),
}

impl Outcome {
    pub fn put(self, answer: &mut String) -> Result<(), Refusal> {
        match self {
            Outcome::Records(count, end) => write!(answer, "records {count} bytes {end}")?,
            Outcome::No(refusal) => put_refusal(answer, refusal)?,
        }
        Ok(())
    }
}

/// A device that holds these bytes, as a crash leaves it.
fn device_of(alloc: Global, bytes: &[u8]) -> Result<MemLog, Refusal>
    ensures { IfOk result (λ device. device.pending ≡ []) }
{
    let mut device = MemLog::new(alloc);
    if device.append(bytes).is_err() {
        return Err(Refusal::NoMemory);
    }
    device.crash(bytes.len());
    Ok(device)
}

/// The log of these records, as it is opened after a crash.
pub fn opened(alloc: Global, records: &[Record]) -> Result<Log<MemLog>, Refusal> {
    let bytes = spelled(alloc, records)?;
    let device = device_of(alloc, &bytes)?;
    match Log::open(alloc, device) {
        Ok(log) => Ok(log),
        Err(left) => Err(left.refusal),
    }
}

/// The same, of which a call of this number fails, none where that is 0.
fn failing_device_of(alloc: Global, bytes: &[u8], fails: u64) -> Result<MemLog, Refusal>
    ensures { IfOk result (λ device. device.pending ≡ []) }
{
    let mut device = device_of(alloc, bytes)?;
    if fails == 0 {
        return Ok(device);
    }
    device.fail_at(fails);
    Ok(device)
}

/// What opening these bytes comes to. The device fails at a call of this number, at none where that is 0.
pub fn open_on(alloc: Global, bytes: &[u8], fails: u64) -> Result<Outcome, Refusal> {
    let device = failing_device_of(alloc, bytes, fails)?;
    match Log::open(alloc, device) {
        Ok(log) => Ok(records_of(log)),
        Err(left) => fault_of(left, bytes),
    }
}

fn records_of(log: Log<MemLog>) -> Outcome {
    let count = log.len();
    let end = log.end_of(count);
    let mut device = log.stop();
    match device.bytes() {
        Ok(bytes) => Outcome::Records(count as usize, bytes.len()),
        // This call was the one that was to fail.
        Err(_) => Outcome::Records(count as usize, end),
    }
}

/// A device that isn't opened comes back with its bytes.
fn fault_of(left: Refused<MemLog>, bytes: &[u8]) -> Result<Outcome, Refusal> {
    let Refused {
        refusal,
        mut device,
    } = left;
    let same = match device.bytes() {
        Ok(left) => left == bytes,
        // This call was the one that was to fail.
        Err(_) => true,
    };
    match refused(refusal, same) {
        Refusal::NoMemory => Err(Refusal::NoMemory),
        refusal => Ok(Outcome::No(refusal)),
    }
}

/// What opening these bytes comes to, by the log and by the slow reader, which is told where it says something else.
pub fn both(alloc: Global, bytes: &[u8], answer: &mut String) -> Result<Outcome, Refusal> {
    let (fast, slow) = (open_on(alloc, bytes, 0)?, slowly(alloc, bytes)?);
    if fast != slow {
        fast.put(answer)?;
        answer.push_str(" but slowly ")?;
        slow.put(answer)?;
        answer.push_str("; ")?;
    }
    Ok(fast)
}
