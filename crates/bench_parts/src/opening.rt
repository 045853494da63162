//! One measurement: the log of a device is opened, so that each record is read, fitted and indexed.
ghost use Rattle.std.specs.Prelude.{◌≡◌, ◌≤◌, [], IfOk};

use crate::records::put_log;
use record_key::Refusal;
use stable::{CrashLog, DeviceError, LogDevice, MemLog};
use std::alloc::Global;
use std::io;
use std::time::{Clock, Instant};
use tc_log::Log;

/// A device that holds these bytes, as a crash leaves it.
fn device_of(alloc: Global, bytes: &[u8]) -> Result<MemLog, DeviceError>
    ensures { IfOk result (λ device. device.pending ≡ []) }
{
    let mut device = MemLog::new(alloc);
    device.append(bytes)?;
    device.crash(bytes.len());
    Ok(device)
}

/// A device with the records of so many transactions.
fn written(alloc: Global, transactions: u64) -> Result<MemLog, Refusal>
    requires few { transactions ≤ 1_000_000 }
    ensures { IfOk result (λ device. device.pending ≡ []) }
{
    let mut bytes = Vec::new(alloc);
    put_log(&mut bytes, transactions)?;
    match device_of(alloc, bytes.as_slice()) {
        Ok(device) => Ok(device),
        Err(_) => Err(Refusal::Device),
    }
}

/// How many records a second are opened, in a log of so many transactions of four records each.
pub fn opened<R: Clock>(rt: &R, alloc: Global, transactions: u64) -> io::Result<u64>
    requires few { transactions ≤ 1_000_000 }
{
    let Ok(device) = written(alloc, transactions) else {
        return Err(io::Error::from(io::ErrorKind::OutOfMemory));
    };
    let start = Instant::now(rt)?;
    let Ok(log) = Log::open(alloc, device) else {
        return Err(io::Error::from(io::ErrorKind::InvalidInput));
    };
    let took = Instant::now(rt)?.duration_since(start);
    let micros = u64::try_from(took.as_micros()).unwrap_or(u64::MAX);
    Ok(log.len().saturating_mul(1_000_000) / micros.max(1))
}
