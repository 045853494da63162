//! Logs that are read as a crash leaves them.
ghost use Rattle.std.specs.Prelude.{◌≡◌, [], IfOk};

use dc_store::{Recovered, recover};
use record_key::Refusal;
use stable::{CrashLog, DeviceError, LogDevice, MemLog, MemPages, PageDevice};
use std::alloc::Global;
use test_calls::Text;

/// A device that holds these bytes, as a crash leaves it.
pub fn log_of(alloc: Global, bytes: &[u8]) -> Result<MemLog, Refusal>
    ensures { IfOk result (λ log. log.pending ≡ []) }
{
    let mut log = MemLog::new(alloc);
    log.append(bytes).map_err(refusal_of)?;
    log.crash(bytes.len());
    Ok(log)
}

/// Puts a page on a device.
pub fn put_page(pages: &mut MemPages, id: u64, image: &[u8]) -> Result<(), Refusal> {
    pages.write(id, image).map_err(refusal_of)
}

pub fn refusal_of(error: DeviceError) -> Refusal {
    match error {
        DeviceError::NoMemory => Refusal::NoMemory,
        DeviceError::Device => Refusal::Device,
    }
}

/// Reads the log and the pages. Refused Unsent where bytes aren't forced.
pub fn found(alloc: Global, log: &mut MemLog, pages: &mut MemPages) -> Result<Recovered, Refusal> {
    if !log.pending().is_empty() {
        return Err(Refusal::Unsent);
    }
    recover(alloc, log, pages)
}

/// `places N .. end N next N session N leaves N`.
pub fn put_found(answer: &mut Text, found: &Recovered) {
    answer.put("places");
    for place in &found.places {
        answer.put_number(*place as u64);
    }
    answer.put("end");
    answer.put_number(found.end as u64);
    answer.put("next");
    answer.put_number(found.next_id);
    answer.put("session");
    answer.put_number(found.stored_session);
    answer.put("leaves");
    answer.put_number(found.leaves.len() as u64);
}

/// Reads each beginning of the bytes: how many records there are and how many bytes stay, once for each such count. What
/// is cut is cut off the device, which is called a second time only then; where it isn't so, `call` is put.
pub fn put_beginnings(alloc: Global, bytes: &[u8], answer: &mut Text) -> Result<(), Refusal> {
    let mut before = None;
    for len in 0..=bytes.len() {
        let (records, left, is_cut) = beginning(alloc, bytes.get(..len).unwrap_or(&[]))?;
        if before != Some((records, left)) {
            answer.put_number(records as u64);
            answer.push("@");
            answer.push_number(left as u64);
            before = Some((records, left));
        }
        if is_cut != (left < len) {
            answer.put("call");
        }
    }
    Ok(())
}

/// Reads a log of these bytes: how many records there are, how many bytes it holds then, and whether it was called
/// twice.
fn beginning(alloc: Global, bytes: &[u8]) -> Result<(usize, usize, bool), Refusal> {
    let mut log = log_of(alloc, bytes)?;
    log.fail_at(3);
    let found = found(alloc, &mut log, &mut MemPages::new(alloc))?;
    let is_cut = log.force().is_err();
    log.fail_at(9);
    Ok((
        found.places.len(),
        log.bytes().map_err(refusal_of)?.len(),
        is_cut,
    ))
}
