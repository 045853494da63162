//! The log as its bytes say: whole frames, one after another.
ghost use Rattle.std.specs.Prelude.{◌≡◌, ◌+◌, ◌<◌, ◌^◌, [], length, reverse, take, IsTrue, OnOk, OnErr, IfOk, IfErr};
ghost use Rattle.stable.specs.PagesState.{Pages};
ghost use Rattle.stable.specs.Usage.{Usage, is_due, called, failed, called_often};
ghost use Rattle.dc_recovery.specs.Shape.{named};
ghost use Rattle.dc_recovery.specs.Recovery.{stored_session};
ghost use Rattle.dc_recovery.specs.Ready.{AreReadable};
ghost use Rattle.dc_store.specs.Devices.{spelled, places, pages_of};
ghost use Rattle.dc_store.specs.Finding.{AreRead, StopsReading};
ghost use Rattle.dc_store.specs.Recovering.{HoldsFrames, RefusesFrames};
ghost use Rattle.dc_store.specs.Uses.{log_calls};

use crate::reading::Reading;
use codec::{DcRecord, Taken, take_dc_record};
use framed_log::refusal_of;
use record_key::Refusal;
use stable::LogDevice;
use std::alloc::Global;

/// What the frames of a log's whole records say.
#[derive(Debug, Drop)]
pub(crate) struct Frames {
    /// The records, the oldest first.
    pub records: Vec<DcRecord>,
    /// Where the frame of each begins, and where the last one ends.
    pub places: Vec<usize>,
    pub end: usize,
    /// One above the greatest leaf number that is named.
    pub next_id: u64,
    /// The greatest session that was accepted, 0 if none.
    pub stored_session: u64,
}

/// Reads whole frames up to the end or to one that is cut. Refused BadBytes at the first frame that is bad or whose
/// record doesn't fit those before it; NoMemory.
pub(crate) fn read_frames(alloc: Global, bytes: &[u8]) -> Result<Frames, Refusal>
    ensures frames { IfOk result (λ found. HoldsFrames bytes.now (reverse found.records.items)) }
    ensures readable { IfOk result (λ found. (pages : Pages)
        → AreReadable (pages_of pages) (reverse found.records.items)) }
    ensures numbered { IfOk result (λ found. length found.records.items < 2 ^ 48) }
    ensures places { IfOk result (λ found. found.places.items ≡ places (reverse found.records.items)) }
    ensures end { IfOk result (λ found. found.end ≡ length (spelled (reverse found.records.items))) }
    ensures next { IfOk result (λ found. found.next_id ≡ named (reverse found.records.items) + 1) }
    ensures named { IfOk result (λ found. named (reverse found.records.items) < 2 ^ 48) }
    ensures stored { IfOk result (λ found.
        found.stored_session ≡ stored_session (reverse found.records.items)) }
    ensures refused { IfErr result (λ refusal. (pages : Pages) → RefusesFrames bytes.now pages refusal) }
{
    let mut reading = Reading::new(alloc)?;
    loop {
        match take_dc_record(alloc, bytes, reading.end)? {
            Taken::Record(found, next) => reading.take_in(found, next)?,
            Taken::Short => return Ok(frames_of(reading)),
            Taken::Bad(place) => return Err(Refusal::BadBytes(place)),
        }
    }
}

/// What is handed on once all is read.
fn frames_of(reading: Reading) -> Frames
    ensures { result ≡ record {
      records = reading.records;
      places = reading.places;
      «end» = reading.end;
      next_id = reading.known.next_id;
      stored_session = reading.known.stored_session;
    } }
{
    let Reading {
        records,
        places,
        end,
        known,
    } = reading;
    Frames {
        records,
        places,
        end,
        next_id: known.next_id,
        stored_session: known.stored_session,
    }
}

/// Reads the whole frames that a crash left on a device, in one call, and says how many bytes it holds. Refused Device
/// besides.
pub(crate) fn read_log<D: LogDevice>(
    alloc: Global,
    device: &mut D,
) -> Result<(Frames, usize), Refusal>
    requires { D.pending device.old ≡ [] }
    ensures read { IfOk result (λ found. AreRead (D.forced device.old) found.0) }
    ensures length { IfOk result (λ found. found.1 ≡ length (D.forced device.old)) }
    ensures used { OnOk result (D.usage device.new ≡ called (D.usage device.old)) }
    ensures stopped { IfErr result (λ refusal.
        StopsReading (D.forced device.old) refusal (D.usage device.old) (D.usage device.new)) }
    ensures forced { D.forced device.new ≡ D.forced device.old }
    ensures pending { D.pending device.new ≡ D.pending device.old }
{
    match device.bytes() {
        Ok(bytes) => Ok((read_frames(alloc, bytes)?, bytes.len())),
        Err(error) => Err(refusal_of(error)),
    }
}

/// Keeps the whole frames, which end here, of so many bytes: in one call, and in none where nothing follows them.
/// Refused Device.
pub(crate) fn cut_off<D: LogDevice>(device: &mut D, end: usize, len: usize) -> Result<(), Refusal>
    requires none_pending { D.pending device.old ≡ [] }
    requires length { len ≡ length (D.forced device.old) }
    ensures cut { OnOk result (D.forced device.new ≡ take end (D.forced device.old)) }
    ensures left { OnErr result (D.forced device.new ≡ D.forced device.old) }
    ensures none_left { D.pending device.new ≡ [] }
    ensures used { OnOk result ((before : Usage) → D.usage device.old ≡ called before
        → D.usage device.new ≡ called_often (log_calls end len) before) }
    ensures refused { IfErr result (λ refusal. refusal ≡ Refusal.Device) }
    ensures due { OnErr result (IsTrue (is_due (D.usage device.old))) }
    ensures failed { OnErr result (D.usage device.new ≡ failed (D.usage device.old)) }
{
    if end < len {
        if let Err(error) = device.cut(end) {
            return Err(refusal_of(error));
        }
    }
    Ok(())
}
