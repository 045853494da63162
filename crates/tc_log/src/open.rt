//! Opening what a crash left on a device.
ghost use Rattle.std.specs.Prelude.{◌≡◌, ◌+◌, ◌++◌, [], length, OnOk, OnErr, IfOk, IfErr};
ghost use Rattle.stable.specs.Usage.{called_often};
ghost use Rattle.tc_log.specs.Opening.{IsLogOf, RefusesOpen, cut_calls, FailsDue, UsedToOpen};
ghost use Rattle.tc_log.specs.Spelled.{spelled};

use crate::found::Found;
use crate::frames::Frames;
use crate::log::Log;
use record_key::Refusal;
use stable::LogDevice;
use std::alloc::Global;

/// A device that wasn't opened, as it was, and why.
#[derive(Debug, Drop)]
pub struct Refused<D> {
    pub refusal: Refusal,
    pub device: D,
}

impl<D: LogDevice> Found<D> {
    /// The log of what was found, all of it stable. A cut last frame is cut off the device, in one device call. The one
    /// refusal is Device.
    pub fn open(self) -> Result<Log<D>, Refused<D>>
        ensures opened { IfOk result (λ log. log ≡ record {
          records = self.records;
          stable = length self.records;
          usage = called_often (cut_calls self.bytes self.records) self.usage;
        }) }
        ensures refused { IfErr result (λ left. left.refusal ≡ Refusal.Device) }
        ensures forced { IfErr result (λ left. D.forced left.device ≡ self.bytes) }
        ensures none_pending { IfErr result (λ left. D.pending left.device ≡ []) }
        ensures needed { IfErr result (λ _. cut_calls self.bytes self.records ≡ 1) }
        ensures failed { IfErr result (λ left. FailsDue self.usage (D.usage left.device)) }
    {
        let Found { frames, index } = self;
        let mut frames = frames;
        if let Err(refusal) = cut_left(&mut frames) {
            return Err(Refused {
                refusal,
                device: frames.stop(),
            });
        }
        let stable = frames.len();
        let answered = frames.answered_from(index.answered);
        Ok(Log {
            frames,
            stable,
            answered,
            last_not_session: index.last_not_session,
        })
    }
}

impl<D: LogDevice> Log<D> {
    /// The log of the whole frames on a device, all of them stable. A cut last frame is cut off the device. Refused
    /// NoMemory, Device, or BadBytes at the first frame that is no record's or whose record doesn't fit those before
    /// it.
    pub fn open(alloc: Global, device: D) -> Result<Log<D>, Refused<D>>
        requires all_forced { D.pending device ≡ [] }
        ensures opened { IfOk result (λ log. IsLogOf (D.forced device) log.records) }
        ensures all_stable { IfOk result (λ log. log.stable ≡ length log.records) }
        ensures usage { IfOk result (λ log.
            log.usage ≡ called_often (1 + cut_calls (D.forced device) log.records) (D.usage device)) }
        ensures refused { IfErr result (λ left. RefusesOpen (D.forced device) left.refusal) }
        ensures forced { IfErr result (λ left. D.forced left.device ≡ D.forced device) }
        ensures none_pending { IfErr result (λ left. D.pending left.device ≡ []) }
        ensures used { IfErr result (λ left. UsedToOpen (D.usage device) left.refusal (D.usage left.device)) }
    {
        match Found::read(alloc, device) {
            Ok(found) => found.open(),
            Err(refused) => Err(refused),
        }
    }
}

/// Cuts a cut last frame off the device, in one device call, or none where no frame is cut.
fn cut_left<D: LogDevice>(frames: &mut Frames<D>) -> Result<(), Refusal>
    requires none_pending { frames.old.device.pending ≡ [] }
    requires parts { frames.old.device.forced ≡ spelled frames.old.records ++ frames.old.left }
    ensures records { OnOk result (frames.new.records ≡ frames.old.records) }
    ensures read { OnOk result (frames.new.left ≡ []) }
    ensures forced { OnOk result (frames.new.device.forced ≡ spelled frames.old.records) }
    ensures uncut { OnErr result (frames.new.device.forced ≡ frames.old.device.forced) }
    ensures pending { frames.new.device.pending ≡ [] }
    ensures cause { IfErr result (λ given. given ≡ Refusal.Device) }
    ensures called { OnOk result (frames.new.device.usage
        ≡ called_often (cut_calls frames.old.device.forced frames.old.records) frames.old.device.usage) }
    ensures needed { OnErr result (cut_calls frames.old.device.forced frames.old.records ≡ 1) }
    ensures failed { OnErr result (FailsDue frames.old.device.usage frames.new.device.usage) }
{
    if frames.is_read() {
        return Ok(());
    }
    frames.cut()
}
