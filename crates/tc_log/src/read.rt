//! Reading what a crash left on a device.
ghost use Rattle.std.specs.Prelude.{◌≡◌, ◌⊎◌, ◌+◌, ◌<◌, ◌≤◌, ◌∷◌, ◌++◌, [], length, OnOk, OnErr, IfOk, IfErr};
ghost use Rattle.std.specs.BTreeMap.{btree_map_len};
ghost use Rattle.history.specs.Legal.{Fits};
ghost use Rattle.codec.specs.Frames.{frame, IsCut};
ghost use Rattle.codec.specs.Records.{record_bytes};
ghost use Rattle.stable.specs.Usage.{called};
ghost use Rattle.tc_log.specs.Opening.{BeginsAs, IsLogOf, RefusesBytes, RefusesOpen, FailsDue, UsedToRead};
ghost use Rattle.tc_log.specs.KeysKept.{keys_kept, KeepsNoneOver};
ghost use Rattle.tc_log.specs.Replay.{IsIndex};
ghost use Rattle.tc_log.specs.Spelled.{spelled, StandsNext};

use crate::fits::fits;
use crate::found::Found;
use crate::frames::Frames;
use crate::judge::{Judge, Unjudged};
use crate::open::Refused;
use crate::replay::Index;
use crate::write::LAST_NUMBER;
use codec::FrameEnd;
use framed_log::refusal_of;
use history::Record;
use record_key::Refusal;
use stable::LogDevice;
use std::alloc::Global;

impl<D: LogDevice> Found<D> {
    /// The log of the whole frames on a device, in one device call. Refused NoMemory, Device, or BadBytes at the first
    /// frame that is no record's or whose record doesn't fit those before it.
    pub fn read(alloc: Global, device: D) -> Result<Found<D>, Refused<D>>
        requires all_forced { D.pending device ≡ [] }
        ensures found { IfOk result (λ found. IsLogOf (D.forced device) found.records) }
        ensures bytes { IfOk result (λ found. found.bytes ≡ D.forced device) }
        ensures called { IfOk result (λ found. found.usage ≡ called (D.usage device)) }
        ensures refused { IfErr result (λ left. RefusesOpen (D.forced device) left.refusal) }
        ensures forced { IfErr result (λ left. D.forced left.device ≡ D.forced device) }
        ensures none_pending { IfErr result (λ left. D.pending left.device ≡ []) }
        ensures used { IfErr result (λ left. UsedToRead (D.usage device) left.refusal (D.usage left.device)) }
    {
        Found::read_judged(alloc, device, &mut Unjudged::new())
    }

    /// The same, where the judge is shown each record as soon as it was read and fits those before it. It was shown all
    /// records of a log that is found.
    pub fn read_judged<J: Judge>(
        alloc: Global,
        device: D,
        judge: &mut J,
    ) -> Result<Found<D>, Refused<D>>
        requires all_forced { D.pending device ≡ [] }
        requires unjudged { J.shown judge.old ≡ [] }
        ensures judged { IfOk result (λ found. J.shown judge.new ≡ found.records) }
        ensures found { IfOk result (λ found. IsLogOf (D.forced device) found.records) }
        ensures bytes { IfOk result (λ found. found.bytes ≡ D.forced device) }
        ensures called { IfOk result (λ found. found.usage ≡ called (D.usage device)) }
        ensures refused { IfErr result (λ left. RefusesOpen (D.forced device) left.refusal) }
        ensures forced { IfErr result (λ left. D.forced left.device ≡ D.forced device) }
        ensures none_pending { IfErr result (λ left. D.pending left.device ≡ []) }
        ensures used { IfErr result (λ left. UsedToRead (D.usage device) left.refusal (D.usage left.device)) }
    {
        let mut device = device;
        if let Err(refusal) = fetch(&mut device) {
            return Err(Refused { refusal, device });
        }
        let mut frames = Frames::new(alloc, device);
        match replay(alloc, &mut frames, judge) {
            Ok(index) => Ok(Found { frames, index }),
            Err(refusal) => Err(Refused {
                refusal,
                device: frames.stop(),
            }),
        }
    }
}

/// The device call by which the bytes are read. They are looked at where the device holds them.
fn fetch<D: LogDevice>(device: &mut D) -> Result<(), Refusal>
    ensures forced { D.forced device.new ≡ D.forced device.old }
    ensures pending { D.pending device.new ≡ D.pending device.old }
    ensures cause { IfErr result (λ given. given ≡ Refusal.Device) }
    ensures called { OnOk result (D.usage device.new ≡ called (D.usage device.old)) }
    ensures failed { OnErr result (FailsDue (D.usage device.old) (D.usage device.new)) }
{
    match device.bytes() {
        Ok(_) => Ok(()),
        Err(error) => Err(refusal_of(error)),
    }
}

/// Reads one record after another, shows each to the judge, and gives an index of them.
fn replay<D: LogDevice, J: Judge>(
    alloc: Global,
    frames: &mut Frames<D>,
    judge: &mut J,
) -> Result<Index, Refusal>
    requires unread { frames.old.records ≡ [] }
    requires unjudged { J.shown judge.old ≡ [] }
    ensures judged { OnOk result (J.shown judge.new ≡ frames.new.records) }
    ensures begins { OnOk result (BeginsAs frames.old.left frames.new.records frames.new.left) }
    ensures cut { OnOk result (IsCut 181 frames.new.left) }
    ensures indexed { IfOk result (IsIndex frames.new.records) }
    ensures forgotten { IfOk result (KeepsNoneOver frames.new.records) }
    ensures refused { IfErr result (RefusesBytes frames.old.left) }
    ensures device { frames.new.device ≡ frames.old.device }
{
    let mut index = Index::new(alloc);
    // One place for each record that is read: a record is large.
    let mut found = Record::Session;
    loop {
        match frames.next(&mut found) {
            FrameEnd::At(next) => {
                step(frames, &mut index, &found, next)?;
                judge.look(&found, frames.len())?;
            }
            FrameEnd::Short => return Ok(index),
            FrameEnd::Bad => return Err(Refusal::BadBytes(frames.end() as u64)),
        }
    }
}

/// Takes in the record that stands next, if it fits. What transactions did that are over is forgotten first, where none
/// is open.
fn step<D: LogDevice>(
    frames: &mut Frames<D>,
    index: &mut Index,
    found: &Record,
    next: usize,
) -> Result<(), Refusal>
    requires stands { StandsNext frames.old.records frames.old.left found.now next }
    requires index { IsIndex frames.old.records index.old }
    ensures records { OnOk result (frames.new.records ≡ found.now ∷ frames.old.records) }
    ensures left { OnOk result (frames.old.left ≡ frame (record_bytes found.now) ++ frames.new.left) }
    ensures device { frames.new.device ≡ frames.old.device }
    ensures room { OnOk result (length frames.old.records < 281474976710655) }
    ensures index { OnOk result (IsIndex frames.new.records index.new) }
    ensures refused { IfErr result (λ given. (given ≡ Refusal.NoMemory)
        ⊎ ((given ≡ Refusal.BadBytes (length (spelled frames.old.records)))
        × ((Fits frames.old.records found.now → ⊥) ⊎ (length frames.old.records + 1 ≡ 281474976710656)))) }
    ensures forgotten { btree_map_len index.old.analysis.open_txns ≡ 0 → OnOk result (keys_kept index.new ≤ 1) }
    ensures one_more { OnOk result (keys_kept index.new ≤ keys_kept index.old + 1) }
{
    index.forget();
    take_in(frames, index, found, next)
}

/// The same, where nothing is forgotten.
fn take_in<D: LogDevice>(
    frames: &mut Frames<D>,
    index: &mut Index,
    found: &Record,
    next: usize,
) -> Result<(), Refusal>
    requires stands { StandsNext frames.old.records frames.old.left found.now next }
    requires index { IsIndex frames.old.records index.old }
    ensures records { OnOk result (frames.new.records ≡ found.now ∷ frames.old.records) }
    ensures left { OnOk result (frames.old.left ≡ frame (record_bytes found.now) ++ frames.new.left) }
    ensures device { frames.new.device ≡ frames.old.device }
    ensures room { OnOk result (length frames.old.records < 281474976710655) }
    ensures index { OnOk result (IsIndex frames.new.records index.new) }
    ensures refused { IfErr result (λ given. (given ≡ Refusal.NoMemory)
        ⊎ ((given ≡ Refusal.BadBytes (length (spelled frames.old.records)))
        × ((Fits frames.old.records found.now → ⊥) ⊎ (length frames.old.records + 1 ≡ 281474976710656)))) }
    ensures one_more { OnOk result (keys_kept index.new ≤ keys_kept index.old + 1) }
{
    if frames.len() >= LAST_NUMBER {
        return Err(Refusal::BadBytes(frames.end() as u64));
    }
    if !fits(index, frames, found) {
        return Err(Refusal::BadBytes(frames.end() as u64));
    }
    frames.accept(found, next)?;
    index.follow(found, frames.len())?;
    if let Record::Checkpoint { .. } = found {
        index.answered = frames.answered_from(index.answered);
    }
    Ok(())
}
