//! The log of the data component: splits, merges and accepted sessions, as bytes on a device.
ghost use Rattle.std.specs.Prelude.{true, ◌≡◌, ◌≤◌, ◌+◌, ◌∷◌, ◌++◌, [], List, None, length, IsTrue, OnOk, OnErr, IfOk, IfErr};
ghost use Rattle.codec.specs.declared.dc_record.DcRecord.{DcRecord};
ghost use Rattle.codec.specs.DcRecords.{record_in, dc_record_bytes, IsOrderedDcRecord, FitsFrame};
ghost use Rattle.codec.specs.Frames.{frame};
ghost use Rattle.record_key.specs.FirstCause.{MayRefuse};
ghost use Rattle.stable.specs.Crash.{BeginsWith};
ghost use Rattle.stable.specs.Usage.{IsToCome, is_due, called, failed, failing_in};
ghost use Rattle.dc_recovery.specs.Shape.{named};
ghost use Rattle.framed_log.specs.Beginning.{beginning};
ghost use Rattle.dc_store.specs.LogView.{AreFrames};
ghost use Rattle.dc_store.specs.Uses.{FailsWhenDue};
ghost use Rattle.framed_log.specs.Refused.{refused_use};
ghost use Rattle.dc_store.specs.Devices.{spelled, AreRecords};

use codec::{DcRecordRef, put_dc_record};
use framed_log::refusal_of;
use record_key::Refusal;
use stable::{CrashLog, LogDevice};
use std::alloc::Global;
use std::marker::Model;

/// The greatest number that a record or a leaf may have.
pub(crate) const LAST_NUMBER: u64 = 281_474_976_710_655;

/// Records by their numbers, from 1, kept as bytes on a device.
#[derive(Drop)]
pub struct ChangeLog<D: LogDevice> {
    device: D,
    // Where the frame of each record begins, and where the last one ends.
    places: Vec<usize>,
    end: usize,
    stable: u64,
    // One above the greatest leaf number that is named.
    next_id: u64,
    // Where the frame of the next record is spelled.
    frame: Vec<u8>,
}

impl<D: LogDevice> Model for ChangeLog<D> {
    ghost use Rattle.std.specs.Prelude.{◌++◌};
    ghost use Rattle.dc_store.specs.LogView.{ChangeLogView, IsStored, AreFrames};
    ghost use Rattle.dc_store.specs.Devices.{records_at};

    ghost Value = { ChangeLogView };

    ghost view = { λ l. record {
      log = records_at (D.forced l.device ++ D.pending l.device) l.places.items;
      stable = l.stable;
      usage = D.usage l.device;
    } };

    ghost invariant = { λ l.
        IsStored D.forces_whole (records_at (D.forced l.device ++ D.pending l.device) l.places.items) l.stable
        (D.forced l.device) (D.pending l.device)
        × AreFrames (records_at (D.forced l.device ++ D.pending l.device) l.places.items)
        l.places.items l.end l.next_id };
}

impl<D: LogDevice> ChangeLog<D> {
    /// The log of no records, on an empty device.
    pub fn new(alloc: Global, device: D) -> ChangeLog<D>
        requires empty { (D.forced device ≡ []) × (D.pending device ≡ []) }
        ensures { result ≡ record { log = []; stable = 0; usage = D.usage device } }
    {
        ChangeLog {
            device,
            places: Vec::new(alloc),
            end: 0,
            stable: 0,
            next_id: 2,
            frame: Vec::new(alloc),
        }
    }

    /// The log of the records whose frames are all that the device holds.
    pub(crate) fn reopened(
        alloc: Global,
        device: D,
        places: Vec<usize>,
        end: usize,
        next_id: u64,
    ) -> ChangeLog<D>
        requires none_pending { D.pending device ≡ [] }
        requires records { (log : List DcRecord) × (D.forced device ≡ spelled log)
            × AreFrames log places.items end next_id }
        ensures { (log : List DcRecord) → AreRecords log → D.forced device ≡ spelled log
            → result ≡ record { log = log; stable = length log; usage = D.usage device } }
    {
        let stable = places.len() as u64;
        ChangeLog {
            device,
            places,
            end,
            stable,
            next_id,
            frame: Vec::new(alloc),
        }
    }

    /// The device, as a crash finds it: all records stand on it, and the stable ones are forced; no others are, where
    /// it forces all or nothing.
    pub fn stop(self) -> D
        ensures holds { D.forced result ++ D.pending result ≡ spelled self.log }
        ensures forced { BeginsWith (D.forced result) (spelled (beginning self.log self.stable)) }
        ensures just { D.forces_whole ≡ true → D.forced result ≡ spelled (beginning self.log self.stable) }
        ensures usage { D.usage result ≡ self.usage }
    {
        let ChangeLog {
            device,
            places: _,
            end: _,
            stable: _,
            next_id: _,
            frame: _,
        } = self;
        device
    }

    /// How many records there are. Each has a spelling.
    pub fn len(&self) -> u64
        ensures count { result ≡ length self.now.log }
        ensures spellable { AreRecords self.now.log }
    {
        self.places.len() as u64
    }

    /// The number up to which records are stable.
    pub fn stable_end(&self) -> u64
        ensures { result ≡ self.now.stable }
    {
        self.stable
    }

    /// How many bytes the first records have, so many.
    pub fn end_of(&self, count: u64) -> usize
        requires { count ≤ length self.now.log }
        ensures { result ≡ length (spelled (beginning self.now.log count)) }
    {
        if count < self.places.len() as u64 {
            self.places[count as usize]
        } else {
            self.end
        }
    }

    /// The number of the next leaf that is made.
    pub fn next_id(&self) -> u64
        ensures { result ≡ named self.now.log + 1 }
    {
        self.next_id
    }

    /// Appends a record, in one device call. Refused NoMemory or Device, and unchanged then.
    pub fn append(&mut self, change: &DcRecordRef<'_>) -> Result<(), Refusal>
        requires ordered { IsOrderedDcRecord (record_in change.now) }
        ensures appended { OnOk result (self.new ≡ record self.old {
          log = record_in change.now ∷ self.old.log;
          usage = called self.old.usage;
        }) }
        ensures spelled { OnOk result (FitsFrame (record_in change.now)) }
        ensures refused { IfErr result (MayRefuse None) }
        ensures device { IfErr result (FailsWhenDue self.old.usage) }
        ensures left { IfErr result (λ refusal.
            self.new ≡ record self.old { usage = refused_use self.old.usage refusal }) }
    {
        let len = spell(&mut self.frame, change)?;
        self.places.reserve(1)?;
        let Some(end) = self.end.checked_add(len) else {
            return Err(Refusal::NoMemory);
        };
        if let Err(error) = self.device.append(&self.frame) {
            return Err(refusal_of(error));
        }
        self.places.push_reserved(self.end);
        self.end = end;
        self.next_id = id_after(change, self.next_id);
        Ok(())
    }

    /// Makes every record stable, in one device call. The one refusal is Device.
    pub fn force(&mut self) -> Result<(), Refusal>
        ensures forced { OnOk result (self.new ≡ record self.old {
          stable = length self.old.log;
          usage = called self.old.usage;
        }) }
        ensures refused { IfErr result (λ refusal. refusal ≡ Refusal.Device) }
        ensures due { OnErr result (IsTrue (is_due self.old.usage)) }
        ensures left { OnErr result (self.new ≡ record self.old { usage = failed self.old.usage }) }
    {
        if let Err(error) = self.device.force() {
            return Err(refusal_of(error));
        }
        self.stable = self.places.len() as u64;
        Ok(())
    }

    /// What holds at every moment: a failure of the device that was set is still to come.
    pub fn to_come(&self)
        ensures { IsToCome self.now.usage }
    {
        self.device.kept();
    }
}

impl<D: CrashLog> ChangeLog<D> {
    /// The `n`-th call of the device from now fails.
    pub fn fail_at(&mut self, n: u64)
        requires { 1 ≤ n }
        ensures { self.new ≡ record self.old { usage = failing_in n self.old.usage } }
    {
        self.device.fail_at(n);
    }
}

/// Spells the record's frame in the place of what stood there, and says how long it is.
fn spell(out: &mut Vec<u8>, change: &DcRecordRef<'_>) -> Result<usize, Refusal>
    requires { IsOrderedDcRecord (record_in change.now) }
    ensures spelling { OnOk result (out.new.items ≡ frame (dc_record_bytes (record_in change.now))) }
    ensures fits { OnOk result (FitsFrame (record_in change.now)) }
    ensures length { IfOk result (λ len. len ≡ length (frame (dc_record_bytes (record_in change.now)))) }
    ensures cause { IfErr result (λ refusal. refusal ≡ Refusal.NoMemory) }
{
    out.clear();
    put_dc_record(out, change)?;
    Ok(out.len())
}

/// One above the greatest leaf number that is named once this record stands.
fn id_after(change: &DcRecordRef<'_>, next: u64) -> u64
    requires { IsOrderedDcRecord (record_in change.now) }
    ensures { (log : List DcRecord) → next ≡ named log + 1 → result ≡ named (record_in change.now ∷ log) + 1 }
{
    match change {
        DcRecordRef::Split { right, .. } => right.id + 1,
        _ => next,
    }
}
