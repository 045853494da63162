//! The records of a log, one after another.
ghost use Rattle.std.specs.Prelude.{◌≡◌, ◌+◌, ◌∷◌, [], length, OnOk, IfOk, IfErr};
ghost use Rattle.codec.specs.DcRecords.{dc_record_bytes, FitsFrame};
ghost use Rattle.codec.specs.Frames.{frame};
ghost use Rattle.dc_store.specs.Reading.{log_so_far, IsReading, RefusesNext};

use crate::change_log::LAST_NUMBER;
use crate::known::Known;
use codec::DcRecord;
use record_key::Refusal;
use std::alloc::{AllocError, Global};

/// What was read so far.
#[derive(Drop)]
pub(crate) struct Reading {
    /// The records, the oldest first.
    pub records: Vec<DcRecord>,
    /// Where the frame of each begins, and where the last one ends.
    pub places: Vec<usize>,
    pub end: usize,
    pub known: Known,
}

impl Reading {
    pub(crate) fn new(alloc: Global) -> Result<Reading, AllocError>
        ensures { IfOk result (IsReading []) }
    {
        Ok(Reading {
            records: Vec::new(alloc),
            places: Vec::new(alloc),
            end: 0,
            known: Known::new(alloc)?,
        })
    }

    /// Takes in the record whose frame ends at this place, if it fits those before it.
    pub(crate) fn take_in(&mut self, found: DcRecord, next: usize) -> Result<(), Refusal>
        requires right { IsReading (log_so_far self.old) self.old }
        requires fits { FitsFrame found }
        requires next { next ≡ self.old.end + length (frame (dc_record_bytes found)) }
        ensures taken { OnOk result (IsReading (found ∷ log_so_far self.old) self.new) }
        ensures refused { IfErr result (RefusesNext (log_so_far self.old) found) }
    {
        if self.records.len() as u64 >= LAST_NUMBER || !self.known.lets(&found) {
            return Err(Refusal::BadBytes(self.end as u64));
        }
        self.known.follow(&found)?;
        self.records.push(found)?;
        self.places.push(self.end)?;
        self.end = next;
        Ok(())
    }
}
