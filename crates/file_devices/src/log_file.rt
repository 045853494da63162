//! The file of a log, and what holds it to one process.
ghost use Rattle.std.specs.Prelude.{◌≤◌, OnOk};

use crate::first_failure::FirstFailure;
use crate::mark::MarkFile;
use crate::store_error::{StoreError, StoreFile, Tried};
use log_blocks::{HEAD_LEN, head};
use std::alloc::{AllocError, Global};
use std::fs::File;
use std::io;
use std::os::unix::fs::FileExt;

#[derive(Drop)]
pub(crate) struct LogFile {
    log: File,
    // Where its whole blocks end, and the next one goes.
    end: u64,
    // The checksum of all up to there, which the next block goes on from.
    sum: u64,
    // Whether it may have more: a block that was torn, or that of a call which failed. What that has written, a crash
    // may have taken from the log meanwhile.
    is_unsure: bool,
    mark: MarkFile,
    failure: FirstFailure,
}

impl LogFile {
    /// The file of a log that has been read whole: its whole blocks end at `end` and have this checksum, and it may have
    /// more.
    pub(crate) fn new(
        alloc: Global,
        log: File,
        mark: MarkFile,
        end: usize,
        sum: u64,
        is_unsure: bool,
    ) -> Result<LogFile, AllocError> {
        let failure = FirstFailure::new(alloc)?;
        Ok(LogFile {
            log,
            end: end as u64,
            sum,
            is_unsure,
            mark,
            failure,
        })
    }

    /// What the system first refuses from now on, or has refused.
    pub(crate) fn failure(&self) -> Result<FirstFailure, AllocError> {
        self.failure.again()
    }

    /// Puts the bytes behind the first `at` of the log, which then ends with them, and syncs the file.
    pub(crate) fn extend(&mut self, at: usize, bytes: &[u8]) -> Result<(), StoreError> {
        let extended = self.try_extend(at, bytes);
        if let Err(error) = extended {
            self.failure.note(error);
        }
        extended
    }

    fn try_extend(&mut self, at: usize, bytes: &[u8]) -> Result<(), StoreError> {
        self.make_sure()?;
        if bytes.is_empty() {
            return Ok(());
        }
        self.put(at, bytes)
    }

    /// Keeps at most the first `len` bytes of those that were written. No block is taken from the file for that, since
    /// a kill between this and writing anew what was to stay of it would lose forced bytes: an empty one says where the
    /// log ends.
    pub(crate) fn cut(&mut self, written: &mut usize, len: usize) -> Result<(), StoreError>
        ensures fewer { written.new ≤ written.old }
        ensures cut { OnOk result (written.new ≤ len) }
    {
        let cut = self.try_cut(written, len);
        if let Err(error) = cut {
            self.failure.note(error);
        }
        cut
    }

    fn try_cut(&mut self, written: &mut usize, len: usize) -> Result<(), StoreError>
        ensures fewer { written.new ≤ written.old }
        ensures cut { OnOk result (written.new ≤ len) }
    {
        self.make_sure()?;
        if len < *written {
            self.put(len, &[])?;
            *written = len;
        }
        Ok(())
    }

    /// Cuts off what may stand behind the whole blocks. It is synced by itself, so that nothing of it is left behind or
    /// within the next block.
    fn make_sure(&mut self) -> Result<(), StoreError> {
        if self.is_unsure {
            self.log.set_len(self.end).map_err(not_written)?;
            self.log.sync_data().map_err(not_synced)?;
            self.is_unsure = false;
        }
        Ok(())
    }

    fn put(&mut self, start: usize, bytes: &[u8]) -> Result<(), StoreError> {
        let (head, sum) = head(self.sum, start as u64, bytes);
        let Some(place) = self.end.checked_add(HEAD_LEN as u64) else {
            return Err(not_written(io::ErrorKind::FileTooLarge.into()));
        };
        let Some(end) = place.checked_add(bytes.len() as u64) else {
            return Err(not_written(io::ErrorKind::FileTooLarge.into()));
        };
        self.mark.prepare()?;
        self.is_unsure = true;
        self.log.write_all_at(&head, self.end).map_err(not_written)?;
        self.log.write_all_at(bytes, place).map_err(not_written)?;
        self.log.sync_data().map_err(not_synced)?;
        self.mark.complete()?;
        self.is_unsure = false;
        self.end = end;
        self.sum = sum;
        Ok(())
    }
}

fn not_written(cause: io::Error) -> StoreError {
    StoreError::new(Tried::Write, StoreFile::Log, cause)
}

fn not_synced(cause: io::Error) -> StoreError {
    StoreError::new(Tried::Sync, StoreFile::Log, cause)
}
