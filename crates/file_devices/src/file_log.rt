//! A log device over a file.
ghost use Rattle.std.specs.Prelude.{◌≡◌, ◌≤◌, [], OnOk};
ghost use Rattle.file_devices.specs.Failing.{freely_unused};

use crate::faults::Faults;
use crate::first_failure::FirstFailure;
use crate::log_file::LogFile;
use crate::store_error::StoreError;
use stable::{CrashLog, DeviceError, LogDevice, Spelling};
use std::alloc::Global;
use std::marker::Model;

/// All bytes of a log in memory, and a file that each force brings up to them. The system may refuse any call, and then
/// the bytes and which of them are forced stay as they were.
#[derive(Drop)]
pub struct FileLog {
    bytes: Vec<u8>,
    // How many of the bytes are forced.
    forced: usize,
    // How many of the bytes the file surely has.
    written: usize,
    file: Option<LogFile>,
    torn: Option<Torn>,
    faults: Faults,
}

/// The beginning of a block, with which the file of a log ends: a kill came while it was written. It is no part of the log.
#[derive(Clone, Copy, Debug, PartialEq, Eq, Drop)]
pub struct Torn {
    /// At which byte of the file it begins, the first one being 0.
    pub place: u64,
    /// How many bytes of it are there.
    pub len: u64,
}

impl Model for FileLog {
    ghost use Rattle.std.specs.Prelude.{◌≤◌, take, drop, length};
    ghost use Rattle.stable.specs.LogState.{LogState};

    ghost Value = { LogState };

    ghost view = { λ m. record {
      forced = take m.forced m.bytes.items;
      pending = drop m.forced m.bytes.items;
      usage = m.faults;
    } };

    ghost invariant = { λ m. (m.written ≤ m.forced) × (m.forced ≤ length m.bytes.items) };
}

impl FileLog {
    /// An empty log that no file keeps, which takes its memory from `alloc`: it lives as long as its process. It is for
    /// a component whose log is made again from another's.
    pub fn volatile(alloc: Global) -> FileLog
        ensures forced { result.forced ≡ [] }
        ensures pending { result.pending ≡ [] }
        ensures unused { result.usage ≡ freely_unused }
    {
        FileLog {
            bytes: Vec::new(alloc),
            forced: 0,
            written: 0,
            file: None,
            torn: None,
            faults: Faults::new(),
        }
    }

    /// The log that has these bytes, all of them synced in its file, behind which there is this torn block; or without a
    /// file that keeps what is forced.
    pub(crate) fn over(file: Option<LogFile>, bytes: Vec<u8>, torn: Option<Torn>) -> FileLog
        ensures forced { result.forced ≡ bytes.items }
        ensures pending { result.pending ≡ [] }
        ensures unused { result.usage ≡ freely_unused }
    {
        let len = bytes.len();
        FileLog {
            bytes,
            forced: len,
            written: len,
            file,
            torn,
            faults: Faults::new(),
        }
    }

    /// The torn block that the opening has left out. The next force or cut takes it from the file.
    pub fn torn(&self) -> Option<Torn> {
        self.torn
    }

    /// What the system first refuses of the file, of a log that has one: to be taken before a node has the log. None too
    /// where there are more who ask than can be counted.
    pub fn failure(&self) -> Option<FirstFailure> {
        match &self.file {
            Some(file) => file.failure().ok(),
            None => None,
        }
    }
}

impl LogDevice for FileLog {
    ghost use Rattle.std.specs.Prelude.{true};

    ghost forced = { λ log. log.forced };

    ghost pending = { λ log. log.pending };

    ghost usage = { λ log. log.usage };

    ghost forces_whole = { true };

    fn append(&mut self, bytes: &[u8]) -> Result<(), DeviceError> {
        self.bytes.reserve(bytes.len())?;
        self.faults.call()?;
        self.bytes.extend_from_slice(bytes)?;
        Ok(())
    }

    #[inline(always)]
    fn append_spelled<S: Spelling>(&mut self, what: &S) -> Result<(), DeviceError> {
        let len = self.bytes.len();
        what.put(&mut self.bytes)?;
        let counted = self.faults.call();
        if counted.is_err() {
            self.bytes.truncate(len);
        }
        counted
    }

    // What a failed force wrote is written again by the next one, from the same place: after a sync that failed, the
    // system may have dropped what it had not yet brought to the disk, and may say of the next sync that all went well.
    fn force(&mut self) -> Result<(), DeviceError> {
        self.faults.call()?;
        let Ok(()) = extend(&mut self.file, self.written, &self.bytes[self.written..]) else {
            return self.faults.fail();
        };
        self.forced = self.bytes.len();
        self.written = self.forced;
        Ok(())
    }

    // Where the system refuses it, the file may say already that the log is cut: the next force or cut takes that back.
    fn cut(&mut self, len: usize) -> Result<(), DeviceError> {
        self.faults.call()?;
        let Ok(()) = cut(&mut self.file, &mut self.written, len) else {
            return self.faults.fail();
        };
        self.bytes.truncate(len);
        self.forced = len;
        Ok(())
    }

    fn bytes(&mut self) -> Result<&[u8], DeviceError> {
        self.faults.call()?;
        Ok(&self.bytes)
    }

    fn kept(&self) {
        self.faults.kept();
    }

    fn held(&self) -> &[u8] {
        &self.bytes
    }
}

impl CrashLog for FileLog {
    fn unforced(&self) -> usize {
        self.bytes.len() - self.forced
    }

    // The crash of a component within the process, which no file sees. The bytes that it keeps are written with the
    // next force. No client is told of them before: a component that is opened on them logs its session, and forces
    // that, before its first message.
    fn crash(&mut self, kept: usize) {
        let pending = self.unforced();
        self.forced += kept.min(pending);
        self.bytes.truncate(self.forced);
    }

    fn fail_at(&mut self, n: u64) {
        self.faults.fail_at(n);
    }
}

fn extend(file: &mut Option<LogFile>, at: usize, bytes: &[u8]) -> Result<(), StoreError> {
    match file {
        Some(file) => file.extend(at, bytes),
        None => Ok(()),
    }
}

fn cut(file: &mut Option<LogFile>, written: &mut usize, len: usize) -> Result<(), StoreError>
    ensures fewer { written.new ≤ written.old }
    ensures cut { OnOk result (written.new ≤ len) }
{
    match file {
        Some(file) => file.cut(written, len),
        None => {
            *written = len.min(*written);
            Ok(())
        }
    }
}
