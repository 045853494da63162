//! A store: a folder that keeps a log.
ghost use Rattle.std.specs.Prelude.{◌≡◌, [], IfOk};
ghost use Rattle.file_devices.specs.Failing.{freely_unused};

use crate::file_log::{FileLog, Torn};
use crate::folder::Way;
use crate::log_file::LogFile;
use crate::mark::{Mark, OLD_NUMBER};
use crate::store_error::{StoreError, StoreFile, Tried};
use crate::{folder, mark};
use log_blocks::{Unpacked, unpack};
use std::alloc::Global;
use std::fs::{File, Files};
use std::io;
use std::io::Read;

pub(crate) const LOG: &str = "log";

/// Opens the store of a folder and gives its log, every byte of which is forced. A folder that isn't there is made,
/// if the one above it is there, and an empty one becomes a store. It is refused Locked while the log of an earlier
/// opening lives, in this process or another.
pub fn open_store<R: Files<File = File> + AllocGlobal + Clone + Drop>(
    rt: &R,
    folder: &str,
) -> Result<FileLog, StoreError>
    ensures pending { IfOk result (λ log. log.pending ≡ []) }
    ensures unused { IfOk result (λ log. log.usage ≡ freely_unused) }
{
    folder::make(rt, folder, StoreFile::Folder)?;
    let mut mark = mark::open_locked(rt, folder)?;
    let found = mark.read(rt.alloc())?;
    let mut log = match found {
        Mark::Other => return Err(StoreError::Version),
        Mark::Begun => begin(rt, folder)?,
        _ => open_log(rt, folder, Way::Both)?,
    };
    log.sync_all().map_err(|cause| StoreError::new(Tried::Sync, StoreFile::Log, cause))?;
    let mut bytes = read(rt.alloc(), &mut log)?;
    let len = bytes.len();
    let mut unpacked = unpack(&mut bytes, number_of(found))?;
    if has_number(found, &unpacked)? {
        mark.take(found, 0 < unpacked.end)?;
    } else {
        unpacked.sum = mark.draw_number(rt)?;
    }
    bytes.truncate(unpacked.len);
    let torn = torn_behind(&unpacked, len);
    let file = LogFile::new(
        rt.alloc(),
        log,
        mark,
        unpacked.end,
        unpacked.sum,
        torn.is_some(),
    )?;
    Ok(FileLog::over(Some(file), bytes, torn))
}

/// Opens the store of a folder that has one: where `open_store` would make it, or go on making it, this is refused
/// NotAStore.
pub fn reopen_store<R: Files<File = File> + AllocGlobal + Clone + Drop>(
    rt: &R,
    folder: &str,
) -> Result<FileLog, StoreError>
    ensures pending { IfOk result (λ log. log.pending ≡ []) }
    ensures unused { IfOk result (λ log. log.usage ≡ freely_unused) }
{
    read_mark(rt, folder)?;
    open_store(rt, folder)
}

/// Reads the store of a folder and gives its log, for reading alone: no file keeps what is forced on it. It takes no lock,
/// and makes, writes and syncs nothing, so a store can be read on a disk that is full or may not be written. What another
/// process writes meanwhile may be read or not.
pub fn read_store<R: Files<File = File> + AllocGlobal>(
    rt: &R,
    folder: &str,
) -> Result<FileLog, StoreError>
    ensures pending { IfOk result (λ log. log.pending ≡ []) }
    ensures unused { IfOk result (λ log. log.usage ≡ freely_unused) }
{
    let found = read_mark(rt, folder)?;
    let mut log = open_log(rt, folder, Way::Read)?;
    let mut bytes = read(rt.alloc(), &mut log)?;
    let len = bytes.len();
    let unpacked = unpack(&mut bytes, number_of(found))?;
    has_number(found, &unpacked)?;
    bytes.truncate(unpacked.len);
    Ok(FileLog::over(None, bytes, torn_behind(&unpacked, len)))
}

pub(crate) fn read_mark<R: Files<File = File> + AllocGlobal>(
    rt: &R,
    folder: &str,
) -> Result<Mark, StoreError> {
    if !folder::has(rt, folder, mark::NAME, StoreFile::Mark)? {
        return Err(StoreError::NotAStore);
    }
    let file = folder::open(rt, folder, mark::NAME, Way::Read).map_err(|cause| StoreError::new(
        Tried::Open,
        StoreFile::Mark,
        cause,
    ))?;
    match mark::read(rt.alloc(), &file)? {
        Mark::Other => Err(StoreError::Version),
        Mark::Begun => Err(StoreError::NotAStore),
        found => Ok(found),
    }
}

/// The number that the checksums of the blocks begin with.
pub(crate) fn number_of(mark: Mark) -> u64 {
    match mark {
        Mark::Whole(number) | Mark::Numbered(number) => number,
        Mark::Old | Mark::Begun | Mark::Other => OLD_NUMBER,
    }
}

/// Whether the store has a number that stays. One of version 1 that has no block gets one as a new store does.
fn has_number(mark: Mark, unpacked: &Unpacked) -> Result<bool, StoreError> {
    match mark {
        Mark::Whole(_) if unpacked.end == 0 => Err(StoreError::Emptied),
        Mark::Whole(_) => Ok(true),
        Mark::Numbered(number) => Ok(0 < unpacked.end || number != OLD_NUMBER),
        Mark::Old | Mark::Begun | Mark::Other => Ok(0 < unpacked.end),
    }
}

/// What is left of a file of so many bytes behind its whole blocks.
fn torn_behind(unpacked: &Unpacked, len: usize) -> Option<Torn> {
    match len.saturating_sub(unpacked.end) {
        0 => None,
        left => Some(Torn {
            place: unpacked.end as u64,
            len: left as u64,
        }),
    }
}

/// Makes the log of a store that is about to be one: the mark is written behind it. So a folder that has the store's
/// number has a log, and where that is gone no empty one takes its place.
fn begin<R: Files<File = File> + AllocGlobal + Clone + Drop>(
    rt: &R,
    folder: &str,
) -> Result<File, StoreError> {
    if !folder::has_only(rt, folder, &[mark::NAME, LOG])? {
        return Err(StoreError::NotAStore);
    }
    let log = open_log(rt, folder, Way::Made)?;
    if len_of(&log)? != 0 {
        return Err(StoreError::Version);
    }
    folder::sync(rt, folder)?;
    Ok(log)
}

/// All bytes of the file of the log in a folder.
pub(crate) fn read_log<R: Files<File = File> + AllocGlobal>(
    rt: &R,
    folder: &str,
) -> Result<Vec<u8>, StoreError> {
    let mut log = open_log(rt, folder, Way::Read)?;
    read(rt.alloc(), &mut log)
}

fn open_log<R: Files<File = File> + AllocGlobal>(
    rt: &R,
    folder: &str,
    way: Way,
) -> Result<File, StoreError> {
    folder::has(rt, folder, LOG, StoreFile::Log)?;
    folder::open(rt, folder, LOG, way).map_err(|cause| StoreError::new(
        Tried::Open,
        StoreFile::Log,
        cause,
    ))
}

fn len_of(log: &File) -> Result<u64, StoreError> {
    match log.metadata() {
        Ok(found) => Ok(found.len()),
        Err(cause) => Err(StoreError::new(Tried::Read, StoreFile::Log, cause)),
    }
}

/// All bytes of the file.
fn read(alloc: Global, log: &mut File) -> Result<Vec<u8>, StoreError> {
    let len = len_of(log)?;
    read_all(alloc, log, len).map_err(|cause| StoreError::new(Tried::Read, StoreFile::Log, cause))
}

fn read_all(alloc: Global, log: &mut File, len: u64) -> io::Result<Vec<u8>> {
    let mut bytes = Vec::with_capacity(alloc, len as usize)?;
    log.read_to_end(&mut bytes)?;
    Ok(bytes)
}
