//! The log of a store is replaced.
use crate::folder::{self, Way};
use crate::mark::Mark;
use crate::store::{LOG, read_mark};
use crate::store_error::{StoreError, StoreFile, Tried};
use log_blocks::{HEAD_LEN, head};
use std::fs::{File, Files};
use std::os::unix::fs::FileExt;
use std::path::Path;
use std::{fs, io};

const NEW_LOG: &str = "log.new";

/// Puts a log of these bytes in the place of that which the store in a folder has, all at once: a file `log.new` is
/// written beside it, in one block, and synced, and then takes its name. So a kill at any moment leaves the one log or
/// the other, whole. Whoever calls it has the store open, which keeps others away, and appends nothing more to the log of
/// that opening: its file has no name any more.
pub fn replace_log<R: Files<File = File> + AllocGlobal>(
    rt: &R,
    folder: &str,
    bytes: &[u8],
) -> Result<(), StoreError> {
    let Mark::Whole(number) = read_mark(rt, folder)? else {
        return Err(StoreError::Version);
    };
    write(rt, folder, number, bytes).map_err(|cause| StoreError::new(
        Tried::Write,
        StoreFile::NewLog,
        cause,
    ))?;
    rename(rt, folder).map_err(|cause| StoreError::new(Tried::Rename, StoreFile::NewLog, cause))?;
    folder::sync(rt, folder)
}

/// Writes the file beside the log. One that an earlier call has left there is overwritten.
fn write<R: Files<File = File> + AllocGlobal>(
    rt: &R,
    folder: &str,
    number: u64,
    bytes: &[u8],
) -> io::Result<()> {
    let file = folder::open(rt, folder, NEW_LOG, Way::Made)?;
    file.set_len(0)?;
    let (head, _) = head(number, 0, bytes);
    file.write_all_at(&head, 0)?;
    file.write_all_at(bytes, HEAD_LEN as u64)?;
    file.sync_all()
}

fn rename<R: Files + AllocGlobal>(rt: &R, folder: &str) -> io::Result<()> {
    let from = Path::new(folder).join(rt.alloc(), NEW_LOG)?;
    let to = Path::new(folder).join(rt.alloc(), LOG)?;
    fs::rename(rt, from, to)
}
