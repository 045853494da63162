//! The folder of a store.
use crate::store_error::{StoreError, StoreFile, Tried};
use std::fs::{File, Files, Metadata, OpenOptions};
use std::os::fd::AsRawFd;
use std::path::Path;
use std::{fs, io};

/// Makes a folder where it isn't there. The folder above it is made by others.
pub(crate) fn make<R: Files<File = File>>(
    rt: &R,
    folder: &str,
    which: StoreFile,
) -> Result<(), StoreError> {
    match fs::create_dir(rt, folder) {
        Ok(()) => Ok(()),
        Err(cause) if cause.kind() == io::ErrorKind::AlreadyExists => Ok(()),
        Err(cause) => Err(StoreError::new(Tried::Make, which, cause)),
    }
}

/// After it the folder and the files that were made in it are found whatever happens to the machine.
pub(crate) fn sync<R: Files<File = File>>(rt: &R, folder: &str) -> Result<(), StoreError> {
    sync_one(rt, folder, StoreFile::Folder)?;
    sync_one(rt, parent_of(folder), StoreFile::Parent)
}

fn parent_of(folder: &str) -> &str {
    match Path::new(folder).parent() {
        Some(parent) if !parent.as_str().is_empty() => parent.as_str(),
        _ => ".",
    }
}

/// After it the files that were made or named anew in a folder are found whatever happens to the machine.
pub(crate) fn sync_one<R: Files<File = File>>(
    rt: &R,
    path: &str,
    which: StoreFile,
) -> Result<(), StoreError> {
    let folder = fs::open(rt, path).map_err(|cause| StoreError::new(Tried::Open, which, cause))?;
    folder
        .sync_all()
        .map_err(|cause| StoreError::new(Tried::Sync, which, cause))
}

/// Whether each file of the folder has one of these names.
pub(crate) fn has_only<R: Files + AllocGlobal + Clone + Drop>(
    rt: &R,
    folder: &str,
    names: &[&str],
) -> Result<bool, StoreError> {
    list(rt, folder, names).map_err(|cause| StoreError::new(Tried::List, StoreFile::Folder, cause))
}

fn list<R: Files + AllocGlobal + Clone + Drop>(
    rt: &R,
    folder: &str,
    names: &[&str],
) -> io::Result<bool> {
    for entry in fs::read_dir(rt, folder)? {
        if !names.contains(&entry?.file_name()) {
            return Ok(false);
        }
    }
    Ok(true)
}

/// Whether the folder has a file of this name. What isn't a plain file is refused before it is opened: to open a pipe
/// may wait for another process, and to open a device may do something.
pub(crate) fn has<R: Files + AllocGlobal>(
    rt: &R,
    folder: &str,
    name: &str,
    which: StoreFile,
) -> Result<bool, StoreError> {
    match look(rt, folder, name) {
        Ok(found) if found.is_file() => Ok(true),
        Ok(_) => Err(StoreError::NotAFile { file: which }),
        Err(cause) if cause.kind() == io::ErrorKind::NotFound => Ok(false),
        Err(cause) => Err(StoreError::new(Tried::Open, which, cause)),
    }
}

fn look<R: Files + AllocGlobal>(rt: &R, folder: &str, name: &str) -> io::Result<Metadata> {
    let path = Path::new(folder).join(rt.alloc(), name)?;
    fs::metadata(rt, path)
}

/// What a file of the folder is opened for.
#[derive(Clone, Copy, PartialEq, Eq)]
pub(crate) enum Way {
    /// Reading.
    Read,
    /// Reading and writing.
    Both,
    /// Both, and it is made where it isn't there.
    Made,
}

pub(crate) fn open<R: Files<File = File> + AllocGlobal>(
    rt: &R,
    folder: &str,
    name: &str,
    way: Way,
) -> io::Result<File> {
    let path = Path::new(folder).join(rt.alloc(), name)?;
    let file = OpenOptions::new()
        .read(true)
        .write(way != Way::Read)
        .create(way == Way::Made)
        .open(rt, path)?;
    // What is meant for a standard stream that was closed must not land in the store.
    if file.as_raw_fd() <= 2 {
        return file.try_clone();
    }
    Ok(file)
}
