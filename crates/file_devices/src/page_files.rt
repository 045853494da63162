//! The folder of a store that keeps the pages, each in a file of its own.
use crate::first_failure::FirstFailure;
use crate::folder::{self, Way};
use crate::page_file::name_of;
use crate::store_error::{StoreError, StoreFile, Tried};
use log_blocks::{HEAD_LEN, head};
use std::alloc::AllocError;
use std::fs::{File, Files};
use std::os::unix::fs::FileExt;
use std::path::{Path, PathBuf};
use std::{fs, io, str};

pub(crate) const FOLDER: &str = "pages";

/// What is to take the place of a page's file. A kill may leave it.
pub(crate) const NEW: &str = "new";

#[derive(Drop)]
pub(crate) struct PageFiles<R> {
    rt: R,
    path: PathBuf,
    // The store's number, which the checksums begin with.
    store: u64,
    failure: FirstFailure,
}

impl<R: Files<File = File> + AllocGlobal + Drop> PageFiles<R> {
    /// The folder at this path, of the store of this number.
    pub(crate) fn new(rt: R, path: PathBuf, store: u64) -> Result<PageFiles<R>, AllocError> {
        let failure = FirstFailure::new(rt.alloc())?;
        Ok(PageFiles {
            rt,
            path,
            store,
            failure,
        })
    }

    /// What the system first refuses from now on, or has refused.
    pub(crate) fn failure(&self) -> Result<FirstFailure, AllocError> {
        self.failure.again()
    }

    /// Puts an image in the place of the page's last one, all at once: it is written beside that and synced, and then
    /// takes its name. So a kill at any moment leaves the one or the other, whole. Where just the last sync is refused,
    /// it may be either too, as behind a kill.
    pub(crate) fn put(&self, id: u64, image: &[u8]) -> Result<(), StoreError> {
        let put = self.try_put(id, image);
        if let Err(error) = put {
            self.failure.note(error);
        }
        put
    }

    fn try_put(&self, id: u64, image: &[u8]) -> Result<(), StoreError> {
        self.write(id, image).map_err(|cause| StoreError::new(
            Tried::Write,
            StoreFile::NewPage,
            cause,
        ))?;
        self.rename(id).map_err(|cause| StoreError::new(Tried::Rename, StoreFile::NewPage, cause))?;
        folder::sync_one(&self.rt, self.path.as_str(), StoreFile::Pages)
    }

    /// Writes the file beside the page's. One that an earlier call has left there is overwritten.
    fn write(&self, id: u64, image: &[u8]) -> io::Result<()> {
        let file = folder::open(&self.rt, self.path.as_str(), NEW, Way::Made)?;
        file.set_len(0)?;
        let (head, _) = head(self.store, id, image);
        file.write_all_at(&head, 0)?;
        file.write_all_at(image, HEAD_LEN as u64)?;
        file.sync_all()
    }

    fn rename(&self, id: u64) -> io::Result<()> {
        let name = name_of(id);
        let Ok(name) = str::from_utf8(&name) else {
            return Err(io::ErrorKind::InvalidData.into());
        };
        let from = self.path.join(self.rt.alloc(), NEW)?;
        let to = self.path.join(self.rt.alloc(), name)?;
        fs::rename(&self.rt, from, to)
    }
}
