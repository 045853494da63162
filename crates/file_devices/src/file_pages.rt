//! A page device over files.
ghost use Rattle.std.specs.Prelude.{◌≡◌, ◌≤◌};
ghost use Rattle.file_devices.specs.Failing.{NeverFails, freely_unused};

use crate::faults::Faults;
use crate::first_failure::FirstFailure;
use crate::page_files::PageFiles;
use stable::{CrashPages, DeviceError, MemPages, PageDevice};
use std::alloc::{AllocError, Global};
use std::fs::{File, Files};
use std::marker::Model;

/// All pages in memory, and a file for each that a write replaces. The system may refuse any call, and then the pages
/// stay as they were.
#[derive(Drop)]
pub struct FilePages<R> {
    // None of its own calls fails but for memory.
    held: MemPages,
    files: PageFiles<R>,
    faults: Faults,
}

impl<R> Model for FilePages<R> {
    ghost use Rattle.stable.specs.PagesState.{PagesState, pages_state_code};
    ghost use Rattle.file_devices.specs.Failing.{NeverFails};

    ghost Value = { PagesState };

    ghost coded = { pages_state_code };

    ghost view = { λ m. record {
      pages = m.held.pages;
      rooms = m.held.rooms;
      usage = m.faults;
    } };

    ghost invariant = { λ m. NeverFails m.held.usage };
}

impl<R: Files<File = File> + AllocGlobal + Drop> FilePages<R> {
    /// The pages that are held, each of which its file has.
    pub(crate) fn over(held: MemPages, files: PageFiles<R>) -> FilePages<R>
        requires { NeverFails held.usage }
        ensures pages { result.pages ≡ held.pages }
        ensures unused { result.usage ≡ freely_unused }
    {
        FilePages {
            held,
            files,
            faults: Faults::new(),
        }
    }

    /// What the system first refuses of the files: to be taken before a component has the pages. None too where there
    /// are more who ask than can be counted.
    pub fn failure(&self) -> Option<FirstFailure> {
        self.files.failure().ok()
    }
}

impl<R: Files<File = File> + AllocGlobal + Drop> PageDevice for FilePages<R> {
    ghost use Rattle.stable.specs.PagesState.{has_room};

    ghost pages = { λ device. device.pages };

    ghost has_room = { λ device. has_room device.rooms };

    ghost usage = { λ device. device.usage };

    fn kept(&self) {
        self.faults.kept();
    }

    fn make_room(&mut self, id: u64, len: usize) -> Result<(), AllocError> {
        self.held.make_room(id, len)
    }

    fn write(&mut self, id: u64, image: &[u8]) -> Result<(), DeviceError> {
        self.held.make_room(id, image.len())?;
        self.faults.call()?;
        let Ok(()) = self.files.put(id, image) else {
            return self.faults.fail();
        };
        match self.held.write(id, image) {
            Ok(()) => Ok(()),
            Err(_) => unreachable!(),
        }
    }

    fn read(&mut self, id: u64) -> Result<Option<&[u8]>, DeviceError> {
        self.faults.call()?;
        self.held.read(id)
    }

    fn ids(&mut self, alloc: Global) -> Result<Vec<u64>, DeviceError> {
        let ids = self.held.ids(alloc)?;
        self.faults.call()?;
        Ok(ids)
    }
}

impl<R: Files<File = File> + AllocGlobal + Drop> CrashPages for FilePages<R> {
    fn crash(&mut self) {}

    fn fail_at(&mut self, n: u64) {
        self.faults.fail_at(n);
    }
}
