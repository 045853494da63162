//! A page device that keeps no page.
ghost use Rattle.std.specs.Prelude.{◌≡◌};
ghost use Rattle.file_devices.specs.Failing.{freely_unused};

use crate::faults::Faults;
use stable::{CrashPages, DeviceError, PageDevice};
use std::alloc::{AllocError, Global};
use std::marker::Model;

/// No page. A store keeps the transactions' log alone, and the data component's records are made again from it. A page
/// that counted as written would let that log be read from a later record on, and the page is gone with its process: so
/// no page may ever be said to be written. Each write is refused Device, and with it each flush and each checkpoint.
#[derive(Drop)]
pub struct NoPages {
    faults: Faults,
}

impl Model for NoPages {
    ghost use Rattle.stable.specs.Usage.{Usage};

    ghost Value = { Usage };

    ghost view = { λ device. device.faults };
}

impl NoPages {
    /// A device without pages and with no failure set.
    pub fn new() -> NoPages
        ensures { result ≡ freely_unused }
    {
        NoPages {
            faults: Faults::new(),
        }
    }
}

impl PageDevice for NoPages {
    ghost use Rattle.std.specs.Prelude.{true};
    ghost use Rattle.std.specs.FinMap as map;

    ghost pages = { λ _. map.empty };

    // None is ever refused for memory.
    ghost has_room = { λ _ _ _. true };

    ghost usage = { λ device. device };

    fn kept(&self) {
        self.faults.kept();
    }

    fn make_room(&mut self, _id: u64, _len: usize) -> Result<(), AllocError> {
        Ok(())
    }

    fn write(&mut self, _id: u64, _image: &[u8]) -> Result<(), DeviceError> {
        self.faults.refuse()
    }

    fn read(&mut self, _id: u64) -> Result<Option<&[u8]>, DeviceError> {
        self.faults.call()?;
        Ok(None)
    }

    fn ids(&mut self, alloc: Global) -> Result<Vec<u64>, DeviceError> {
        self.faults.call()?;
        Ok(Vec::new(alloc))
    }
}

impl CrashPages for NoPages {
    fn crash(&mut self) {}

    fn fail_at(&mut self, n: u64) {
        self.faults.fail_at(n);
    }
}
