//! A log device written against the trait alone, as one outside this crate is.
ghost use Rattle.std.specs.Prelude.{◌≡◌, false, IsTrue, OnOk, IsOkUnless};
ghost use Rattle.stable.specs.Usage.{IsToCome, is_due, is_set, used};

use stable::{Counter, DeviceError, LogDevice, Spelling};
use std::alloc::Global;
use std::marker::Model;

/// Bytes in memory, and for each call to come whether it fails, the last one first.
#[derive(Drop)]
pub struct ListedLog {
    bytes: Vec<u8>,
    // How many of the bytes are forced.
    forced: usize,
    faults: Faults,
}

#[derive(Drop)]
struct Faults {
    listed: Vec<bool>,
    calls: Counter,
    failures: Counter,
}

impl Model for Faults {
    ghost use Rattle.std.specs.Prelude.{None, true};
    ghost use Rattle.stable.specs.Usage.{Usage};

    ghost Value = { Usage };

    // Any call may fail: which of them do is in no clause.
    ghost view = { λ f. record {
      calls = f.calls.count;
      failures = f.failures.count;
      failing = None;
      freely = true;
    } };
}

impl Faults {
    // None is ever set.
    fn kept(&self)
        ensures { IsToCome self.now }
    {
        let _ = &self.listed;
    }

    fn call(&mut self) -> Result<(), DeviceError>
        ensures no_memory { IsOkUnless result DeviceError.Device }
        ensures set { OnOk result (is_set self.old ≡ false) }
        ensures due { IsTrue (is_due self.old) }
        ensures used { self.new ≡ used self.old result }
    {
        self.calls.add_one();
        if let Some(true) = self.listed.pop() {
            self.failures.add_one();
            return Err(DeviceError::Device);
        }
        Ok(())
    }
}

impl Model for ListedLog {
    ghost use Rattle.std.specs.Prelude.{◌≤◌, take, drop, length};
    ghost use Rattle.stable.specs.LogState.{LogState};

    ghost Value = { LogState };

    ghost view = { λ m. record {
      forced = take m.forced m.bytes.items;
      pending = drop m.forced m.bytes.items;
      usage = m.faults;
    } };

    ghost invariant = { λ m. m.forced ≤ length m.bytes.items };
}

impl ListedLog {
    pub fn new(alloc: Global, listed: Vec<bool>) -> ListedLog {
        ListedLog {
            bytes: Vec::new(alloc),
            forced: 0,
            faults: Faults {
                listed,
                calls: Counter::new(),
                failures: Counter::new(),
            },
        }
    }
}

impl LogDevice for ListedLog {
    ghost forced = { λ log. log.forced };

    ghost pending = { λ log. log.pending };

    ghost usage = { λ log. log.usage };

    ghost forces_whole = { false };

    fn append(&mut self, bytes: &[u8]) -> Result<(), DeviceError> {
        self.bytes.reserve(bytes.len())?;
        self.faults.call()?;
        self.bytes.extend_from_slice(bytes)?;
        Ok(())
    }

    fn append_spelled<S: Spelling>(&mut self, what: &S) -> Result<(), DeviceError> {
        let len = self.bytes.len();
        what.put(&mut self.bytes)?;
        let counted = self.faults.call();
        if counted.is_err() {
            self.bytes.truncate(len);
        }
        counted
    }

    fn force(&mut self) -> Result<(), DeviceError> {
        self.faults.call()?;
        self.forced = self.bytes.len();
        Ok(())
    }

    fn cut(&mut self, len: usize) -> Result<(), DeviceError> {
        self.faults.call()?;
        self.bytes.truncate(len);
        self.forced = len;
        Ok(())
    }

    fn bytes(&mut self) -> Result<&[u8], DeviceError> {
        self.faults.call()?;
        Ok(&self.bytes)
    }

    fn kept(&self) {
        self.faults.kept();
    }

    fn held(&self) -> &[u8] {
        &self.bytes
    }
}
