//! How a device in memory was used, and the call of it that a test has set to fail.
ghost use Rattle.std.specs.Prelude.{◌≡◌, ◌+◌, ◌≤◌, ◌↔◌, Some, IsTrue, IsErrOf, IsOkUnless};
ghost use Rattle.stable.specs.Usage.{IsToCome, is_due, used, unused, failing_in};

use crate::counter::Counter;
use crate::error::DeviceError;
use std::marker::Model;

#[derive(Drop)]
pub(crate) struct Faults {
    // Which call from now fails.
    countdown: Option<u64>,
    calls: Counter,
    failures: Counter,
}

impl Model for Faults {
    ghost use Rattle.std.specs.Prelude.{false};
    ghost use Rattle.stable.specs.Usage.{Counts, Usage, counted_from};

    ghost Value = { Usage };

    ghost view = { λ f. record {
      calls = f.calls.count;
      failures = f.failures.count;
      failing = counted_from f.calls.count f.countdown;
      freely = false;
    } };

    ghost invariant = { λ f. Counts f.countdown };
}

impl Faults {
    pub(crate) fn new() -> Faults
        ensures { result ≡ unused }
    {
        Faults {
            countdown: None,
            calls: Counter::new(),
            failures: Counter::new(),
        }
    }

    /// What holds at every moment: a failure that was set is still to come.
    pub(crate) fn kept(&self)
        ensures { IsToCome self.now }
    {
        let _ = &self.countdown;
    }

    /// The `n`-th call from now fails.
    pub(crate) fn fail_at(&mut self, n: u64)
        requires { 1 ≤ n }
        ensures { self.new ≡ failing_in n self.old }
    {
        self.countdown = Some(n);
    }

    /// Whether the next call is the one that was set.
    pub(crate) fn is_due(&self) -> bool
        ensures { result ≡ is_due self.now }
    {
        match self.countdown {
            Some(n) => n <= 1,
            None => false,
        }
    }

    /// Counts a call, which fails if it is the one that was set.
    pub(crate) fn call(&mut self) -> Result<(), DeviceError>
        ensures device { IsErrOf result DeviceError.Device ↔ IsTrue (is_due self.old) }
        ensures only_device { IsOkUnless result DeviceError.Device }
        ensures used { self.new ≡ used self.old result }
    {
        let is_due = self.is_due();
        self.calls.add_one();
        if is_due {
            self.countdown = None;
            self.failures.add_one();
            return Err(DeviceError::Device);
        }
        if let Some(n) = self.countdown {
            self.countdown = Some(n - 1);
        }
        Ok(())
    }
}
