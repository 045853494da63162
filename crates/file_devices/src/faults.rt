//! How a device over files was used, and the call of it that was set to fail. The system may refuse any other too.
ghost use Rattle.std.specs.Prelude.{◌≡◌, ◌≤◌, Some, Err, false, IsTrue, OnOk, IsOkUnless};
ghost use Rattle.stable.specs.Usage.{IsToCome, is_due, is_set, used, failing_in};
ghost use Rattle.stable.specs.declared.error.DeviceError.TheVariants.{Device};
ghost use Rattle.file_devices.specs.Failing.{freely_unused, refused};

use stable::{Counter, DeviceError};
use std::marker::Model;

#[derive(Drop)]
pub(crate) struct Faults {
    // Which call from now fails.
    countdown: Option<u64>,
    calls: Counter,
    failures: Counter,
}

impl Model for Faults {
    ghost use Rattle.std.specs.Prelude.{true};
    ghost use Rattle.stable.specs.Usage.{Counts, Usage, counted_from};

    ghost Value = { Usage };

    ghost view = { λ f. record {
      calls = f.calls.count;
      failures = f.failures.count;
      failing = counted_from f.calls.count f.countdown;
      freely = true;
    } };

    ghost invariant = { λ f. Counts f.countdown };
}

impl Faults {
    pub(crate) fn new() -> Faults
        ensures { result ≡ freely_unused }
    {
        Faults {
            countdown: None,
            calls: Counter::new(),
            failures: Counter::new(),
        }
    }

    /// What holds at every moment: a failure that was set is still to come.
    pub(crate) fn kept(&self)
        ensures { IsToCome self.now }
    {
        let _ = &self.countdown;
    }

    /// The `n`-th call from now fails.
    pub(crate) fn fail_at(&mut self, n: u64)
        requires { 1 ≤ n }
        ensures { self.new ≡ failing_in n self.old }
    {
        self.countdown = Some(n);
    }

    /// Counts a call, which fails if it is the one that was set.
    pub(crate) fn call(&mut self) -> Result<(), DeviceError>
        ensures set { OnOk result (is_set self.old ≡ false) }
        ensures due { IsTrue (is_due self.old) }
        ensures only_device { IsOkUnless result DeviceError.Device }
        ensures used { self.new ≡ used self.old result }
    {
        if let Some(n) = self.countdown {
            if n <= 1 {
                return self.refuse();
            }
            self.countdown = Some(n - 1);
        }
        self.calls.add_one();
        Ok(())
    }

    /// Counts a call that fails. If it isn't the one that was set, that is still to come.
    pub(crate) fn refuse(&mut self) -> Result<(), DeviceError>
        ensures due { IsTrue (is_due self.old) }
        ensures device { result ≡ Err Device }
        ensures used { self.new ≡ used self.old result }
    {
        if let Some(n) = self.countdown {
            self.countdown = if n <= 1 { None } else { Some(n - 1) };
        }
        self.calls.add_one();
        self.failures.add_one();
        Err(DeviceError::Device)
    }

    /// Counts the last call as one that failed: the system refused it.
    pub(crate) fn fail(&mut self) -> Result<(), DeviceError>
        ensures device { result ≡ Err Device }
        ensures refused { self.new ≡ refused self.old }
    {
        self.failures.add_one();
        Err(DeviceError::Device)
    }
}
