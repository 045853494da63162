//! A log device in memory, which a test can make fail and crash.
ghost use Rattle.std.specs.Prelude.{◌≡◌, ◌+◌, ◌≤◌, Some, [], ◌++◌, take, length, IsTrue, true, false, OnOk, OnErr, IfOk, IsErrOf, IsOkUnless};
ghost use Rattle.std.specs.Borrow.{sem};
ghost use Rattle.stable.specs.Crash.{MayLeave};
ghost use Rattle.stable.specs.Device.{Rests};
ghost use Rattle.stable.specs.LogState.{with_bytes, log_after};
ghost use Rattle.stable.specs.Usage.{is_due, is_set, unused, failing_in};

use crate::crash_device::CrashLog;
use crate::error::DeviceError;
use crate::faults::Faults;
use crate::log_device::LogDevice;
use crate::spelling::Spelling;
use std::alloc::Global;
use std::marker::Model;

/// Bytes in memory. Each device call counts down to the failure that was set. One that is refused for memory changes
/// nothing, the countdown neither: room is made first.
#[derive(Drop)]
pub struct MemLog {
    bytes: Vec<u8>,
    // How many of the bytes are forced.
    forced: usize,
    faults: Faults,
}

impl Model for MemLog {
    ghost use Rattle.std.specs.Prelude.{◌≤◌, take, drop, length};
    ghost use Rattle.stable.specs.LogState.{LogState};

    ghost Value = { LogState };

    ghost view = { λ m. record {
      forced = take m.forced m.bytes.items;
      pending = drop m.forced m.bytes.items;
      usage = m.faults;
    } };

    ghost invariant = { λ m. m.forced ≤ length m.bytes.items };
}

impl MemLog {
    /// An empty log with no failure set, which takes its memory from `alloc`.
    pub fn new(alloc: Global) -> MemLog
        ensures forced { result.forced ≡ [] }
        ensures pending { result.pending ≡ [] }
        ensures unused { result.usage ≡ unused }
    {
        MemLog {
            bytes: Vec::new(alloc),
            forced: 0,
            faults: Faults::new(),
        }
    }

    /// The bytes that aren't forced yet. This is no device call: nothing is counted, and nothing fails.
    pub fn pending(&self) -> &[u8]
        ensures { result.now ≡ self.now.pending }
    {
        &self.bytes[self.forced..]
    }
}

impl LogDevice for MemLog {
    ghost use Rattle.stable.specs.contracts.mem_log.MemLog.{the_row};

    ghost forced = { λ log. log.forced };

    ghost pending = { λ log. log.pending };

    ghost usage = { λ log. log.usage };

    ghost forces_whole = { true };

    fn append(&mut self, bytes: &[u8]) -> Result<(), DeviceError>
        ensures due { OnOk result (is_due self.old.usage ≡ false) }
        ensures device { IsErrOf result DeviceError.Device → IsTrue (is_due self.old.usage) }
        ensures ok { OnOk result (self.new
            ≡ with_bytes (log_after self.old result) self.old.forced (self.old.pending ++ bytes.now)) }
        ensures err { OnErr result (self.new ≡ log_after self.old result) }
        ensures no_memory { IsErrOf result DeviceError.NoMemory → self.new ≡ self.old }
    {
        self.bytes.reserve(bytes.len())?;
        self.faults.call()?;
        self.bytes.extend_from_slice(bytes)?;
        Ok(())
    }

    #[inline(always)]
    fn append_spelled<S: Spelling>(&mut self, what: &S) -> Result<(), DeviceError>
        requires { S.may_put what.now }
        ensures due { OnOk result (is_due self.old.usage ≡ false) }
        ensures device { IsErrOf result DeviceError.Device → IsTrue (is_due self.old.usage) }
        ensures ok { OnOk result (self.new
            ≡ with_bytes (log_after self.old result) self.old.forced (self.old.pending ++ S.bytes what.now)) }
        ensures err { OnErr result (self.new ≡ log_after self.old result) }
        ensures no_memory { IsErrOf result DeviceError.NoMemory → self.new ≡ self.old }
        ensures shown { S.shows what.now }
    {
        let len = self.bytes.len();
        what.put(&mut self.bytes)?;
        let counted = self.faults.call();
        if counted.is_err() {
            self.bytes.truncate(len);
        }
        counted
    }

    fn force(&mut self) -> Result<(), DeviceError>
        ensures due { OnOk result (is_due self.old.usage ≡ false) }
        ensures device { IsErrOf result DeviceError.Device → IsTrue (is_due self.old.usage) }
        ensures no_memory { IsOkUnless result DeviceError.Device }
        ensures ok { OnOk result (self.new
            ≡ with_bytes (log_after self.old result) (self.old.forced ++ self.old.pending) []) }
        ensures err { OnErr result (self.new ≡ log_after self.old result) }
    {
        self.faults.call()?;
        self.forced = self.bytes.len();
        Ok(())
    }

    fn cut(&mut self, len: usize) -> Result<(), DeviceError>
        requires all_forced { self.old.pending ≡ [] }
        requires within { len ≤ length self.old.forced }
        ensures due { OnOk result (is_due self.old.usage ≡ false) }
        ensures device { IsErrOf result DeviceError.Device → IsTrue (is_due self.old.usage) }
        ensures no_memory { IsOkUnless result DeviceError.Device }
        ensures ok { OnOk result (self.new
            ≡ with_bytes (log_after self.old result) (take len self.old.forced) []) }
        ensures err { OnErr result (self.new ≡ log_after self.old result) }
    {
        self.faults.call()?;
        self.bytes.truncate(len);
        self.forced = len;
        Ok(())
    }

    fn bytes(&mut self) -> Result<&[u8], DeviceError>
        ensures due { OnOk result (is_due self.old.usage ≡ false) }
        ensures set { OnOk result (is_set self.old.usage ≡ false) }
        ensures device { IsErrOf result DeviceError.Device → IsTrue (is_due self.old.usage) }
        ensures value { IfOk result (λ bytes. bytes.now ≡ self.old.forced ++ self.old.pending) }
        ensures no_memory { IsOkUnless result DeviceError.Device }
        ensures* after { sem 𝓛 (Rests the_row self.entry (λ new. new ≡ log_after self.old result)) }
    {
        self.faults.call()?;
        Ok(&self.bytes)
    }

    fn kept(&self) {
        self.faults.kept();
    }

    fn held(&self) -> &[u8]
        ensures { result.now ≡ self.now.forced ++ self.now.pending }
    {
        &self.bytes
    }
}

impl CrashLog for MemLog {
    fn unforced(&self) -> usize
        ensures { result ≡ length self.now.pending }
    {
        self.bytes.len() - self.forced
    }

    fn crash(&mut self, kept: usize)
        ensures left { self.new ≡ with_bytes self.old (self.old.forced ++ take kept self.old.pending) [] }
        ensures law { MayLeave self.old.forced self.old.pending self.new.forced }
    {
        let pending = self.unforced();
        self.forced += kept.min(pending);
        self.bytes.truncate(self.forced);
    }

    fn fail_at(&mut self, n: u64)
        requires { 1 ≤ n }
        ensures { self.new ≡ record self.old { usage = failing_in n self.old.usage } }
    {
        self.faults.fail_at(n);
    }
}
