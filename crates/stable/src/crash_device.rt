//! What may befall a device: a crash, and a failure of one of its calls. No call of these traits is a device call:
//! nothing is counted, and nothing fails.
ghost use Rattle.std.specs.Prelude.{◌≡◌, ◌≤◌, [], ◌++◌, true, take, length};
ghost use Rattle.stable.specs.Usage.{failing_in};

use crate::log_device::LogDevice;
use crate::page_device::PageDevice;

/// A log device that a crash may strike. A force that fails forces nothing: a crash may still keep what it wrote, as it
/// may keep a beginning of all that isn't forced.
pub trait CrashLog: LogDevice {
    /// How many bytes aren't forced.
    fn unforced(&self) -> usize
        ensures { result ≡ length (Self.pending self.now) };

    /// Keeps the forced bytes and at most `kept` more, all of which are forced from now on.
    fn crash(&mut self, kept: usize)
        ensures left { Self.forced self.new ≡ Self.forced self.old ++ take kept (Self.pending self.old) }
        ensures none_pending { Self.pending self.new ≡ [] }
        ensures uncounted { Self.usage self.new ≡ Self.usage self.old }
        ensures whole { Self.forces_whole ≡ true };

    /// The `n`-th call from now fails, once. It takes the place of a failure that was set and hasn't happened, and a
    /// crash leaves it still to come.
    fn fail_at(&mut self, n: u64)
        requires { 1 ≤ n }
        ensures forced { Self.forced self.new ≡ Self.forced self.old }
        ensures pending { Self.pending self.new ≡ Self.pending self.old }
        ensures set { Self.usage self.new ≡ failing_in n (Self.usage self.old) };
}

/// A page device that a crash may strike.
pub trait CrashPages: PageDevice {
    /// Leaves each page as its last successful write, and a failure that was set still to come.
    fn crash(&mut self)
        ensures pages { Self.pages self.new ≡ Self.pages self.old }
        ensures uncounted { Self.usage self.new ≡ Self.usage self.old };

    /// The `n`-th call from now fails, once. It takes the place of a failure that was set and hasn't happened.
    fn fail_at(&mut self, n: u64)
        requires { 1 ≤ n }
        ensures pages { Self.pages self.new ≡ Self.pages self.old }
        ensures set { Self.usage self.new ≡ failing_in n (Self.usage self.old) };
}
