//! What a log device promises.
ghost use Rattle.std.specs.Prelude.{◌≡◌, ℕ, ◌≤◌, Bool, true, false, List, [], ◌++◌, take, length, IsTrue, OnOk, OnErr, IfOk, IsErrOf, IsOkUnless};
ghost use Rattle.std.specs.Borrow.{sem};
ghost use Rattle.stable.specs.Device.{ForcesPart, Rests};
ghost use Rattle.stable.specs.Usage.{IsToCome, Usage, is_due, is_set, used};

use crate::error::DeviceError;
use crate::spelling::Spelling;

/// Bytes that only grow at their end. A crash leaves all that are forced, and a beginning of the others.
pub trait LogDevice {
    /// What every crash leaves.
    ghost forced: { Self → List ℕ };

    /// What was appended after the forced bytes.
    ghost pending: { Self → List ℕ };

    /// How many calls were made of it and how many of them failed, and which is set to fail.
    ghost usage: { Self → Usage };

    /// Whether a failed force forces nothing; of another device it may force some of the bytes.
    ghost forces_whole: { Bool };

    /// Adds bytes at the end, all of them or none.
    fn append(&mut self, bytes: &[u8]) -> Result<(), DeviceError>
        ensures forced { forced self.new ≡ forced self.old }
        ensures appended { OnOk result (pending self.new ≡ pending self.old ++ bytes.now) }
        ensures err { OnErr result (pending self.new ≡ pending self.old) }
        ensures set { OnOk result (is_set (usage self.old) ≡ false) }
        ensures device { IsErrOf result DeviceError.Device → IsTrue (is_due (usage self.old)) }
        ensures used { usage self.new ≡ used (usage self.old) result };

    /// Adds what is spelled at the end, all of it or none: its bytes are written where they are to stand.
    fn append_spelled<S: Spelling>(&mut self, what: &S) -> Result<(), DeviceError>
        requires { S.may_put what.now }
        ensures forced { forced self.new ≡ forced self.old }
        ensures appended { OnOk result (pending self.new ≡ pending self.old ++ S.bytes what.now) }
        ensures err { OnErr result (pending self.new ≡ pending self.old) }
        ensures set { OnOk result (is_set (usage self.old) ≡ false) }
        ensures device { IsErrOf result DeviceError.Device → IsTrue (is_due (usage self.old)) }
        ensures used { usage self.new ≡ used (usage self.old) result }
        ensures shown { S.shows what.now };

    /// After it every byte is forced. Where it fails, some may be.
    fn force(&mut self) -> Result<(), DeviceError>
        ensures all_forced { OnOk result (forced self.new ≡ forced self.old ++ pending self.old) }
        ensures none_pending { OnOk result (pending self.new ≡ []) }
        ensures err { OnErr result (ForcesPart (forced self.old) (pending self.old)
            (forced self.new) (pending self.new)) }
        ensures whole { OnErr result (forces_whole ≡ true → forced self.new ≡ forced self.old) }
        ensures no_memory { IsOkUnless result DeviceError.Device }
        ensures set { OnOk result (is_set (usage self.old) ≡ false) }
        ensures device { IsErrOf result DeviceError.Device → IsTrue (is_due (usage self.old)) }
        ensures used { usage self.new ≡ used (usage self.old) result };

    /// Keeps the first `len` bytes of what a crash left. The cut lasts.
    fn cut(&mut self, len: usize) -> Result<(), DeviceError>
        requires all_forced { pending self.old ≡ [] }
        requires within { len ≤ length (forced self.old) }
        ensures cut { OnOk result (forced self.new ≡ take len (forced self.old)) }
        ensures err { OnErr result (forced self.new ≡ forced self.old) }
        ensures none_pending { pending self.new ≡ [] }
        ensures no_memory { IsOkUnless result DeviceError.Device }
        ensures set { OnOk result (is_set (usage self.old) ≡ false) }
        ensures device { IsErrOf result DeviceError.Device → IsTrue (is_due (usage self.old)) }
        ensures used { usage self.new ≡ used (usage self.old) result };

    /// All bytes, the forced ones first: the call by which a log is read when it is opened. They are lent and not copied.
    fn bytes(&mut self) -> Result<&[u8], DeviceError>
        ensures set { OnOk result (is_set (usage self.old) ≡ false) }
        ensures device { IsErrOf result DeviceError.Device → IsTrue (is_due (usage self.old)) }
        ensures value { IfOk result (λ bytes. bytes.now ≡ forced self.old ++ pending self.old) }
        ensures no_memory { IsOkUnless result DeviceError.Device }
        ensures* after { sem 𝓛 (Rests Self.row self.entry (λ new.
            (forced new ≡ forced self.old)
            × (pending new ≡ pending self.old)
            × (usage new ≡ used (usage self.old) result))) };

    /// What holds at every moment: a failure that was set is still to come. This is no device call.
    fn kept(&self)
        ensures { IsToCome (usage self.now) };

    /// All bytes, the forced ones first, as the device holds them in memory. This is no device call: nothing is counted,
    /// and nothing fails.
    fn held(&self) -> &[u8]
        ensures { result.now ≡ forced self.now ++ pending self.now };
}
