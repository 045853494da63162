//! What is spelled where it is to stand.
ghost use Rattle.std.specs.Prelude.{◌≡◌, List, ℕ, ◌++◌, OnOk, OnErr, IsOkUnless};

use crate::error::DeviceError;

/// What can write the bytes that spell it, so that a device needs no copy of them made before.
pub trait Spelling {
    /// The bytes that spell it.
    ghost bytes: { Self → List ℕ };

    /// What is owed of it before it is written.
    ghost may_put: { Self → Type 0 };

    /// What is known of it since it has a spelling.
    ghost shows: { Self → Type 0 };

    /// Puts its bytes at the end. Refused NoMemory, and unchanged then.
    fn put(&self, out: &mut Vec<u8>) -> Result<(), DeviceError>
        requires { may_put self.now }
        ensures put { OnOk result (out.new.items ≡ out.old.items ++ bytes self.now) }
        ensures unchanged { OnErr result (out.new.items ≡ out.old.items) }
        ensures memory { IsOkUnless result DeviceError.NoMemory }
        ensures shown { shows self.now };
}
