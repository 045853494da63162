//! What a page device promises.
ghost use Rattle.std.specs.Prelude.{◌≡◌, ◌≤◌, ℕ, Bool, true, false, length, IsTrue, OnOk, OnErr, IfOk, IsErrOf, IsOkUnless};
ghost use Rattle.std.specs.Borrow.{sem};
ghost use Rattle.std.specs.FinMap as map;
ghost use Rattle.std.specs.List.Sorted.{IsStrictlyIncreasing};
ghost use Rattle.std.specs.Option.{option_map};
ghost use Rattle.stable.specs.Device.{Rests};
ghost use Rattle.stable.specs.PagesState.{Pages};
ghost use Rattle.stable.specs.Usage.{IsToCome, Usage, is_due, is_set, used};

use crate::error::DeviceError;
use std::alloc::{AllocError, Global};

/// Pages by number, each an image of any length. A write is whole or absent, and a crash changes nothing.
pub trait PageDevice {
    /// The image of each page that was written, as its last successful write left it.
    ghost pages: { Self → Pages };

    /// Whether an image of this length may be put in the place of a page without more memory. It decides of nothing but
    /// that, and no call takes room away.
    ghost has_room: { Self → ℕ → ℕ → Bool };

    /// How many calls were made of it and how many of them failed, and which is set to fail.
    ghost usage: { Self → Usage };

    /// What holds at every moment: a failure that was set is still to come. This is no device call.
    fn kept(&self)
        ensures { IsToCome (usage self.now) };

    /// Makes room for an image of at most this length in the place of a page, so that it can be written without more
    /// memory. Nothing is written: this is no call that is counted, and the device can't fail in it. Refused only where
    /// there is no such room yet.
    fn make_room(&mut self, id: u64, len: usize) -> Result<(), AllocError>
        ensures room { OnOk result ((n : ℕ) → n ≤ len → has_room self.new id n ≡ true) }
        ensures kept { (other n : ℕ) → has_room self.old other n ≡ true → has_room self.new other n ≡ true }
        ensures full { OnErr result (has_room self.old id len ≡ false) }
        ensures same { pages self.new ≡ pages self.old }
        ensures uncounted { usage self.new ≡ usage self.old };

    /// Puts an image in the place of the page's last one, the whole of it or none.
    fn write(&mut self, id: u64, image: &[u8]) -> Result<(), DeviceError>
        ensures written { OnOk result (pages self.new ≡ map.insert (pages self.old) id image.now) }
        ensures err { OnErr result (pages self.new ≡ pages self.old) }
        ensures no_room { IsErrOf result DeviceError.NoMemory → has_room self.old id (length image.now) ≡ false }
        ensures kept { (other n : ℕ) → has_room self.old other n ≡ true → has_room self.new other n ≡ true }
        ensures set { OnOk result (is_set (usage self.old) ≡ false) }
        ensures device { IsErrOf result DeviceError.Device → IsTrue (is_due (usage self.old)) }
        ensures used { usage self.new ≡ used (usage self.old) result };

    /// The image of a page, or none where it was never written. It is lent and not copied.
    fn read(&mut self, id: u64) -> Result<Option<&[u8]>, DeviceError>
        ensures set { OnOk result (is_set (usage self.old) ≡ false) }
        ensures device { IsErrOf result DeviceError.Device → IsTrue (is_due (usage self.old)) }
        ensures value { IfOk result (λ image.
            option_map (λ bytes. bytes.now) image ≡ map.get (pages self.old) id) }
        ensures no_memory { IsOkUnless result DeviceError.Device }
        ensures* after { sem 𝓛 (Rests Self.row self.entry (λ new.
            (pages new ≡ pages self.old)
            × (usage new ≡ used (usage self.old) result))) };

    /// The numbers of the pages that were written, in rising order.
    fn ids(&mut self, alloc: Global) -> Result<Vec<u64>, DeviceError>
        ensures written { IfOk result (λ ids. ids.items ≡ map.keys (pages self.old)) }
        ensures rising { IfOk result (λ ids. IsStrictlyIncreasing ids.items) }
        ensures same { pages self.new ≡ pages self.old }
        ensures set { OnOk result (is_set (usage self.old) ≡ false) }
        ensures device { IsErrOf result DeviceError.Device → IsTrue (is_due (usage self.old)) }
        ensures used { usage self.new ≡ used (usage self.old) result };
}
