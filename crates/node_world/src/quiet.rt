//! Whether a node is quiet.
ghost use Rattle.std.specs.Prelude.{◌↔◌, IsTrue};
ghost use Rattle.node_world.specs.Quiet.{IsQuiet};

use crate::world::World;
use stable::{CrashLog, CrashPages};

impl<D: CrashLog, P: CrashPages> World<D, P> {
    /// Whether nothing is left to do, and no transaction is open. Takes no memory and reads no record.
    pub fn is_quiet(&self) -> bool
        ensures { IsTrue result ↔ IsQuiet self.now }
    {
        if let Some(_round) = self.next_round() {
            return false;
        }
        let Ok(tc) = self.running_tc() else {
            unreachable!();
        };
        tc.has_nobody_open()
    }
}
