//! A lock with its holder, as the index has it.
ghost use Rattle.std.specs.Prelude.{◌≡◌};

use crate::span::Lock;

/// A lock and the transaction that holds it. Ranges come first, then single keys; each in key order.
#[derive(Debug, Clone, PartialEq, Eq, PartialOrd, Ord, Drop)]
pub struct Entry {
    pub lock: Lock,
    pub txn: u64,
}

impl Entry {
    /// The same entry again. Takes no memory.
    pub fn copied(&self) -> Entry
        ensures { result ≡ self.now }
    {
        self.clone().unwrap()
    }
}
