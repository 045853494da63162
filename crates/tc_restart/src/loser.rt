//! A loser that has something left to undo.
ghost use Rattle.std.specs.Prelude.{◌≡◌};

use tc_undo::Chain;

/// A transaction that a restart rolls back, in the order of its latest operation that no Comp names.
#[derive(Debug, Clone, Copy, PartialEq, Eq, PartialOrd, Ord)]
pub struct Loser {
    /// That operation.
    pub left: u64,
    /// The number of its Begin record.
    pub txn: u64,
    /// Its latest Op or Comp record.
    pub last: u64,
}

impl Loser {
    /// Its steps, from the latest on.
    pub fn chain(self) -> Chain
        ensures { result ≡ record { txn = self.txn; last = self.last } }
    {
        Chain {
            txn: self.txn,
            last: self.last,
        }
    }
}
