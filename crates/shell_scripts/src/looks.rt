//! How the rows are told of which scans have asked.
ghost use Rattle.std.specs.Prelude.{◌≡◌, ◌==◌, ◌<◌, [], IfSome, length, position};
ghost use Rattle.shell_scripts.specs.Looks.{look_for, noted};

use crate::line::Look;
use arrayvec::ArrayVec;

/// Of so many scans, the last ones, it is known. No more transactions are open, and each waits for one answer at most.
const KNOWN: usize = 64;

/// A scan that was asked for.
#[derive(Clone, Copy, Default)]
pub struct Scan {
    /// The transaction.
    pub txn: u64,
    pub look: Look,
}

/// The last scans, the latest first. Takes no memory.
#[derive(Drop)]
pub struct Looks {
    pub(crate) scans: ArrayVec<Scan, KNOWN>,
}

impl Looks {
    /// None was asked for.
    pub fn new() -> Looks
        ensures { result.scans.items ≡ [] }
    {
        Looks {
            scans: ArrayVec::new(),
        }
    }

    /// How the rows of this transaction's last scan are told.
    pub fn look(&self, txn: u64) -> Look
        ensures { result ≡ look_for txn self.now.scans.items }
    {
        match self.place_of(txn) {
            Some(place) => self.scans[place].look,
            None => Look::All,
        }
    }

    /// The place of this transaction's last scan.
    fn place_of(&self, txn: u64) -> Option<usize>
        ensures place { result ≡ position (λ s. s.txn == txn) self.now.scans.items }
        ensures within { IfSome result (λ place. place < length self.now.scans.items) }
    {
        self.scans.iter().position(|scan| scan.txn == txn)
    }

    /// The transaction has asked for rows, which are to be told so.
    pub fn note(&mut self, txn: u64, look: Look)
        ensures { self.new.scans.items ≡ noted txn look self.old.scans.items }
    {
        self.scans.truncate(KNOWN - 1);
        self.scans.insert(0, Scan { txn, look });
    }
}
