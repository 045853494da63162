//! The transactions that a restart rolls back.
ghost use Rattle.std.specs.Prelude.{◌≡◌};
ghost use Rattle.tc_restart.specs.Losers.{nobody_lost, TellsNone, FindsNext, FindsEnded, TakesComp, TakesEnd};

use crate::heaps::Heaps;
use crate::loser::Loser;
use std::alloc::Global;
use std::marker::Model;

/// The transactions that began below a number and have neither a Commit nor an End, each with what it has left to
/// undo. A call takes a time that grows as the logarithm of their count.
#[derive(Drop)]
pub struct Losers {
    pub(crate) heaps: Heaps,
}

impl Model for Losers {
    ghost use Rattle.tc_restart.specs.Losers.{LosersView};

    ghost Value = { LosersView };

    ghost use Rattle.tc_restart.specs.Heaps.{seen, IsHeaped};

    ghost view = { λ l. seen l.heaps };

    ghost invariant = { λ l. IsHeaped l.heaps 0 };
}

impl Losers {
    /// No transaction is one, as where a log is new. Takes no memory; the allocator serves nothing.
    pub fn nobody(alloc: Global) -> Losers
        ensures { result ≡ nobody_lost }
    {
        Losers {
            heaps: Heaps::new(alloc),
        }
    }

    /// The number below which they began.
    pub fn below(&self) -> u64
        ensures { result ≡ self.now.below }
    {
        self.heaps.below
    }

    /// Whether there is none.
    pub fn is_empty(&self) -> bool
        ensures { TellsNone self.now result }
    {
        self.heaps.lose_next().is_none() && self.heaps.ended_next().is_none()
    }

    /// The loser whose operation is compensated next: the one that has the latest operation that no Comp names.
    pub fn lose_next(&self) -> Option<Loser>
        ensures { FindsNext self.now result }
    {
        self.heaps.lose_next()
    }

    /// The loser that ends next: the least one of which every operation is compensated. Whether it waits for an answer
    /// is asked of the log.
    pub fn ended_next(&self) -> Option<u64>
        ensures { FindsEnded self.now result }
    {
        self.heaps.ended_next()
    }

    /// The Comp of the operation that was to be compensated next was appended, with this number and this undo-next.
    /// Takes no memory.
    pub fn compensated(&mut self, number: u64, next: u64)
        ensures same { self.new.below ≡ self.old.below }
        ensures taken { TakesComp self.old number next self.new }
    {
        self.heaps.compensated(number, next);
    }

    /// The End of the loser that was to end next was appended. Takes no memory.
    pub fn ended(&mut self)
        ensures same { self.new.below ≡ self.old.below }
        ensures taken { TakesEnd self.old self.new }
    {
        self.heaps.ended();
    }
}
