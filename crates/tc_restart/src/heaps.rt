//! The losers in two heaps, each with room for all of them.
ghost use Rattle.std.specs.Prelude.{◌≡◌, ◌+◌, ◌∷◌, [], ℕ, IfOk};
ghost use Rattle.tc_restart.specs.Losers.{nobody_lost, FindsNext, FindsEnded, TakesComp, TakesEnd};
ghost use Rattle.tc_restart.specs.Heaps.{seen, IsHeaped, Adds};

use crate::loser::Loser;
use std::alloc::{AllocError, Global};
use std::cmp::Reverse;
use std::collections::BinaryHeap;

#[derive(Drop)]
pub(crate) struct Heaps {
    // They began below this number.
    pub(crate) below: u64,
    // Those that have something left to undo, the latest operation first.
    pub(crate) undoing: BinaryHeap<Loser>,
    // The others, the least first.
    pub(crate) done: BinaryHeap<Reverse<u64>>,
}

impl Heaps {
    /// No loser, and no room. Takes no memory.
    pub(crate) fn new(alloc: Global) -> Heaps
        ensures kept { IsHeaped result 0 }
        ensures empty { seen result ≡ nobody_lost }
    {
        Heaps {
            below: 0,
            undoing: BinaryHeap::new(alloc),
            done: BinaryHeap::new(alloc),
        }
    }

    /// No loser, and room for so many.
    pub(crate) fn with_room(alloc: Global, below: u64, count: usize) -> Result<Heaps, AllocError>
        ensures kept { IfOk result (λ heaps. IsHeaped heaps count) }
        ensures empty { IfOk result (λ heaps. seen heaps ≡ record { below = below; undoing = []; done = [] }) }
    {
        Ok(Heaps {
            below,
            undoing: BinaryHeap::with_capacity(alloc, count)?,
            done: BinaryHeap::with_capacity(alloc, count)?,
        })
    }

    /// A loser more, for which there is room. Takes no memory.
    pub(crate) fn add(&mut self, loser: Loser)
        requires { IsHeaped self.old 1 }
        ensures kept { (more : ℕ) → IsHeaped self.old (more + 1) → IsHeaped self.new more }
        ensures added { Adds (seen self.old) loser (seen self.new) }
    {
        if loser.left == 0 {
            match self.done.push(Reverse(loser.txn)) {
                Ok(()) => {}
                Err(_) => unreachable!(),
            }
        } else {
            match self.undoing.push(loser) {
                Ok(()) => {}
                Err(_) => unreachable!(),
            }
        }
    }

    /// The loser that has the latest operation left.
    pub(crate) fn lose_next(&self) -> Option<Loser>
        requires { IsHeaped self.now 0 }
        ensures { FindsNext (seen self.now) result }
    {
        match self.undoing.peek() {
            Some(top) => Some(*top),
            None => None,
        }
    }

    /// The least loser that has nothing left to undo.
    pub(crate) fn ended_next(&self) -> Option<u64>
        requires { IsHeaped self.now 0 }
        ensures { FindsEnded (seen self.now) result }
    {
        match self.done.peek() {
            Some(least) => Some(least.0),
            None => None,
        }
    }

    /// The Comp of the latest operation left was appended.
    pub(crate) fn compensated(&mut self, number: u64, next: u64)
        requires { IsHeaped self.old 0 }
        ensures kept { IsHeaped self.new 0 }
        ensures same { self.new.below ≡ self.old.below }
        ensures taken { TakesComp (seen self.old) number next (seen self.new) }
    {
        if let Some(loser) = self.undoing.pop() {
            self.add(Loser {
                left: next,
                txn: loser.txn,
                last: number,
            });
        }
    }

    /// The End of the least loser that has nothing left to undo was appended.
    pub(crate) fn ended(&mut self)
        requires { IsHeaped self.old 0 }
        ensures kept { IsHeaped self.new 0 }
        ensures same { self.new.below ≡ self.old.below }
        ensures taken { TakesEnd (seen self.old) (seen self.new) }
    {
        self.done.pop();
    }
}
