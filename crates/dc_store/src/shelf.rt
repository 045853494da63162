//! Leaves by number, each in a place of its own.
ghost use Rattle.std.specs.Prelude.{◌≡◌, ℕ, ◌==◌, ◌<◌, ◌≤◌, None, true, is_some, length, vec_len, if◌then◌else◌, IfOk, IsOkUnless};
ghost use Rattle.dc_store.specs.Shelf.{held, leaf_on, boxes_on};

use dc_leaf::Leaf;
use record_key::Refusal;
use std::alloc::Global;

/// The place of each number counts from 0.
#[derive(Debug, Drop)]
pub(crate) struct Shelf {
    pub slots: Vec<Option<Box<Leaf>>>,
}

impl Shelf {
    /// So many places with no leaf in them. Refused NoMemory.
    pub(crate) fn new(alloc: Global, count: u64) -> Result<Shelf, Refusal>
        ensures empty { IfOk result (λ shelf. (id : ℕ) → leaf_on shelf.slots.items id ≡ None) }
        ensures count { IfOk result (λ shelf. vec_len shelf.slots ≡ count) }
        ensures memory { IsOkUnless result Refusal.NoMemory }
    {
        let mut slots = Vec::new(alloc);
        for _ in 0..count {
            slots.push(None)?;
        }
        Ok(Shelf { slots })
    }

    /// Puts a leaf, or none, in the place of what stood there, and gives that.
    pub(crate) fn replace(&mut self, id: u64, leaf: Option<Box<Leaf>>) -> Option<Box<Leaf>>
        requires { id < vec_len self.old.slots }
        ensures was { held result ≡ leaf_on self.old.slots.items id }
        ensures now { (other : ℕ) → leaf_on self.new.slots.items other
            ≡ (if other == id then held leaf else leaf_on self.old.slots.items other) }
        ensures count { vec_len self.new.slots ≡ vec_len self.old.slots }
    {
        let old = self.slots[id as usize].take();
        self.slots[id as usize] = leaf;
        old
    }

    /// Puts a leaf, or none, in its place, if there is one of that number.
    pub(crate) fn offer(&mut self, id: u64, leaf: Option<Box<Leaf>>)
        ensures put { id < vec_len self.old.slots → (other : ℕ) → leaf_on self.new.slots.items other
            ≡ (if other == id then held leaf else leaf_on self.old.slots.items other) }
        ensures passed { vec_len self.old.slots ≤ id → self.new.slots.items ≡ self.old.slots.items }
        ensures count { vec_len self.new.slots ≡ vec_len self.old.slots }
    {
        if id < self.slots.len() as u64 {
            let _ = self.replace(id, leaf);
        }
    }

    /// Whether a leaf stands in the place.
    pub(crate) fn has(&self, id: u64) -> bool
        requires { id < vec_len self.now.slots }
        ensures { result ≡ is_some (leaf_on self.now.slots.items id) }
    {
        self.slots[id as usize].is_some()
    }

    /// The leaves, in the order of their numbers. Refused NoMemory.
    pub(crate) fn into_leaves(self, alloc: Global) -> Result<Vec<Box<Leaf>>, Refusal>
        ensures these { IfOk result (λ leaves. leaves.items ≡ boxes_on self.slots.items) }
        ensures memory { IsOkUnless result Refusal.NoMemory }
    {
        let mut leaves = Vec::new(alloc);
        for slot in self.slots {
            if let Some(leaf) = slot {
                leaves.push(leaf)?;
            }
        }
        Ok(leaves)
    }
}
