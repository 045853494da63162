//! Which transactions added to a key.
ghost use Rattle.std.specs.Prelude.{◌≡◌, ◌+◌, ◌≤◌, ℕ, List, [], ◌∷◌, ◌++◌, filter, OnOk};
ghost use Rattle.std.specs.BTreeMap as tree;
ghost use Rattle.std.specs.Ordering.{nat_cmp};
ghost use Rattle.tc_log.specs.Adders.{adders_in, stays, PutsAdders};

use record_key::Key;
use std::alloc::{AllocError, Global};
use std::collections::BTreeMap;

/// For each key the transactions of its Adds since its latest other operation, the oldest first. One that is over is
/// dropped when the next comes, so a list is hardly longer than the open transactions that added are many.
#[derive(Drop)]
pub(crate) struct Adders {
    pub(crate) by_key: BTreeMap<Key, Vec<u64>>,
    pub(crate) alloc: Global,
}

impl Adders {
    pub(crate) fn new(alloc: Global) -> Adders
        ensures { (k : List ℕ) → adders_in result k ≡ [] }
    {
        Adders {
            by_key: BTreeMap::new(alloc),
            alloc,
        }
    }

    /// The transaction adds to the key; the map has just the open transactions.
    pub(crate) fn add(
        &mut self,
        key: &Key,
        txn: u64,
        latest: &BTreeMap<u64, u64>,
    ) -> Result<(), AllocError>
        ensures puts { OnOk result (PutsAdders (adders_in self.old) (adders_in self.new) key.now
            (filter (stays (λ (t : ℕ). tree.get nat_cmp latest.now t) txn) (adders_in self.old key.now) ++ txn ∷ [])) }
        ensures one_more { OnOk result
            (tree.btree_map_len self.new.by_key ≤ tree.btree_map_len self.old.by_key + 1) }
    {
        let mut adders = match self.by_key.remove(key) {
            Some(adders) => adders,
            None => Vec::new(self.alloc),
        };
        drop_ended(&mut adders, txn, latest);
        adders.push(txn)?;
        self.by_key.insert(key.copied(), adders)?;
        Ok(())
    }

    /// Another operation comes after the Adds on the key.
    pub(crate) fn clear(&mut self, key: &Key)
        ensures puts { PutsAdders (adders_in self.old) (adders_in self.new) key.now [] }
        ensures no_more { tree.btree_map_len self.new.by_key ≤ tree.btree_map_len self.old.by_key }
    {
        self.by_key.remove(key);
    }
}

/// Drops the transaction itself, and each that is over.
fn drop_ended(adders: &mut Vec<u64>, txn: u64, latest: &BTreeMap<u64, u64>)
    ensures { adders.new.items
        ≡ filter (stays (λ (t : ℕ). tree.get nat_cmp latest.now t) txn) adders.old.items }
{
    adders.retain(|adder| *adder != txn && latest.contains_key(adder));
}
