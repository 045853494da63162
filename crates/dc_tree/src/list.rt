//! Leaves in a plain list.
ghost use Rattle.std.specs.Prelude.{◌≡◌};

use crate::boxes::{merge_in, perform_in, place_in, raise_in, replace_in, split_in};
use crate::choosing::{large_in, pair_in};
use crate::leaf_set::LeafSet;
use crate::parting::{Merge, Split};
use crate::range_scan::scan_in;
use dc_leaf::{AnswerSink, Done, Leaf, RowSink};
use record_key::{Key, OpRef, Refusal, ValueRef};
use std::alloc::Global;
use std::marker::Model;

/// Leaves in a list. The leaf of a key is found by halving, and no leaf is copied when another is put beside it.
#[derive(Debug, Drop)]
pub struct LeafList {
    alloc: Global,
    leaves: Vec<Box<Leaf>>,
}

impl Model for LeafList {
    ghost use Rattle.std.specs.Prelude.{◌-◌, vec_len};
    ghost use Rattle.std.specs.Vec.{vec_capacity};
    ghost use Rattle.std.specs.Coded.{codes};
    ghost use Rattle.record_key.specs.Table.{table_code};
    ghost use Rattle.dc_tree.specs.Leaves.{AreLeaves};
    ghost use Rattle.dc_tree.specs.Lists.{ListView, leaves_in};

    ghost Value = { ListView };

    ghost coded = { Prim.hlevel (codes, table_code) };

    ghost view = { λ l. record {
      leaves = leaves_in l.leaves.items;
      room = vec_capacity l.leaves - vec_len l.leaves;
    } };

    ghost invariant = { λ l. AreLeaves (leaves_in l.leaves.items) };
}

impl LeafSet for LeafList {
    ghost leaves = { λ list. list.leaves };

    ghost room = { λ list. list.room };

    fn from_leaves(alloc: Global, boxes: Vec<Box<Leaf>>) -> Result<LeafList, Refusal> {
        Ok(LeafList {
            alloc,
            leaves: boxes,
        })
    }

    fn allocator(&self) -> Global {
        self.alloc
    }

    fn kept(&self) {
        let _count = self.leaves.len();
    }

    fn len(&self) -> usize {
        self.leaves.len()
    }

    fn leaf(&self, place: usize) -> &Leaf {
        &self.leaves[place]
    }

    fn place_of(&self, key: &Key) -> usize {
        place_in(self.leaves.as_slice(), key)
    }

    fn perform<S: AnswerSink>(
        &mut self,
        number: u64,
        op: &OpRef<'_>,
        asker: u64,
        sink: &mut S,
    ) -> Result<Done, Refusal> {
        perform_in(&mut self.leaves, number, op, asker, sink)
    }

    fn get(&self, key: &Key) -> Option<ValueRef<'_>> {
        self.leaves[place_in(self.leaves.as_slice(), key)].get(key)
    }

    fn scan<S: RowSink>(
        &self,
        low: &Key,
        high: Option<&Key>,
        found: &mut S,
    ) -> Result<(), Refusal> {
        scan_in(self.leaves.as_slice(), low, high, found)
    }

    fn first_large(&self, known: u64) -> Option<usize> {
        large_in(self.leaves.as_slice(), known)
    }

    fn first_pair(&self, known: u64) -> Option<usize> {
        pair_in(self.leaves.as_slice(), known)
    }

    fn raise(&mut self, low: u64) {
        raise_in(&mut self.leaves, low);
    }

    fn make_room(&mut self) -> Result<(), Refusal> {
        self.leaves.reserve(1)?;
        Ok(())
    }

    fn split(&mut self, place: usize, split: Split) {
        split_in(&mut self.leaves, place, split);
    }

    fn merge(&mut self, place: usize, merge: Merge) {
        merge_in(&mut self.leaves, place, merge);
    }

    fn replace(&mut self, place: usize, leaf: Box<Leaf>) {
        leaf.kept();
        replace_in(&mut self.leaves, place, leaf);
    }
}
