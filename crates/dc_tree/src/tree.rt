//! Leaves in a tree.
ghost use Rattle.std.specs.Prelude.{◌≡◌};

mod blocks;
mod building;
mod changing;
mod children;
mod choosing;
mod finding;
mod growing;
mod node;
mod scanning;
mod shrinking;
mod summary;

use crate::leaf_set::LeafSet;
use crate::parting::{Merge, Split};
use building::{build, make_blocks};
use dc_leaf::{AnswerSink, Done, Leaf, RowSink};
use growing::insert_in;
use node::Node;
use record_key::{Key, OpRef, Refusal, ValueRef};
use shrinking::remove_in;
use std::alloc::Global;
use std::marker::Model;

/// Leaves in a tree. Inner nodes have two to eight children, and all leaves lie at one depth.
#[derive(Drop)]
pub struct Tree {
    alloc: Global,
    root: Node,
    /// Blocks for the nodes that the next splits make.
    spare: Vec<Vec<Node>>,
}

impl Model for Tree {
    ghost use Rattle.std.specs.Prelude.{◌-◌, ◌^◌, length, min, vec_len};
    ghost use Rattle.std.specs.Coded.{codes};
    ghost use Rattle.record_key.specs.Table.{table_code};
    ghost use Rattle.dc_tree.specs.Leaves.{AreLeaves};
    ghost use Rattle.dc_tree.specs.Lists.{ListView};
    ghost use Rattle.dc_tree.specs.Nodes.{AreSpare, IsWhole};

    ghost Value = { ListView };

    ghost coded = { Prim.hlevel (codes, table_code) };

    ghost view = { λ t. record {
      leaves = t.root.leaves;
      room = min (vec_len t.spare - t.root.height) (2 ^ 64 - 1 - length t.root.leaves);
    } };

    ghost invariant = { λ t. AreLeaves t.root.leaves × IsWhole t.root × AreSpare t.spare.items };
}

impl LeafSet for Tree {
    ghost leaves = { λ tree. tree.leaves };

    ghost room = { λ tree. tree.room };

    fn from_leaves(alloc: Global, boxes: Vec<Box<Leaf>>) -> Result<Tree, Refusal> {
        let (root, spare) = build(alloc, boxes)?;
        Ok(Tree { alloc, root, spare })
    }

    fn allocator(&self) -> Global {
        self.alloc
    }

    fn kept(&self) {
        let _count = self.root.count();
    }

    fn len(&self) -> usize {
        self.root.count()
    }

    fn leaf(&self, place: usize) -> &Leaf {
        self.root.leaf(place)
    }

    fn place_of(&self, key: &Key) -> usize {
        self.root.place_of(key)
    }

    fn perform<S: AnswerSink>(
        &mut self,
        number: u64,
        op: &OpRef<'_>,
        asker: u64,
        sink: &mut S,
    ) -> Result<Done, Refusal> {
        self.root.perform(number, op, asker, sink)
    }

    fn get(&self, key: &Key) -> Option<ValueRef<'_>> {
        self.root.leaf_of(key).get(key)
    }

    fn scan<S: RowSink>(
        &self,
        low: &Key,
        high: Option<&Key>,
        found: &mut S,
    ) -> Result<(), Refusal> {
        self.root.scan_from(low, high, found)?;
        Ok(())
    }

    fn first_large(&self, known: u64) -> Option<usize> {
        self.root.first_large(known)
    }

    fn first_pair(&self, known: u64) -> Option<usize> {
        self.root.first_pair(known)
    }

    fn raise(&mut self, low: u64) {
        self.root.raise(low);
    }

    fn make_room(&mut self) -> Result<(), Refusal> {
        make_blocks(self.alloc, &self.root, &mut self.spare)
    }

    fn split(&mut self, place: usize, split: Split) {
        self.root.drop_from(place, &split.cut, split.right.last());
        insert_in(
            self.alloc,
            &mut self.root,
            place,
            split.right,
            &mut self.spare,
        );
    }

    fn merge(&mut self, place: usize, merge: Merge) {
        self.root.put(place, merge.merged);
        remove_in(self.alloc, &mut self.root, place + 1);
    }

    fn replace(&mut self, place: usize, leaf: Box<Leaf>) {
        leaf.kept();
        self.root.put(place, leaf);
    }
}
