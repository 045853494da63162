//! What holds the leaves, seen as their list in key order.
ghost use Rattle.std.specs.Prelude.{◌≡◌, ℕ, ◌+◌, ◌<◌, true, List, [], ◌∷◌, ◌++◌, length, map, get_or, set};
ghost use Rattle.std.specs.Prelude.{OnOk, OnErr, IfOk, IsOk, IsOkUnless};
ghost use Rattle.std.specs.Option.{option_copied};
ghost use Rattle.std.specs.FinMap as table;
ghost use Rattle.record_key.specs.Lent.{op_lent};
ghost use Rattle.record_key.specs.Table.{key_of};
ghost use Rattle.dc_ab_lsn.specs.AbLsn.{captures};
ghost use Rattle.record_key.specs.Order.{rows_in};
ghost use Rattle.dc_leaf.specs.Leaf.{LeafView, first, raised_to};
ghost use Rattle.dc_tree.specs.Choosing.{first_large, first_pair};
ghost use Rattle.dc_tree.specs.Leaves.{AreLeaves, leaf_at, place_at, rows_of};
ghost use Rattle.dc_tree.specs.Parting.{may_split_at, may_merge_at, split_at, merged_at, IsSplitOf, IsMergeOf};
ghost use Rattle.dc_tree.specs.Performs.{PerformsAt};

use crate::parting::{Merge, Split};
use dc_leaf::{AnswerSink, Done, Leaf, RowSink};
use record_key::{Key, OpRef, Refusal, ValueRef};
use std::alloc::Global;

/// Leaves in key order, which have all keys among them. A place counts them from 0.
pub trait LeafSet {
    /// The leaves.
    ghost leaves: { Self → List LeafView };

    /// For how many more leaves there is room.
    ghost room: { Self → ℕ };

    /// These leaves, which are in key order. Refused NoMemory.
    fn from_leaves(alloc: Global, boxes: Vec<Box<Leaf>>) -> Result<Self, Refusal>
        requires { AreLeaves (map (λ leaf. leaf.value) boxes.items) }
        ensures these { IfOk result (λ set. leaves set ≡ map (λ leaf. leaf.value) boxes.items) }
        ensures memory { IsOkUnless result Refusal.NoMemory };

    /// What serves their memory.
    fn allocator(&self) -> Global;

    /// What holds of them at every moment.
    fn kept(&self)
        ensures { AreLeaves (leaves self.now) };

    /// How many leaves there are.
    fn len(&self) -> usize
        ensures count { result ≡ length (leaves self.now) }
        ensures some { 0 < result };

    /// The leaf at a place.
    fn leaf(&self, place: usize) -> &Leaf
        requires { place < length (leaves self.now) }
        ensures { result.now ≡ get_or (leaves self.now) place first };

    /// The place of the leaf that has the key.
    fn place_of(&self, key: &Key) -> usize
        ensures place { result ≡ place_at (leaves self.now) key.now }
        ensures within { result < length (leaves self.now) };

    /// Performs the operation under this number at the leaf of its key, or finds that it had been performed under it
    /// before; its answer then goes to the asker again, if that is still kept. Refused NoMemory, and unchanged then; a
    /// repeated number takes no memory.
    fn perform<S: AnswerSink>(
        &mut self,
        number: u64,
        op: &OpRef<'_>,
        asker: u64,
        sink: &mut S,
    ) -> Result<Done, Refusal>
        requires may { S.may_take sink.old asker number }
        ensures done { IfOk result (λ done.
            PerformsAt (leaves self.old) number (op_lent op.now) done (S.told sink.new) (leaves self.new)) }
        ensures given { OnOk result (S.takes sink.old asker number (S.told sink.new) sink.new) }
        ensures repeated { captures (leaf_at (leaves self.old) (key_of (op_lent op.now))).ab number ≡ true
            → IsOk result }
        ensures refused { OnErr result (leaves self.new ≡ leaves self.old) }
        ensures kept { OnErr result (sink.new ≡ sink.old) }
        ensures memory { IsOkUnless result Refusal.NoMemory };

    /// The value at the key. Takes no memory.
    fn get(&self, key: &Key) -> Option<ValueRef<'_>>
        ensures { result ≡ table.get (leaf_at (leaves self.now) key.now).rows key.now };

    /// Puts copies of the records from `low` on, below `high` where there is one, at the end of `found`. Refused NoMemory;
    /// some of them may stand there then.
    fn scan<S: RowSink>(&self, low: &Key, high: Option<&Key>, found: &mut S) -> Result<(), Refusal>
        ensures found { OnOk result (S.rows found.new ≡ S.rows found.old
            ++ rows_in (record { lo = low.now; hi = option_copied high.entry })
            (rows_of (leaves self.now))) }
        ensures memory { IsOkUnless result Refusal.NoMemory };

    /// The place of the first large leaf without an entry above the known end. Takes no memory.
    fn first_large(&self, known: u64) -> Option<usize>
        ensures { result ≡ first_large known (leaves self.now) };

    /// The place of the first leaf that may be joined with the one after it, neither with an entry above the known end.
    /// Takes no memory.
    fn first_pair(&self, known: u64) -> Option<usize>
        ensures { result ≡ first_pair known (leaves self.now) };

    /// Counts every request up to this number as performed at each leaf. Takes no memory.
    fn raise(&mut self, low: u64)
        ensures raised { leaves self.new ≡ map (λ leaf. raised_to leaf low) (leaves self.old) };

    /// Makes room for one leaf more. Refused NoMemory.
    fn make_room(&mut self) -> Result<(), Refusal>
        ensures room { OnOk result (0 < room self.new) }
        ensures unchanged { leaves self.new ≡ leaves self.old }
        ensures memory { IsOkUnless result Refusal.NoMemory };

    /// Parts the leaf at a place and puts its other half beside it. There is room. Takes no memory.
    fn split(&mut self, place: usize, split: Split)
        requires may { may_split_at (leaves self.old) place ≡ true }
        requires half { IsSplitOf (get_or (leaves self.old) place first)
            split.right.value.id split.right.value.last split }
        requires room { 0 < room self.old }
        ensures { leaves self.new
            ≡ split_at place split.right.value.id split.right.value.last (leaves self.old) };

    /// Puts the leaf of both in the place of a leaf and the one after it. Takes no memory.
    fn merge(&mut self, place: usize, merge: Merge)
        requires may { may_merge_at (leaves self.old) place ≡ true }
        requires both { IsMergeOf (get_or (leaves self.old) place first) (get_or (leaves self.old) (place + 1) first)
            merge.merged.value.last merge }
        ensures { leaves self.new ≡ merged_at place merge.merged.value.last (leaves self.old) };

    /// Puts a leaf with the same fences in the place of another. Takes no memory.
    fn replace(&mut self, place: usize, leaf: Box<Leaf>)
        requires there { place < length (leaves self.old) }
        requires low { leaf.value.low_fence ≡ (get_or (leaves self.old) place first).low_fence }
        requires high { leaf.value.high_fence ≡ (get_or (leaves self.old) place first).high_fence }
        ensures { leaves self.new ≡ set (leaves self.old) place leaf.value };
}

/// The leaves of a new tree: the first leaf alone. Refused NoMemory.
pub fn one_leaf<L: LeafSet>(alloc: Global) -> Result<L, Refusal>
    ensures first { IfOk result (λ set. L.leaves set ≡ first ∷ []) }
    ensures memory { IsOkUnless result Refusal.NoMemory }
{
    let mut boxes = Vec::new(alloc);
    boxes.push(Box::new(alloc, Leaf::first(alloc))?)?;
    L::from_leaves(alloc, boxes)
}
