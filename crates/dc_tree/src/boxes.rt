//! Leaves in boxes, in key order: the leaf of a key, what is done there, and leaves that are put among them.
ghost use Rattle.std.specs.Prelude.{◌≡◌, ◌+◌, ◌<◌, true, not, length, map, get_or, set, vec_len};
ghost use Rattle.std.specs.Prelude.{OnOk, OnErr, IfOk, IfErr, IsOk, IsOkUnless};
ghost use Rattle.std.specs.Vec.{vec_capacity};
ghost use Rattle.record_key.specs.Lent.{op_lent};
ghost use Rattle.record_key.specs.Table.{key_of};
ghost use Rattle.record_key.specs.Order.{ends_above};
ghost use Rattle.dc_ab_lsn.specs.AbLsn.{captures};
ghost use Rattle.dc_leaf.specs.Leaf.{first, raised_to};
ghost use Rattle.dc_tree.specs.Leaves.{AreLeaves, leaf_at, place_at};
ghost use Rattle.dc_tree.specs.Lists.{leaves_in};
ghost use Rattle.dc_tree.specs.Parting.{may_split_at, may_merge_at, split_at, merged_at, IsSplitOf, IsMergeOf};
ghost use Rattle.dc_tree.specs.Performs.{PerformsAt};

use crate::parting::{Merge, Split};
use dc_leaf::{AnswerSink, Done, Leaf};
use record_key::{Key, OpRef, Refusal};

/// The place of the leaf that has the key.
pub fn place_in(leaves: &[Box<Leaf>], key: &Key) -> usize
    requires { AreLeaves (leaves_in leaves.now) }
    ensures place { result ≡ place_at (leaves_in leaves.now) key.now }
    ensures within { result < length leaves.now }
{
    leaves.partition_point(|leaf| ends_at_most(leaf, key))
}

/// Whether all keys of the leaf are below this one.
fn ends_at_most(leaf: &Leaf, key: &Key) -> bool
    ensures { result ≡ not (ends_above leaf.now.high_fence key.now) }
{
    match leaf.high_fence() {
        Some(fence) => !key.cmp(fence).is_lt(),
        None => false,
    }
}

/// Performs the operation at the leaf of its key.
pub fn perform_in<S: AnswerSink>(
    leaves: &mut Vec<Box<Leaf>>,
    number: u64,
    op: &OpRef<'_>,
    asker: u64,
    sink: &mut S,
) -> Result<Done, Refusal>
    requires leaves { AreLeaves (leaves_in leaves.old.items) }
    requires may { S.may_take sink.old asker number }
    ensures done { IfOk result (λ done. PerformsAt (leaves_in leaves.old.items) number (op_lent op.now) done
        (S.told sink.new) (leaves_in leaves.new.items)) }
    ensures given { OnOk result (S.takes sink.old asker number (S.told sink.new) sink.new) }
    ensures repeated { captures (leaf_at (leaves_in leaves.old.items) (key_of (op_lent op.now))).ab number ≡ true
        → IsOk result }
    ensures refused { OnErr result (leaves_in leaves.new.items ≡ leaves_in leaves.old.items) }
    ensures kept { OnErr result (sink.new ≡ sink.old) }
    ensures memory { IsOkUnless result Refusal.NoMemory }
{
    let place = place_in(leaves.as_slice(), op.key());
    let done = leaves[place].perform(number, op, asker, sink)?;
    Ok(done)
}

/// Counts every request up to this number as performed at each leaf. Takes no memory.
pub fn raise_in(leaves: &mut Vec<Box<Leaf>>, low: u64)
    ensures { leaves_in leaves.new.items ≡ map (λ leaf. raised_to leaf low) (leaves_in leaves.old.items) }
{
    for place in 0..leaves.len() {
        leaves[place].raise(low);
    }
}

/// Parts the leaf at a place and puts its other half beside it. Takes no memory.
pub fn split_in(leaves: &mut Vec<Box<Leaf>>, place: usize, split: Split)
    requires may { may_split_at (leaves_in leaves.old.items) place ≡ true }
    requires half { IsSplitOf (get_or (leaves_in leaves.old.items) place first)
        split.right.value.id split.right.value.last split }
    requires room { vec_len leaves.old < vec_capacity leaves.old }
    ensures { leaves_in leaves.new.items
        ≡ split_at place split.right.value.id split.right.value.last (leaves_in leaves.old.items) }
{
    leaves[place].drop_from(&split.cut, split.right.last());
    match leaves.insert(place + 1, split.right) {
        Ok(()) => {}
        Err(_) => unreachable!(),
    }
}

/// Puts the leaf of both in the place of a leaf and the one after it. Takes no memory.
pub fn merge_in(leaves: &mut Vec<Box<Leaf>>, place: usize, merge: Merge)
    requires may { may_merge_at (leaves_in leaves.old.items) place ≡ true }
    requires both { IsMergeOf (get_or (leaves_in leaves.old.items) place first)
        (get_or (leaves_in leaves.old.items) (place + 1) first) merge.merged.value.last merge }
    ensures { leaves_in leaves.new.items ≡ merged_at place merge.merged.value.last (leaves_in leaves.old.items) }
{
    leaves[place] = merge.merged;
    leaves.remove(place + 1);
}

/// Puts a leaf in the place of another. Takes no memory.
pub fn replace_in(leaves: &mut Vec<Box<Leaf>>, place: usize, leaf: Box<Leaf>)
    requires { place < length (leaves_in leaves.old.items) }
    ensures { leaves_in leaves.new.items ≡ set (leaves_in leaves.old.items) place leaf.value }
{
    leaves[place] = leaf;
}
