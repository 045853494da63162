//! Splits and merges of any leaves: what is put among them is made first, and then they change.
ghost use Rattle.std.specs.Prelude.{◌≡◌, ◌+◌, ◌<◌, ◌^◌, true, get_or, OnOk, OnErr, IfOk, IfErr};
ghost use Rattle.record_key.specs.FirstCause.{RefusesAs};
ghost use Rattle.dc_leaf.specs.Leaf.{first};
ghost use Rattle.dc_tree.specs.Leaves.{place_at};
ghost use Rattle.dc_tree.specs.Parting.{may_split_at, may_merge_at, unless_may, split_at, merged_at};
ghost use Rattle.dc_tree.specs.Parting.{IsSplitOf, IsMergeOf};

use crate::choosing::may_join;
use crate::leaf_set::LeafSet;
use crate::parting::{Merge, Split};
use record_key::{Key, Refusal};

/// The half that a split of the leaf at a place puts beside it, as a leaf of this number that system transaction
/// `number` made. Refused NotNow where it has fewer than two records, or NoMemory.
pub fn plan_split<L: LeafSet>(
    leaves: &L,
    place: usize,
    id: u64,
    number: u64,
) -> Result<Split, Refusal>
    ensures may { OnOk result (may_split_at (L.leaves leaves.now) place ≡ true) }
    ensures half { IfOk result (IsSplitOf (get_or (L.leaves leaves.now) place first) id number) }
    ensures refused { IfErr result (RefusesAs (unless_may (may_split_at (L.leaves leaves.now) place))) }
{
    if !may_split(leaves, place) {
        return Err(Refusal::NotNow);
    }
    let leaf = leaves.leaf(place);
    let rows = leaf.rows();
    let cut = rows.key(rows.len() / 2);
    let right = Box::new(leaves.allocator(), leaf.upper(&cut, id, number)?)?;
    Ok(Split {
        left: leaf.id(),
        cut,
        right,
    })
}

/// Whether the leaf at a place may be split.
pub fn may_split<L: LeafSet>(leaves: &L, place: usize) -> bool
    ensures { result ≡ may_split_at (L.leaves leaves.now) place }
{
    place < leaves.len() && leaves.leaf(place).rows().len() >= 2
}

/// The leaf that a merge puts in the place of the leaf at a place and the one after it, made by system transaction
/// `number`. Refused NotNow where the two may not be joined, or NoMemory.
pub fn plan_merge<L: LeafSet>(leaves: &L, place: usize, number: u64) -> Result<Merge, Refusal>
    ensures may { OnOk result (may_merge_at (L.leaves leaves.now) place ≡ true) }
    ensures both { IfOk result (IsMergeOf (get_or (L.leaves leaves.now) place first)
        (get_or (L.leaves leaves.now) (place + 1) first) number) }
    ensures refused { IfErr result (RefusesAs (unless_may (may_merge_at (L.leaves leaves.now) place))) }
{
    if !may_merge(leaves, place) {
        return Err(Refusal::NotNow);
    }
    leaves.kept();
    let left = leaves.leaf(place);
    let right = leaves.leaf(place + 1);
    let merged = Box::new(leaves.allocator(), left.join(right, number)?)?;
    Ok(Merge {
        right: right.id(),
        merged,
    })
}

/// Whether the leaf at a place may be joined with the one after it.
pub fn may_merge<L: LeafSet>(leaves: &L, place: usize) -> bool
    ensures may { result ≡ may_merge_at (L.leaves leaves.now) place }
    ensures next { result ≡ true → place + 1 < 2 ^ 64 }
{
    if place >= leaves.len() - 1 {
        return false;
    }
    let left = leaves.leaf(place).rows().len();
    let right = leaves.leaf(place + 1).rows().len();
    may_join(left, right)
}

/// Splits the leaf that has the key in its middle: the new right leaf has this number, and system transaction
/// `number` does it. Refused NotNow where it has fewer than two records, or NoMemory, and unchanged then.
pub fn split_at<L: LeafSet>(leaves: &mut L, key: &Key, id: u64, number: u64) -> Result<(), Refusal>
    ensures split { OnOk result (L.leaves leaves.new
        ≡ split_at (place_at (L.leaves leaves.old) key.now) id number (L.leaves leaves.old)) }
    ensures may { OnOk result (may_split_at (L.leaves leaves.old) (place_at (L.leaves leaves.old) key.now) ≡ true) }
    ensures unchanged { OnErr result (L.leaves leaves.new ≡ L.leaves leaves.old) }
    ensures refused { IfErr result (RefusesAs (unless_may
        (may_split_at (L.leaves leaves.old) (place_at (L.leaves leaves.old) key.now)))) }
{
    let place = leaves.place_of(key);
    let split = plan_split(leaves, place, id, number)?;
    leaves.make_room()?;
    leaves.split(place, split);
    Ok(())
}

/// Joins the leaf that has the key with the one after it; system transaction `number` does it. Refused NotNow where
/// the two may not be joined, or NoMemory, and unchanged then.
pub fn merge_at<L: LeafSet>(leaves: &mut L, key: &Key, number: u64) -> Result<(), Refusal>
    ensures merged { OnOk result (L.leaves leaves.new
        ≡ merged_at (place_at (L.leaves leaves.old) key.now) number (L.leaves leaves.old)) }
    ensures may { OnOk result (may_merge_at (L.leaves leaves.old) (place_at (L.leaves leaves.old) key.now) ≡ true) }
    ensures unchanged { OnErr result (L.leaves leaves.new ≡ L.leaves leaves.old) }
    ensures refused { IfErr result (RefusesAs (unless_may
        (may_merge_at (L.leaves leaves.old) (place_at (L.leaves leaves.old) key.now)))) }
{
    let place = leaves.place_of(key);
    let merge = plan_merge(leaves, place, number)?;
    leaves.merge(place, merge);
    Ok(())
}
