//! Leaves in key order, and whether they have all keys among them.
ghost use Rattle.std.specs.Prelude.{◌≡◌, ◌&&◌, Bool, List, true, false, not, None, length, IfOk, IfErr, OnErr};
ghost use Rattle.std.specs.Option.{option_copied};
ghost use Rattle.dc_leaf.specs.Leaf.{LeafView};
ghost use Rattle.dc_tree.specs.Lists.{leaves_in};
ghost use Rattle.dc_store.specs.Arranging.{is_same_fence, ends_after, tiles_on, HaveOwnNumbers, IsArrangement};

use dc_leaf::Leaf;
use record_key::{Key, Refusal};

/// The leaves, of which no two have one number, in key order. Refused BadBytes at 0 where in no order they have all
/// keys among them, just once.
pub(crate) fn arrange(mut leaves: Vec<Box<Leaf>>) -> Result<Vec<Box<Leaf>>, Refusal>
    requires { HaveOwnNumbers (leaves_in leaves.items) }
    ensures arranged { IfOk result (λ row. IsArrangement (leaves_in leaves.items) (leaves_in row.items)) }
    ensures none { OnErr result ((row : List LeafView) → IsArrangement (leaves_in leaves.items) row → ⊥) }
    ensures refused { IfErr result (λ refusal. refusal ≡ Refusal.BadBytes 0) }
{
    leaves.sort_unstable_by_key(|leaf| low_fence_of(leaf));
    if have_all_keys(leaves.as_slice()) {
        Ok(leaves)
    } else {
        Err(Refusal::BadBytes(0))
    }
}

fn low_fence_of(leaf: &Leaf) -> Option<Key>
    ensures { result ≡ leaf.now.low_fence }
{
    match leaf.low_fence() {
        Some(fence) => Some(fence.copied()),
        None => None,
    }
}

/// Whether each begins where the one before it ends, the first without a fence, and the last ends without one.
fn have_all_keys(leaves: &[Box<Leaf>]) -> bool
    ensures { result ≡ tiles_on true None (leaves_in leaves.now) }
{
    let mut left = true;
    let mut from = None;
    for leaf in leaves {
        if !left || !begins_at(leaf, from) {
            return false;
        }
        from = leaf.high_fence();
        left = from.is_some();
    }
    !left
}

/// Whether the leaf begins at this fence, and ends above it.
fn begins_at(leaf: &Leaf, from: Option<&Key>) -> bool
    ensures { result ≡ (is_same_fence (option_copied from.entry) leaf.now.low_fence
        && ends_after leaf.now.low_fence leaf.now.high_fence) }
{
    is_same(from, leaf.low_fence()) && ends_above(leaf.low_fence(), leaf.high_fence())
}

fn is_same(fence: Option<&Key>, other: Option<&Key>) -> bool
    ensures { result ≡ is_same_fence (option_copied fence.entry) (option_copied other.entry) }
{
    match (fence, other) {
        (None, None) => true,
        (Some(fence), Some(other)) => fence.cmp(other).is_eq(),
        _ => false,
    }
}

fn ends_above(low: Option<&Key>, high: Option<&Key>) -> bool
    ensures { result ≡ ends_after (option_copied low.entry) (option_copied high.entry) }
{
    match (low, high) {
        (Some(low), Some(high)) => low.cmp(high).is_lt(),
        _ => true,
    }
}
