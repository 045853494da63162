//! Which leaves are tended first: what is large, which two may be joined, and the first of each, by a walk.
ghost use Rattle.std.specs.Prelude.{◌≡◌};
ghost use Rattle.dc_tree.specs.Choosing.{are_due, first_large, first_pair, is_due};
ghost use Rattle.dc_tree.specs.Lists.{leaves_in};
ghost use Rattle.dc_tree.specs.Parting.{are_few, is_many};

use dc_leaf::Leaf;

/// Whether a leaf that has so many records is large.
pub fn is_large(count: usize) -> bool
    ensures { result ≡ is_many count }
{
    count > 8
}

/// Whether two neighbours that have so many records may be joined.
pub fn may_join(left: usize, right: usize) -> bool
    ensures { result ≡ are_few left right }
{
    left < 3 && right <= 6 - left
}

/// The place of the first large leaf without an entry above the known end.
pub fn large_in(leaves: &[Box<Leaf>], known: u64) -> Option<usize>
    ensures { result ≡ first_large known (leaves_in leaves.now) }
{
    for place in 0..leaves.len() {
        if is_due(&leaves[place], known) {
            return Some(place);
        }
    }
    None
}

/// Whether the leaf is large and has no entry above the known end.
fn is_due(leaf: &Leaf, known: u64) -> bool
    ensures { result ≡ is_due known leaf.now }
{
    is_large(leaf.rows().len()) && leaf.is_within(known)
}

/// The place of the first leaf that may be joined with the one after it, neither with an entry above the known end.
pub fn pair_in(leaves: &[Box<Leaf>], known: u64) -> Option<usize>
    ensures { result ≡ first_pair known (leaves_in leaves.now) }
{
    for next in 1..leaves.len() {
        if are_due(&leaves[next - 1], &leaves[next], known) {
            return Some(next - 1);
        }
    }
    None
}

/// Whether two neighbours may be joined and have no entry above the known end.
fn are_due(left: &Leaf, right: &Leaf, known: u64) -> bool
    ensures { result ≡ are_due known left.now right.now }
{
    may_join(left.rows().len(), right.rows().len())
        && left.is_within(known)
        && right.is_within(known)
}
