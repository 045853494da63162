//! What a node keeps of the leaves below it, so that the leaf that is tended first is found by one descent.
ghost use Rattle.std.specs.Prelude.{◌≡◌, false, [], ◌∷◌};
ghost use Rattle.dc_tree.specs.Choosing.{both_of, extent_of, is_quiet, is_reached, large_top, least, no_extent, pair_top, summary_of};

use crate::choosing::{is_large, may_join};
use dc_leaf::Leaf;

/// What of a leaf decides whether it is tended.
#[derive(Clone, Copy, PartialEq, Eq)]
pub struct Extent {
    /// How many records it has.
    pub count: usize,
    /// Its top entry.
    pub top: u64,
}

/// What tells for every known end whether leaves are to be tended, and decides it where others stand beside them.
#[derive(Clone, Copy, PartialEq, Eq)]
pub struct Summary {
    /// The least top entry of a large leaf.
    pub large: Option<u64>,
    /// The least of two neighbours that may be joined, by the greater of theirs.
    pub pair: Option<u64>,
    pub first: Extent,
    pub last: Extent,
}

impl Extent {
    fn nothing() -> Extent
        ensures { result ≡ no_extent }
    {
        Extent { count: 0, top: 0 }
    }

    fn of_leaf(leaf: &Leaf) -> Extent
        ensures { result ≡ extent_of leaf.now }
    {
        Extent {
            count: leaf.rows().len(),
            top: leaf.top(),
        }
    }

    /// The top entry, where the leaf is large.
    fn large_top(self) -> Option<u64>
        ensures { result ≡ large_top self }
    {
        if is_large(self.count) {
            Some(self.top)
        } else {
            None
        }
    }

    /// The greater top entry, where the leaf may be joined with the one after it.
    pub fn pair_top(self, right: Extent) -> Option<u64>
        ensures { result ≡ pair_top self right }
    {
        if may_join(self.count, right.count) {
            Some(self.top.max(right.top))
        } else {
            None
        }
    }
}

impl Summary {
    /// That of no leaves.
    pub fn nothing() -> Summary
        ensures { result ≡ summary_of [] }
    {
        Summary {
            large: None,
            pair: None,
            first: Extent::nothing(),
            last: Extent::nothing(),
        }
    }

    /// That of one leaf.
    pub fn of_leaf(leaf: &Leaf) -> Summary
        ensures { result ≡ summary_of (leaf.now ∷ []) }
    {
        let extent = Extent::of_leaf(leaf);
        Summary {
            large: extent.large_top(),
            pair: None,
            first: extent,
            last: extent,
        }
    }

    /// That of leaves with others after them.
    pub fn before(self, after: Summary) -> Summary
        ensures { result ≡ both_of self after }
    {
        let between = self.last.pair_top(after.first);
        Summary {
            large: least(self.large, after.large),
            pair: least(self.pair, least(between, after.pair)),
            first: self.first,
            last: after.last,
        }
    }

    /// Whether no leaf is large and no two may be joined.
    pub fn is_quiet(&self) -> bool
        ensures { result ≡ is_quiet self.now }
    {
        self.large.is_none() && self.pair.is_none()
    }

    /// Puts another in its place. Whether it is not the same.
    pub fn renew(&mut self, other: Summary) -> bool
        ensures other { self.new ≡ other }
        ensures same { result ≡ false → other ≡ self.old }
    {
        let differs = *self != other;
        *self = other;
        differs
    }

    /// Puts other ends in the place of its own. Whether they are not the same.
    pub fn renew_ends(&mut self, first: Extent, last: Extent) -> bool
        ensures ends { self.new ≡ record self.old { first = first; last = last } }
        ensures same { result ≡ false → self.new ≡ self.old }
    {
        let differs = self.first != first || self.last != last;
        self.first = first;
        self.last = last;
        differs
    }
}

/// The lesser of two numbers, each of which may be missing.
fn least(one: Option<u64>, other: Option<u64>) -> Option<u64>
    ensures { result ≡ least one other }
{
    match (one, other) {
        (Some(one), Some(other)) => Some(one.min(other)),
        (Some(one), None) => Some(one),
        (None, other) => other,
    }
}

/// Whether there is such a number, and it is at most the known end.
pub fn is_reached(least: Option<u64>, known: u64) -> bool
    ensures { result ≡ is_reached known least }
{
    match least {
        Some(top) => top <= known,
        None => false,
    }
}
