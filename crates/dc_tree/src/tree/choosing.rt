//! The leaves that are tended first, found by one descent.
ghost use Rattle.std.specs.Prelude.{◌≡◌, ◌<◌, ◌^◌, true, Some, is_some, length};
ghost use Rattle.dc_tree.specs.Choosing.{extent_first, extent_last, first_large, first_pair, is_reached, pair_top};
ghost use Rattle.dc_tree.specs.Nodes.{AreChildren, height_in, under};
ghost use Rattle.dc_tree.specs.Finding.{IsLargeIn, IsPairIn};

use super::node::{Below, Node};
use super::summary::is_reached;

impl Node {
    /// The place of the first large leaf without an entry above the known end.
    pub fn first_large(&self, known: u64) -> Option<usize>
        ensures { result ≡ first_large known self.now.leaves }
    {
        if self.has_large(known) {
            Some(self.large_place(known))
        } else {
            None
        }
    }

    fn has_large(&self, known: u64) -> bool
        ensures { result ≡ is_some (first_large known self.now.leaves) }
    {
        is_reached(self.summary().large, known)
    }

    /// The place where there is one.
    fn large_place(&self, known: u64) -> usize
        requires { is_some (first_large known self.now.leaves) ≡ true }
        ensures { first_large known self.now.leaves ≡ Some result }
    {
        match &self.below {
            Below::Leaf(_) => 0,
            Below::Inner(children) => {
                let (i, before) = large_in(children.as_slice(), known);
                before + children[i].large_place(known)
            }
        }
    }

    /// The place of the first leaf that may be joined with the one after it, neither with an entry above the known end.
    pub fn first_pair(&self, known: u64) -> Option<usize>
        ensures { result ≡ first_pair known self.now.leaves }
    {
        if self.has_pair(known) {
            Some(self.pair_place(known))
        } else {
            None
        }
    }

    fn has_pair(&self, known: u64) -> bool
        ensures { result ≡ is_some (first_pair known self.now.leaves) }
    {
        is_reached(self.summary().pair, known)
    }

    /// The place where there is one.
    fn pair_place(&self, known: u64) -> usize
        requires { is_some (first_pair known self.now.leaves) ≡ true }
        ensures { first_pair known self.now.leaves ≡ Some result }
    {
        match &self.below {
            Below::Leaf(_) => unreachable!(),
            Below::Inner(children) => {
                let (i, before) = pair_in(children.as_slice(), known);
                let child = &children[i];
                if child.has_pair(known) {
                    before + child.pair_place(known)
                } else {
                    before + (child.count() - 1)
                }
            }
        }
    }
}

/// Whether the last leaf below a node and the first one below the next are such a pair.
fn meet(left: &Node, right: &Node, known: u64) -> bool
    ensures { result ≡ is_reached known (pair_top (extent_last left.now.leaves) (extent_first right.now.leaves)) }
{
    is_reached(left.summary().last.pair_top(right.summary().first), known)
}

/// The first node below which a leaf is large without an entry above the known end, and how many leaves lie before it.
fn large_in(nodes: &[Node], known: u64) -> (usize, usize)
    requires some { is_some (first_large known (under nodes.now)) ≡ true }
    requires counted { length (under nodes.now) < 2 ^ 64 }
    ensures { IsLargeIn known nodes.now result.0 result.1 }
{
    let mut i = 0;
    let mut before = 0;
    while !nodes[i].has_large(known) {
        before += nodes[i].count();
        i += 1;
    }
    (i, before)
}

/// The first node below which there is a pair, or its last leaf with the first one of the next, and how many leaves lie
/// before it.
fn pair_in(nodes: &[Node], known: u64) -> (usize, usize)
    requires children { AreChildren (height_in nodes.now) nodes.now }
    requires some { is_some (first_pair known (under nodes.now)) ≡ true }
    requires counted { length (under nodes.now) < 2 ^ 64 }
    ensures { IsPairIn known nodes.now result.0 result.1 }
{
    let mut i = 0;
    let mut before = 0;
    while !nodes[i].has_pair(known) && !meet(&nodes[i], &nodes[i + 1], known) {
        before += nodes[i].count();
        i += 1;
    }
    (i, before)
}
