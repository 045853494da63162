//! A node of the tree: a leaf, or a block of nodes that all lie at one depth.
ghost use Rattle.std.specs.Prelude.{◌≡◌, ◌<◌, ◌≤◌, ◌^◌, true, [], length};
ghost use Rattle.std.specs.Option.{option_copied};
ghost use Rattle.std.specs.Vec.{vec_capacity};
ghost use Rattle.record_key.specs.Order.{starts_at_most};
ghost use Rattle.dc_tree.specs.Choosing.{summary_of};
ghost use Rattle.dc_tree.specs.Nodes.{AreChildren, height_in, low_of, over_leaf, over_nodes, under};

use super::children::{count_in, low_in, summary_in};
use super::summary::Summary;
use dc_leaf::Leaf;
use record_key::Key;
use std::alloc::Global;
use std::marker::Model;

/// How many children a node has at most.
pub const MOST: usize = 8;

/// A node, with what its parent has to know of it, so that a descent reads no node beside its path.
#[cycle(node)]
#[derive(Drop)]
pub struct Node {
    /// Where the first leaf begins.
    pub(super) low: Option<Key>,
    /// How many leaves there are.
    pub(super) count: usize,
    /// What decides which of them are tended first.
    pub(super) summary: Summary,
    pub(super) below: Below,
}

/// What is below a node.
#[cycle(node)]
#[derive(Drop)]
pub(super) enum Below {
    Leaf(Box<Leaf>),
    Inner(Vec<Node>),
}

impl Model for Node {
    ghost use Rattle.std.specs.Coded.{codes};
    ghost use Rattle.record_key.specs.Table.{table_code};
    ghost use Rattle.dc_tree.specs.Nodes.{TreeNodeView};

    ghost Value = { TreeNodeView };

    ghost coded = { Prim.hlevel (codes, table_code) };

    ghost use Rattle.dc_tree.specs.Below.{seen, IsNode};

    ghost view = { λ n. seen n.below };

    ghost invariant = { λ n. IsNode n.low n.count n.summary n.below };

    ghost size = { λ n. n.height };

    ghost use Rattle.dc_tree.specs.Falls.{children_lower};

    ghost size_decreases = { λ n kept. children_lower n.low n.count n.summary n.below kept };
}

impl Node {
    pub fn of_leaf(leaf: Box<Leaf>) -> Node
        ensures { result ≡ over_leaf leaf.value }
    {
        Node {
            low: leaf.low_fence().map(|fence| fence.copied()),
            count: 1,
            summary: Summary::of_leaf(&leaf),
            below: Below::Leaf(leaf),
        }
    }

    /// A node over these, in a block that has room for one more than a node may have.
    pub fn over(children: Vec<Node>) -> Node
        requires children { AreChildren (height_in children.items) children.items }
        requires most { length children.items ≤ 8 }
        requires room { 8 < vec_capacity children }
        requires counted { length (under children.items) < 2 ^ 64 }
        ensures { result ≡ over_nodes children.items }
    {
        Node {
            low: low_in(children.as_slice()),
            count: count_in(children.as_slice()),
            summary: summary_in(children.as_slice()),
            below: Below::Inner(children),
        }
    }

    /// A node with nothing below it, in no tree.
    pub fn nothing(alloc: Global) -> Node
        ensures { result ≡ over_nodes [] }
    {
        Node {
            low: None,
            count: 0,
            summary: Summary::nothing(),
            below: Below::Inner(Vec::new(alloc)),
        }
    }

    pub fn low(&self) -> Option<&Key>
        ensures { option_copied result ≡ low_of self.now.leaves }
    {
        self.low.as_ref()
    }

    /// How many leaves are below it.
    pub fn count(&self) -> usize
        ensures { result ≡ length self.now.leaves }
    {
        self.count
    }

    pub fn summary(&self) -> Summary
        ensures { result ≡ summary_of self.now.leaves }
    {
        self.summary
    }

    /// How many children it has.
    pub fn kids(&self) -> usize
        ensures { result ≡ self.now.kids }
    {
        match &self.below {
            Below::Leaf(_) => 0,
            Below::Inner(children) => children.len(),
        }
    }

    /// Whether it begins at the key or below.
    pub fn begins_at_most(&self, key: &Key) -> bool
        ensures { result ≡ starts_at_most (low_of self.now.leaves) key.now }
    {
        match self.low() {
            Some(fence) => !key.cmp(fence).is_lt(),
            None => true,
        }
    }
}
