//! A leaf taken out, and a node that is left with one child joined with a neighbour.
ghost use Rattle.std.specs.Prelude.{◌≡◌, ◌==◌, suc, ◌+◌, ◌<◌, ◌≤◌, ◌^◌, ◌++◌, drop, length, take, IfSome};
ghost use Rattle.std.specs.List.{insert, remove};
ghost use Rattle.std.specs.Option.{option_to_list};
ghost use Rattle.std.specs.Vec.{vec_capacity};
ghost use Rattle.dc_tree.specs.Below.{AreBelow};
ghost use Rattle.dc_tree.specs.Nodes.{AreChildren, height_in, IsChild, IsReduced, IsWhole, over_nodes, under};

use super::blocks::{divide, put_in};
use super::children::{count_in, low_in, node_at, summary_in};
use super::node::{Below, MOST, Node};
use std::alloc::Global;
use std::mem::replace;

impl Node {
    /// Whether it is a leaf.
    fn is_leaf(&self) -> bool
        ensures { result ≡ (self.now.height == 0) }
    {
        match &self.below {
            Below::Leaf(_) => true,
            Below::Inner(_) => false,
        }
    }

    /// The block of its children.
    fn opened(self) -> Vec<Node>
        requires { 0 < self.height }
        ensures seen { over_nodes result.items ≡ self }
        ensures below { AreBelow result }
    {
        match self.below {
            Below::Leaf(_) => unreachable!(),
            Below::Inner(children) => children,
        }
    }

    /// Takes the leaf at a place out. It may be left with one child.
    pub fn remove(&mut self, place: usize)
        requires whole { IsWhole self.old }
        requires inner { 0 < self.old.height }
        requires there { place < length self.old.leaves }
        ensures leaves { self.new.leaves ≡ remove self.old.leaves place }
        ensures reduced { IsReduced self.old.height self.new }
    {
        match &mut self.below {
            Below::Leaf(_) => unreachable!(),
            Below::Inner(children) => {
                let (i, rest) = node_at(children.as_slice(), place);
                let mut child = children.remove(i);
                if !child.is_leaf() {
                    child.remove(rest);
                    put_reduced(children, i, child);
                }
                self.low = low_in(children.as_slice());
                self.count = count_in(children.as_slice());
                self.summary = summary_in(children.as_slice());
            }
        }
    }

    /// Takes the children of a node after it. Of nine so many stay, and a node over the others is given.
    fn join(&mut self, right: Node, stays: usize) -> Option<Node>
        requires left { IsReduced self.old.height self.old }
        requires right { IsReduced self.old.height right }
        requires nine { self.old.kids + right.kids ≤ 9 }
        requires two { 2 < self.old.kids + right.kids }
        requires some { 2 ≤ stays }
        requires fewer { stays ≤ 7 }
        requires counted { length self.old.leaves + length right.leaves < 2 ^ 64 }
        ensures leaves { self.new.leaves ++ under (option_to_list result) ≡ self.old.leaves ++ right.leaves }
        ensures child { IsChild self.old.height self.new }
        ensures more { IfSome result (IsChild self.old.height) }
    {
        match &mut self.below {
            Below::Leaf(_) => unreachable!(),
            Below::Inner(children) => {
                let more = join_in(children, right.opened(), stays);
                self.low = low_in(children.as_slice());
                self.count = count_in(children.as_slice());
                self.summary = summary_in(children.as_slice());
                more
            }
        }
    }
}

/// Puts the nodes of another block after these. Of nine so many stay, and a node over the others is given.
fn join_in(children: &mut Vec<Node>, mut right: Vec<Node>, stays: usize) -> Option<Node>
    requires children { AreChildren (height_in children.old.items) children.old.items }
    requires right { AreChildren (height_in children.old.items) right.items }
    requires inner { 0 < length children.old.items }
    requires nine { length children.old.items + length right.items ≤ 9 }
    requires two { 2 < length children.old.items + length right.items }
    requires some { 2 ≤ stays }
    requires fewer { stays ≤ 7 }
    requires room { 8 < vec_capacity children.old }
    requires right_room { 8 < vec_capacity right }
    requires counted { length (under children.old.items) + length (under right.items) < 2 ^ 64 }
    ensures leaves { under children.new.items ++ under (option_to_list result)
        ≡ under children.old.items ++ under right.items }
    ensures children { AreChildren (height_in children.old.items) children.new.items }
    ensures two { 2 ≤ length children.new.items }
    ensures most { length children.new.items ≤ 8 }
    ensures room { 8 < vec_capacity children.new }
    ensures more { IfSome result (IsChild (suc (height_in children.old.items))) }
{
    match children.append(&mut right) {
        Ok(()) => {}
        Err(_) => unreachable!(),
    }
    if children.len() <= MOST {
        return None;
    }
    Some(divide(children, stays, right))
}

/// Puts a node among others. Left with one child, it is joined with a neighbour, or takes one child of eight.
fn put_reduced(children: &mut Vec<Node>, i: usize, node: Node)
    requires children { AreChildren node.height children.old.items }
    requires node { IsReduced node.height node }
    requires within { i ≤ length children.old.items }
    requires some { 0 < length children.old.items }
    requires fewer { length children.old.items ≤ 7 }
    requires room { 8 < vec_capacity children.old }
    requires counted { length (under children.old.items) + length node.leaves < 2 ^ 64 }
    ensures leaves { under children.new.items ≡ under (insert children.old.items i node) }
    ensures children { AreChildren node.height children.new.items }
    ensures some { 0 < length children.new.items }
    ensures most { length children.new.items ≤ 8 }
    ensures room { 8 < vec_capacity children.new }
{
    if node.kids() > 1 {
        put_in(children, i, node);
    } else {
        mend(children, i, node);
    }
}

/// Joins a node that has one child with the neighbour after it, or with the one before it where it is the last.
fn mend(children: &mut Vec<Node>, i: usize, node: Node)
    requires children { AreChildren node.height children.old.items }
    requires node { IsReduced node.height node }
    requires one { node.kids ≡ 1 }
    requires within { i ≤ length children.old.items }
    requires some { 0 < length children.old.items }
    requires fewer { length children.old.items ≤ 7 }
    requires room { 8 < vec_capacity children.old }
    requires counted { length (under children.old.items) + length node.leaves < 2 ^ 64 }
    ensures leaves { under children.new.items ≡ under (insert children.old.items i node) }
    ensures children { AreChildren node.height children.new.items }
    ensures some { 0 < length children.new.items }
    ensures most { length children.new.items ≤ 8 }
    ensures room { 8 < vec_capacity children.new }
{
    if i < children.len() {
        let right = children.remove(i);
        put_joined(children, i, node, right, 2);
    } else {
        let left = children.remove(i - 1);
        put_joined(children, i - 1, left, node, MOST - 1);
    }
}

/// Puts two nodes among others as one, or as two where they have nine children.
fn put_joined(children: &mut Vec<Node>, i: usize, mut left: Node, right: Node, stays: usize)
    requires children { AreChildren left.height children.old.items }
    requires left { IsReduced left.height left }
    requires right { IsReduced left.height right }
    requires nine { left.kids + right.kids ≤ 9 }
    requires two { 2 < left.kids + right.kids }
    requires some { 2 ≤ stays }
    requires fewer { stays ≤ 7 }
    requires within { i ≤ length children.old.items }
    requires six { length children.old.items ≤ 6 }
    requires room { 8 < vec_capacity children.old }
    requires counted { length left.leaves + length right.leaves < 2 ^ 64 }
    ensures leaves { under children.new.items
        ≡ under (take i children.old.items) ++ ((left.leaves ++ right.leaves) ++ under (drop i children.old.items)) }
    ensures children { AreChildren left.height children.new.items }
    ensures some { 0 < length children.new.items }
    ensures most { length children.new.items ≤ 8 }
    ensures room { 8 < vec_capacity children.new }
{
    let more = left.join(right, stays);
    put_in(children, i, left);
    if let Some(node) = more {
        put_in(children, i + 1, node);
    }
}

/// Takes the leaf at a place out of a tree. A root with one child gives way to it.
pub fn remove_in(alloc: Global, root: &mut Node, place: usize)
    requires whole { IsWhole root.old }
    requires inner { 0 < root.old.height }
    requires there { place < length root.old.leaves }
    ensures leaves { root.new.leaves ≡ remove root.old.leaves place }
    ensures whole { IsWhole root.new }
{
    root.remove(place);
    if root.kids() == 1 {
        let mut only = replace(root, Node::nothing(alloc)).opened();
        match only.pop() {
            None => unreachable!(),
            Some(child) => *root = child,
        }
    }
}
