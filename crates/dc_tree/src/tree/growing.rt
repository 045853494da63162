//! A leaf put beside another, and nodes divided where a ninth child comes.
ghost use Rattle.std.specs.Prelude.{◌≡◌, suc, ◌+◌, ◌<◌, ◌≤◌, ◌^◌, [], ◌++◌, length, OnOk, IfSome, IsOkUnless, vec_len};
ghost use Rattle.std.specs.List.{insert};
ghost use Rattle.std.specs.Vec.{vec_capacity};
ghost use Rattle.std.specs.Option.{option_to_list};
ghost use Rattle.dc_tree.specs.Nodes.{AreChildren, AreSpare, IsChild, IsWhole, under};

use super::blocks::{divide, put_in, take_block};
use super::children::{count_in, low_in, node_at, summary_in};
use super::node::{Below, MOST, Node};
use dc_leaf::Leaf;
use record_key::Refusal;
use std::alloc::Global;
use std::mem::replace;

/// How many of nine children stay in a node that is divided.
const HALF: usize = 4;

/// The same where the ninth came after all others, as where keys rise: nothing is put among those that stay, so they are
/// all but the two that the other node must have.
const ALL_BUT_TWO: usize = 7;

impl Node {
    /// Makes blocks until there is one for each level below the node, one for itself and `above` more.
    pub fn stock(
        &self,
        above: usize,
        alloc: Global,
        spare: &mut Vec<Vec<Node>>,
    ) -> Result<(), Refusal>
        requires whole { IsWhole self.now }
        requires empty { AreSpare spare.old.items }
        requires some { above ≤ vec_len spare.old }
        ensures empty { AreSpare spare.new.items }
        ensures enough { OnOk result (above + self.now.height < vec_len spare.new) }
        ensures memory { IsOkUnless result Refusal.NoMemory }
    {
        if spare.len() == above {
            spare.push(Vec::with_capacity(alloc, MOST + 1)?)?;
        }
        match &self.below {
            Below::Leaf(_) => Ok(()),
            Below::Inner(children) => children[0].stock(above + 1, alloc, spare),
        }
    }

    /// Puts a leaf after the one at a place. A node that is divided for it gives its right part.
    pub fn insert(
        &mut self,
        place: usize,
        leaf: Box<Leaf>,
        spare: &mut Vec<Vec<Node>>,
    ) -> Option<Node>
        requires whole { IsWhole self.old }
        requires there { place < length self.old.leaves }
        requires counted { length self.old.leaves + 1 < 2 ^ 64 }
        requires spare { AreSpare spare.old.items }
        requires enough { self.old.height ≤ vec_len spare.old }
        ensures leaves { self.new.leaves ++ under (option_to_list result)
            ≡ insert self.old.leaves (suc place) leaf.value }
        ensures child { IsChild self.old.height self.new }
        ensures right { IfSome result (IsChild self.old.height) }
        ensures spare { AreSpare spare.new.items }
        ensures used { vec_len spare.old ≤ vec_len spare.new + self.old.height }
    {
        match &mut self.below {
            Below::Leaf(_) => Some(Node::of_leaf(leaf)),
            Below::Inner(children) => {
                let (i, rest) = node_at(children.as_slice(), place);
                let right = match children[i].insert(rest, leaf, spare) {
                    None => None,
                    Some(node) => add(children, i + 1, node, spare),
                };
                self.low = low_in(children.as_slice());
                self.count = count_in(children.as_slice());
                self.summary = summary_in(children.as_slice());
                right
            }
        }
    }
}

/// How many of nine children stay, of which the one at this place came last.
fn stays_of(i: usize) -> usize
    ensures two { 2 ≤ result }
    ensures seven { result ≤ 7 }
{
    if i == MOST { ALL_BUT_TWO } else { HALF }
}

/// Puts a node among others. A ninth one divides them, and a node over those that don't stay is given.
fn add(children: &mut Vec<Node>, i: usize, node: Node, spare: &mut Vec<Vec<Node>>) -> Option<Node>
    requires children { AreChildren node.height children.old.items }
    requires node { IsWhole node }
    requires within { i ≤ length children.old.items }
    requires most { length children.old.items ≤ 8 }
    requires room { 8 < vec_capacity children.old }
    requires counted { length (under children.old.items) + length node.leaves < 2 ^ 64 }
    requires spare { AreSpare spare.old.items }
    requires some { 0 < vec_len spare.old }
    ensures leaves { under children.new.items ++ under (option_to_list result)
        ≡ under (insert children.old.items i node) }
    ensures children { AreChildren node.height children.new.items }
    ensures most { length children.new.items ≤ 8 }
    ensures least { 0 < length children.old.items → 2 ≤ length children.new.items }
    ensures room { vec_capacity children.new ≡ vec_capacity children.old }
    ensures right { IfSome result (IsChild (suc node.height)) }
    ensures spare { AreSpare spare.new.items }
    ensures used { vec_len spare.old ≤ vec_len spare.new + 1 }
{
    put_in(children, i, node);
    if children.len() <= MOST {
        return None;
    }
    Some(divide(children, stays_of(i), take_block(spare)))
}

/// Puts a leaf after the one at a place of a tree; a root that is divided gets a root above it.
pub fn insert_in(
    alloc: Global,
    root: &mut Node,
    place: usize,
    leaf: Box<Leaf>,
    spare: &mut Vec<Vec<Node>>,
)
    requires whole { IsWhole root.old }
    requires there { place < length root.old.leaves }
    requires counted { length root.old.leaves + 1 < 2 ^ 64 }
    requires spare { AreSpare spare.old.items }
    requires enough { root.old.height < vec_len spare.old }
    ensures leaves { root.new.leaves ≡ insert root.old.leaves (suc place) leaf.value }
    ensures whole { IsWhole root.new }
    ensures spare { AreSpare spare.new.items }
{
    if let Some(right) = root.insert(place, leaf, spare) {
        let left = replace(root, Node::nothing(alloc));
        *root = over_two(left, right, spare);
    }
}

/// A node over two others.
fn over_two(left: Node, right: Node, spare: &mut Vec<Vec<Node>>) -> Node
    requires left { IsWhole left }
    requires right { IsChild left.height right }
    requires counted { length left.leaves + length right.leaves < 2 ^ 64 }
    requires spare { AreSpare spare.old.items }
    requires some { 0 < vec_len spare.old }
    ensures leaves { result.leaves ≡ left.leaves ++ right.leaves }
    ensures whole { IsWhole result }
    ensures spare { AreSpare spare.new.items }
{
    let mut both = take_block(spare);
    both.push_reserved(left);
    both.push_reserved(right);
    Node::over(both)
}
