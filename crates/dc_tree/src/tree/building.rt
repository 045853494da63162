//! A tree of given leaves.
ghost use Rattle.std.specs.Prelude.{◌≡◌, ◌+◌, ◌<◌, ◌≤◌, ◌^◌, length, map, IfOk, OnOk, IsOkUnless, vec_len};
ghost use Rattle.dc_tree.specs.Nodes.{AreSpare, IsWhole};

use super::growing::insert_in;
use super::node::Node;
use dc_leaf::Leaf;
use record_key::Refusal;
use std::alloc::Global;

/// Makes the blocks that one leaf more may need in a tree. Refused, too, where no more leaves can be counted.
pub fn make_blocks(alloc: Global, root: &Node, spare: &mut Vec<Vec<Node>>) -> Result<(), Refusal>
    requires whole { IsWhole root.now }
    requires blocks { AreSpare spare.old.items }
    ensures blocks { AreSpare spare.new.items }
    ensures enough { OnOk result (root.now.height < vec_len spare.new) }
    ensures counted { OnOk result (length root.now.leaves + 1 < 2 ^ 64) }
    ensures memory { IsOkUnless result Refusal.NoMemory }
{
    if root.count() == usize::MAX {
        return Err(Refusal::NoMemory);
    }
    root.stock(0, alloc, spare)
}

/// The root of a tree of these leaves, with the blocks that were made for it and not used.
pub fn build(alloc: Global, boxes: Vec<Box<Leaf>>) -> Result<(Node, Vec<Vec<Node>>), Refusal>
    requires { 0 < vec_len boxes }
    ensures leaves { IfOk result (λ built. built.0.leaves ≡ map (λ leaf. leaf.value) boxes.items) }
    ensures whole { IfOk result (λ built. IsWhole built.0) }
    ensures blocks { IfOk result (λ built. AreSpare built.1.items) }
    ensures memory { IsOkUnless result Refusal.NoMemory }
{
    let mut rest = boxes.into_iter();
    let Some(leaf) = rest.next() else {
        unreachable!()
    };
    let mut root = Node::of_leaf(leaf);
    let mut spare = Vec::new(alloc);
    for leaf in rest {
        make_blocks(alloc, &root, &mut spare)?;
        let last = root.count() - 1;
        insert_in(alloc, &mut root, last, leaf, &mut spare);
    }
    Ok((root, spare))
}
