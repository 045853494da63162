//! Blocks of children. None of these calls takes memory.
ghost use Rattle.std.specs.Prelude.{◌≡◌, ◌+◌, ◌<◌, ◌≤◌, ◌^◌, [], ◌++◌, drop, length, take, vec_len};
ghost use Rattle.std.specs.List.{insert};
ghost use Rattle.std.specs.Vec.{vec_capacity};
ghost use Rattle.dc_tree.specs.Nodes.{AreChildren, AreSpare, height_in, over_nodes, under};

use super::node::Node;

/// Takes one of the blocks that were made.
pub fn take_block(spare: &mut Vec<Vec<Node>>) -> Vec<Node>
    requires spare { AreSpare spare.old.items }
    requires some { 0 < vec_len spare.old }
    ensures empty { result.items ≡ [] }
    ensures room { 8 < vec_capacity result }
    ensures spare { AreSpare spare.new.items }
    ensures used { vec_len spare.new + 1 ≡ vec_len spare.old }
{
    match spare.pop() {
        None => unreachable!(),
        Some(block) => block,
    }
}

/// Puts a node in a block that has room.
pub fn put_in(children: &mut Vec<Node>, i: usize, node: Node)
    requires within { i ≤ vec_len children.old }
    requires room { vec_len children.old < vec_capacity children.old }
    ensures items { children.new.items ≡ insert children.old.items i node }
    ensures room { vec_capacity children.new ≡ vec_capacity children.old }
{
    match children.insert(i, node) {
        Ok(()) => {}
        Err(_) => unreachable!(),
    }
}

/// Leaves so many in the block, and makes a node over the others in another block.
pub fn divide(children: &mut Vec<Node>, stays: usize, mut block: Vec<Node>) -> Node
    requires children { AreChildren (height_in children.old.items) children.old.items }
    requires nine { length children.old.items ≡ 9 }
    requires some { 0 < stays }
    requires fewer { stays < 9 }
    requires counted { length (under children.old.items) < 2 ^ 64 }
    requires empty { block.items ≡ [] }
    requires room { 8 < vec_capacity block }
    ensures left { children.new.items ≡ take stays children.old.items }
    ensures right { result ≡ over_nodes (drop stays children.old.items) }
    ensures room { vec_capacity children.new ≡ vec_capacity children.old }
{
    move_rest(children, stays, &mut block);
    Node::over(block)
}

/// Moves the nodes from the i-th on to the end of another block, which has room.
fn move_rest(children: &mut Vec<Node>, i: usize, block: &mut Vec<Node>)
    requires within { i ≤ vec_len children.old }
    requires empty { block.old.items ≡ [] }
    requires room { vec_len children.old ≤ vec_capacity block.old }
    ensures left { children.new.items ≡ take i children.old.items }
    ensures right { block.new.items ≡ drop i children.old.items }
    ensures room { vec_capacity children.new ≡ vec_capacity children.old }
    ensures block_room { vec_capacity block.new ≡ vec_capacity block.old }
{
    while children.len() > i {
        let node = children.remove(i);
        block.push_reserved(node);
    }
}
