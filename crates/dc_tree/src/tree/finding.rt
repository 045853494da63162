//! The leaf at a place and the place of a key, one node a level.
ghost use Rattle.std.specs.Prelude.{◌≡◌, ◌^◌, ◌<◌, length, get_or};
ghost use Rattle.dc_leaf.specs.Leaf.{first};
ghost use Rattle.dc_tree.specs.Nodes.{IsWhole};
ghost use Rattle.dc_tree.specs.Finding.{IsLeafOf, IsPlaceOf};

use super::children::{count_in, node_at, node_of};
use super::node::{Below, Node};
use dc_leaf::Leaf;
use record_key::Key;

impl Node {
    /// The leaf at a place.
    pub fn leaf(&self, place: usize) -> &Leaf
        requires { place < length self.now.leaves }
        ensures { result.now ≡ get_or self.now.leaves place first }
    {
        match &self.below {
            Below::Leaf(leaf) => leaf,
            Below::Inner(children) => {
                let (i, rest) = node_at(children.as_slice(), place);
                children[i].leaf(rest)
            }
        }
    }

    /// The last leaf that begins at the key or below, or the first leaf.
    pub fn leaf_of(&self, key: &Key) -> &Leaf
        requires { IsWhole self.now }
        ensures { IsLeafOf self.now.leaves key.now result.now }
    {
        match &self.below {
            Below::Leaf(leaf) => leaf,
            Below::Inner(children) => {
                let i = node_of(children.as_slice(), key);
                children[i].leaf_of(key)
            }
        }
    }

    /// The place of the last leaf that begins at the key or below, or of the first leaf.
    pub fn place_of(&self, key: &Key) -> usize
        requires { IsWhole self.now }
        ensures { IsPlaceOf self.now.leaves key.now result }
    {
        match &self.below {
            Below::Leaf(_) => 0,
            Below::Inner(children) => {
                let i = node_of(children.as_slice(), key);
                let before = count_in(&children[..i]);
                before + children[i].place_of(key)
            }
        }
    }
}
