//! What a split or a merge puts among leaves, made before they change.
use dc_leaf::Leaf;
use record_key::Key;

/// The half of a leaf that a split puts beside it.
#[derive(Debug, Drop)]
pub struct Split {
    /// The number of the leaf that is split.
    pub left: u64,
    /// The first key of the new leaf.
    pub cut: Key,
    pub right: Box<Leaf>,
}

/// The leaf that a merge puts in the place of two.
#[derive(Debug, Drop)]
pub struct Merge {
    /// The number of the leaf that goes.
    pub right: u64,
    pub merged: Box<Leaf>,
}
