//! What splits and merges did.

/// The numbers of two leaves that stood side by side, or stand so now.
#[derive(Debug, Clone, Copy, PartialEq, Eq)]
pub struct Neighbours {
    pub left: u64,
    pub right: u64,
}

/// What tending the leaves came to.
#[derive(Debug, Clone, Copy, PartialEq, Eq)]
pub enum Tended {
    Split(Neighbours),
    Merged(Neighbours),
    Nothing,
}
