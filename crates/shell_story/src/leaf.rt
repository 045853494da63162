//! Leaves as they were seen, and what happens at them.
use record_key::Key;

/// A leaf as it was seen last.
#[derive(Clone, Copy)]
pub struct Shot {
    pub leaf: u64,
    pub low: u64,
}

/// A number that a leaf has captured beyond its low number.
#[derive(Clone, Copy, PartialEq, Eq)]
pub struct Held {
    pub leaf: u64,
    pub number: u64,
}

/// A leaf appears, with its low fence.
#[derive(Drop)]
pub struct Birth {
    pub leaf: u64,
    pub step: usize,
    pub from: Option<Key>,
}

/// What happens at a leaf.
#[derive(Clone, Copy)]
pub enum What {
    /// It is gone.
    Ends,
    Captures(u64),
    /// The number isn't captured any more: a crash or a new session has taken it.
    Loses(u64),
    Low(u64),
    Flushed,
    /// This leaf is split off from it.
    Splits(u64),
    /// It takes in this leaf.
    TakesIn(u64),
}

#[derive(Clone, Copy)]
pub struct Change {
    pub step: usize,
    pub leaf: u64,
    pub what: What,
}
