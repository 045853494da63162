//! Transactions, the keys that they hold, and their savepoints.
use record_key::Key;

/// How a transaction stands.
#[derive(Clone, Copy)]
pub enum State {
    Open,
    /// It is being rolled back: what is above the bound is undone.
    Rolling { bound: u64 },
    Committing,
    /// A crash found it open: recovery undoes it.
    Loser,
    Committed,
    RolledBack,
    Lost,
    /// A crash has taken its Begin record: nothing of it is left.
    Gone,
}

/// A transaction.
#[derive(Clone, Copy)]
pub struct Actor<'a> {
    pub txn: u64,
    pub label: &'a [u8],
    pub born: usize,
    /// The step in which it ended.
    pub ended: Option<usize>,
    pub state: State,
    /// The record whose answer it waits for.
    pub waiting: Option<u64>,
    /// It waits for what it reads.
    pub is_reading: bool,
}

/// How keys are held.
#[derive(Clone, Copy, PartialEq, Eq)]
pub enum Mode {
    Shared,
    Increment,
    Exclusive,
}

/// Up to where keys are held.
#[derive(PartialEq, Eq, Drop)]
pub enum End {
    /// One key alone.
    Single,
    Below(Key),
    Open,
}

/// Keys that a transaction holds.
#[derive(Drop)]
pub struct Hold {
    pub txn: u64,
    /// The record for which they were taken, 0 for a read.
    pub of: u64,
    pub low: Key,
    pub end: End,
    pub mode: Mode,
}

/// A savepoint: the log's end when it was set.
#[derive(Clone, Copy)]
pub struct Mark {
    pub txn: u64,
    pub savepoint: u64,
    pub end: u64,
    pub step: usize,
}
