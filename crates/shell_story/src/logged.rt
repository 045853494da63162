//! Records of the log.
use history::Record;

/// A record of the log, also one that a crash has taken.
#[derive(Drop)]
pub struct Logged {
    pub number: u64,
    pub record: Record,
    pub born: usize,
    pub is_stable: bool,
    pub is_answered: bool,
    /// The crash that has taken it.
    pub lost: Option<usize>,
}
