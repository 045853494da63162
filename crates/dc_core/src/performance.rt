//! An operation that was performed, which contracts alone see.
use record_key::{Answer, Op};

/// An operation that was performed under this number, and what it was answered then.
#[derive(Drop)]
pub struct Performance {
    pub number: u64,
    pub op: Op,
    pub answer: Answer,
}
