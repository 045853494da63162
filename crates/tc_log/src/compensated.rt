//! What is told of a Comp record that was appended.

/// Its number and what a rollback goes on with.
#[derive(Debug, Clone, Copy, PartialEq, Eq)]
pub struct Compensated {
    pub number: u64,
    /// The number of the operation that is left to undo, 0 if none.
    pub next: u64,
    /// It has an inverse, and so waits for an answer.
    pub asks: bool,
}
