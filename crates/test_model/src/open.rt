//! An open transaction.
use crate::span::Span;
use record_key::Refusal;

/// What an open transaction does.
#[derive(Drop)]
pub enum Doing {
    Nothing,
    WaitsForAnswer,
    Reads(Span),
    RollsBack,
    GoesBack(u64),
}

/// An open transaction. Each savepoint is the count of operations when it was set.
#[derive(Drop)]
pub struct Open {
    pub txn: u64,
    pub doing: Doing,
    pub saves: Vec<usize>,
}

impl Open {
    /// Refused RollingBack, Unanswered.
    pub fn is_idle(&self) -> Result<(), Refusal> {
        match self.doing {
            Doing::Nothing => Ok(()),
            Doing::WaitsForAnswer | Doing::Reads(_) => Err(Refusal::Unanswered),
            Doing::RollsBack | Doing::GoesBack(_) => Err(Refusal::RollingBack),
        }
    }
}
