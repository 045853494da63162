//! Why a log isn't opened.
ghost use Rattle.std.specs.Prelude.{◌≡◌};

use record_key::Refusal;
use thiserror::Error;

/// Of records that are wrong the first one is named.
#[derive(Debug, Clone, Copy, PartialEq, Eq, Error)]
pub enum Cause {
    /// NoMemory, Device, or BadBytes with the offset of the first frame that is bad, doesn't fit or has no number.
    #[error("the log isn't opened: {0}")]
    Refused(Refusal),
    /// The record of this number is of a checkpoint. What it says to be on pages isn't there.
    #[error("record {0} of the log is of a checkpoint, whose pages aren't there")]
    Checkpoint(u64),
    /// The Answer record of this number holds another answer than its operation gets.
    #[error("record {0} of the log holds another answer than its operation gets")]
    WrongAnswer(u64),
}

/// The device of a log that isn't opened, with the bytes that it had, and why.
#[derive(Debug, Drop)]
pub struct Unopened<D> {
    pub cause: Cause,
    pub log: D,
}

impl<D> Unopened<D> {
    /// Neither a checkpoint nor an answer is why, but this refusal.
    pub(crate) fn refused(refusal: Refusal, log: D) -> Unopened<D>
        ensures { result ≡ record { cause = Cause.Refused refusal; log = log } }
    {
        Unopened {
            cause: Cause::Refused(refusal),
            log,
        }
    }
}
