//! Why a script isn't played on.
use record_key::Refusal;
use std::alloc::AllocError;
use std::io;

/// Why it ends before its last line.
#[derive(Clone, Copy, PartialEq, Eq)]
pub enum Stop {
    /// Nothing more comes in.
    Closed,
    /// A stream failed.
    Failed,
    /// The component was refused what it needs to go on.
    Refused(Refusal),
    /// A line is for the other half.
    Elsewhere,
}

impl From<io::Error> for Stop {
    fn from(_: io::Error) -> Stop {
        Stop::Failed
    }
}

impl From<Refusal> for Stop {
    fn from(refusal: Refusal) -> Stop {
        Stop::Refused(refusal)
    }
}

impl From<AllocError> for Stop {
    fn from(_: AllocError) -> Stop {
        Stop::Refused(Refusal::NoMemory)
    }
}
