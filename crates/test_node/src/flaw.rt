//! Why a walk is at its end.
use record_key::Refusal;
use std::alloc::{AllocError, AllocFailed};

/// What ends a walk before its end.
#[derive(Clone, Copy)]
pub enum Flaw {
    /// Something isn't as it must be.
    Differs(&'static str),
    /// Memory was refused to the model, or to a node that was to be made.
    NoMemory,
}

impl From<Refusal> for Flaw {
    fn from(refusal: Refusal) -> Flaw {
        match refusal {
            Refusal::NoMemory => Flaw::NoMemory,
            other => Flaw::Differs(other.name()),
        }
    }
}

impl From<AllocError> for Flaw {
    fn from(_error: AllocError) -> Flaw {
        Flaw::NoMemory
    }
}

impl<T: Drop> From<AllocFailed<T>> for Flaw {
    fn from(_error: AllocFailed<T>) -> Flaw {
        Flaw::NoMemory
    }
}

/// That it differs, unless this holds.
pub fn check(holds: bool, otherwise: &'static str) -> Result<(), Flaw> {
    if holds {
        Ok(())
    } else {
        Err(Flaw::Differs(otherwise))
    }
}
