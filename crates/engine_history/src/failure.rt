//! Why a step is refused that may be made again.
ghost use Rattle.std.specs.Prelude.{◌≡◌};
ghost use Rattle.engine_history.specs.Failing.{failure_in, refusal_of};

use record_key::Refusal;

/// A growth was refused, or a device failed.
#[derive(Debug, Clone, Copy, PartialEq, Eq)]
pub enum Failure {
    NoMemory,
    Device,
}

/// The failure that it tells, if it tells one.
pub(crate) fn failure_in(refusal: Refusal) -> Option<Failure>
    ensures { result ≡ failure_in refusal }
{
    match refusal {
        Refusal::NoMemory => Some(Failure::NoMemory),
        Refusal::Device => Some(Failure::Device),
        _ => None,
    }
}

impl Failure {
    pub fn refusal(self) -> Refusal
        ensures { result ≡ refusal_of self }
    {
        match self {
            Failure::NoMemory => Refusal::NoMemory,
            Failure::Device => Refusal::Device,
        }
    }
}
