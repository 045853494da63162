//! Why a device call is refused.
ghost use Rattle.std.specs.Prelude.{◌≡◌};
ghost use Rattle.stable.specs.declared.error.DeviceError.TheVariants.{NoMemory};

use std::alloc::{AllocError, AllocFailed};
use std::error::Error;
use std::fmt;

#[derive(Clone, Copy, Debug, PartialEq, Eq)]
pub enum DeviceError {
    /// A growth was refused.
    NoMemory,
    /// The device failed in this call.
    Device,
}

impl fmt::Display for DeviceError {
    fn fmt<W: fmt::Write>(&self, f: &mut fmt::Formatter<W>) -> fmt::Result {
        match self {
            DeviceError::NoMemory => write!(f, "out of memory"),
            DeviceError::Device => write!(f, "the device failed"),
        }
    }
}

impl Error for DeviceError {}

impl From<AllocError> for DeviceError {
    ghost from_gives = { λ _ e. e ≡ NoMemory };

    fn from(_: AllocError) -> DeviceError {
        DeviceError::NoMemory
    }
}

impl<T: Drop> From<AllocFailed<T>> for DeviceError {
    ghost from_gives = { λ _ e. e ≡ NoMemory };

    fn from(_: AllocFailed<T>) -> DeviceError {
        DeviceError::NoMemory
    }
}
