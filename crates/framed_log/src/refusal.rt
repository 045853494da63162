//! What a device's error is answered with.
ghost use Rattle.std.specs.Prelude.{◌≡◌};
ghost use Rattle.framed_log.specs.Refused.{refusal_from};

use record_key::Refusal;
use stable::DeviceError;

/// The refusal of a call whose device failed.
pub fn refusal_of(error: DeviceError) -> Refusal
    ensures { result ≡ refusal_from error }
{
    match error {
        DeviceError::NoMemory => Refusal::NoMemory,
        DeviceError::Device => Refusal::Device,
    }
}
