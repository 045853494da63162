//! The line of a device: one of its calls is set to fail.
ghost use Rattle.std.specs.Prelude.{◌≡◌, option_map};
ghost use Rattle.shell_scripts.specs.Words.{number_in};
ghost use Rattle.shell_scripts.specs.Script.{device_in, failing_call, with_device, meaning};

use crate::line::{Device, Line};
use crate::words::number_of;
use node_world::Event;

/// The device that a word names.
fn device_in(word: &[u8]) -> Option<Device>
    ensures { result ≡ device_in word.now }
{
    if word == b"tclog".as_slice() {
        Some(Device::TcLog)
    } else if word == b"dclog".as_slice() {
        Some(Device::DcLog)
    } else if word == b"pages".as_slice() {
        Some(Device::Pages)
    } else {
        None
    }
}

/// A line of a name, a device and the number of a call, from 1.
pub fn with_device<'a>(name: &[u8], device: &[u8], call: &[u8]) -> Option<Line<'a>>
    ensures { option_map meaning result ≡ with_device name.now (device_in device.now) (number_in call.now) }
{
    let device = device_in(device)?;
    let call = number_of(call)?;
    if name == b"fail".as_slice() && call >= 1 {
        Some(Line::Step(failing_call(device, call)))
    } else {
        None
    }
}

/// The device's call of this number from now fails.
fn failing_call(device: Device, call: u64) -> Event
    ensures { result ≡ failing_call device call }
{
    match device {
        Device::TcLog => Event::FailTc { call },
        Device::DcLog => Event::FailDc {
            device: node_world::Device::Log,
            call,
        },
        Device::Pages => Event::FailDc {
            device: node_world::Device::Pages,
            call,
        },
    }
}
