//! Devices that outlive a crash: a log of bytes, and pages by number.
//! It knows bytes and numbers. It must not know what they spell: no record, no leaf, no transaction.
//! It promises the next crates: what a crash leaves of a log begins with every forced byte and holds nothing that was
//! not appended; a page is left as its last successful write; what is read is what was written; a refused call
//! changes no byte; each call is counted, and `Device` is answered only at a call that was set to fail, unless the
//! device is one whose calls may fail freely.
#![tactic(auto)]

mod counter;
mod crash;
mod crash_device;
mod error;
mod faults;
mod log_device;
mod mem_log;
mod mem_pages;
mod page_device;
mod spelling;

pub use counter::Counter;
pub use crash::crash_law;
pub use crash_device::{CrashLog, CrashPages};
pub use error::DeviceError;
pub use log_device::LogDevice;
pub use mem_log::MemLog;
pub use mem_pages::MemPages;
pub use page_device::PageDevice;
pub use spelling::Spelling;
