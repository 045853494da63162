//! The transaction log: a list of records with a stable beginning, kept as bytes on a device.
//!
//! Knows: the spelling of records, which logs are legal, and what a log device promises.
//! Must not know: who appends and why, what is sent, or how the bytes outlive a crash.
//! Promises the next crates: the log is legal at every moment and its device holds just the frames of its records; what
//! a crash leaves is opened as a beginning of the log with all stable records, and never as bad bytes; it is read and
//! judged in one pass, before anything of the device is changed; a record is read back as it was appended, without a
//! device call; a refused call leaves the records as they were and names its cause.
#![tactic(auto)]

mod adders;
mod analysis;
mod appended;
mod compensated;
mod fits;
mod found;
mod frames;
mod judge;
mod laws;
mod log;
mod low;
mod not_session;
mod note;
mod open;
mod read;
mod replay;
mod write;

pub use analysis::Analysis;
pub use compensated::Compensated;
pub use found::Found;
pub use frames::Frames;
pub use judge::Judge;
pub use laws::crash_law;
pub use log::Log;
pub use open::Refused;
