//! What a session that waits finds.
use crate::entry::Entry;
use crate::failure::Failure;
use boxcar::Pushed;

/// What was told of a session's latest call.
#[derive(Drop)]
pub enum CallStatus {
    /// This entry told of it.
    Line(Pushed<Entry>),
    /// Nothing more is told of it.
    CutOff,
    /// Nothing was told yet, and its request was refused.
    Refused(Failure),
    Nothing,
}
