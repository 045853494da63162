//! What a session finds of its latest call.
use crate::heard::Heard;
use engine_history::Failure;

/// What was told of a session's latest call.
#[derive(Drop)]
pub enum CallStatus {
    Told(Heard),
    /// Nothing more is told of it.
    CutOff,
    /// Nothing was told yet, and a step of it failed.
    Refused(Failure),
    Nothing,
}
