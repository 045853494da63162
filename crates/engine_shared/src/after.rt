//! What follows a step of a session's call.
/// What its session does after a step of a call.
#[derive(Clone, Copy, PartialEq, Eq)]
pub(crate) enum After {
    /// It looks what was told.
    Look,
    /// It waits until something was told, or another step may be made.
    Wait,
}
