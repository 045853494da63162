//! What brings the transaction component up.

/// What is to be done next to bring the transaction component up.
#[derive(Debug, Clone, Copy, PartialEq, Eq)]
pub enum Next {
    Restart,
    Connect,
    Recover,
    /// A record of undo is logged; nothing is sent.
    Lose,
    Force,
    Nothing,
}
