//! The rounds of settling.

/// A round: a few events that belong together. None is a client's call.
#[derive(Debug, Clone, Copy, PartialEq, Eq)]
pub enum Round {
    /// The data component is restarted.
    RestartDc,
    /// The transaction component is.
    RestartTc,
    /// A session is started, and its Connect is sent, served and answered.
    Connect,
    /// A request of recovery is sent, served and answered.
    Recover,
    /// A record of the undo of those that a crash found open is logged.
    Lose,
    /// The log is made stable.
    Force,
    /// The transaction's unanswered request is sent, served and answered.
    Exchange { txn: u64 },
    /// One step of a rollback.
    Undo { txn: u64 },
}
