//! How far a session has come.

/// What the component waits for, or whom it serves.
#[derive(Debug, Clone, Copy, PartialEq, Eq)]
pub enum Phase {
    /// No session was started.
    Unconnected,
    /// A session was started, and its Connect awaits the reply.
    Connecting,
    /// What earlier sessions logged is sent again, one request at a time, from this number on; `ending` once the
    /// end of redo was sent.
    Redoing { next: u64, ending: bool },
    /// Clients are served while losers are undone; the loser's compensation that awaits its answer.
    Undoing { waiting: Option<u64> },
    /// Clients are served, and no loser is left.
    Running,
}
