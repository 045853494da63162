//! How a call ended.
ghost use Rattle.std.specs.Prelude.{◌≡◌, true, IfSome, IfNone};
ghost use Rattle.engine_guarded.specs.engine_history.specs.Sessions.{is_pending};
ghost use Rattle.engine_monitor.specs.Ending.{IsEnd, left_by};

use crate::sort::Sort;
use engine_guarded::engine_history::Failure;
use engine_guarded::engine_history::node_laws::Out;
use engine_guarded::{CallStatus, Heard};

/// How a session's call ended that was made.
#[derive(Drop)]
pub enum Ended {
    /// What it came to says all.
    AtOnce,
    /// This was told of it.
    Told(Heard),
    /// A later step failed.
    Unfinished(Failure),
    /// A crash cut it off.
    CutOff,
}

/// A call that is left unfinished: its transaction, and what it asks for.
#[derive(Clone, Copy)]
pub struct Unfinished {
    pub txn: u64,
    pub sort: Sort,
}

/// Whether a call that came to this is told of later.
pub(crate) fn is_pending(out: &Out) -> bool
    ensures { result ≡ is_pending out.now }
{
    matches!(
        out,
        Out::Logged(_) | Out::Asked(_) | Out::RollingBack | Out::CommitLogged(_)
    )
}

/// How a call ended that came to this, by what is new of it, unless it hasn't ended.
pub(crate) fn ended_by(out: &Out, status: CallStatus) -> Option<Ended>
    ensures ended { IfSome result (IsEnd out.now status) }
    ensures waits { IfNone result ((is_pending out.now ≡ true) × (status ≡ CallStatus.Nothing)) }
{
    if !is_pending(out) {
        return Some(Ended::AtOnce);
    }
    match status {
        CallStatus::Told(heard) => Some(Ended::Told(heard)),
        CallStatus::CutOff => Some(Ended::CutOff),
        CallStatus::Refused(failure) => Some(Ended::Unfinished(failure)),
        CallStatus::Nothing => None,
    }
}

/// The call that is left unfinished, if one is.
pub fn left_by(ended: &Ended, txn: u64, sort: Sort) -> Option<Unfinished>
    ensures { result ≡ left_by txn sort ended.now }
{
    match ended {
        Ended::Unfinished(_) => Some(Unfinished { txn, sort }),
        _ => None,
    }
}
