//! How a call ended.
ghost use Rattle.std.specs.Prelude.{◌≡◌};
ghost use Rattle.engine_answers.specs.Unfinished.{bar_of, left_by};
ghost use Rattle.engine_answers.specs.Why.{why_of};

use boxcar::Pushed;
use engine_history::{Entry, Failure, KeptOut, OutForm};
use record_key::Refusal;

/// A call that has its entry, and more is to be told of it: its transaction, and that entry.
#[derive(Drop)]
pub struct Unfinished {
    pub txn: u64,
    pub call: Pushed<Entry>,
}

/// How a session's call ended that has an entry.
#[derive(Drop)]
pub enum Ended {
    /// Its entry says all.
    AtOnce(Pushed<Entry>),
    /// The second entry told of it.
    Told(Pushed<Entry>, Pushed<Entry>),
    /// A later step failed.
    Unfinished(Unfinished, Failure),
    /// A crash cut it off.
    CutOff,
}

impl Unfinished {
    /// The same call again.
    pub fn again(&self) -> Unfinished
        ensures { result ≡ self.now }
    {
        Unfinished {
            txn: self.txn,
            call: self.call.again(),
        }
    }
}

/// The call that is left unfinished, if one is.
pub fn left_by(ended: &Ended) -> Option<Unfinished>
    ensures { result ≡ left_by ended.now }
{
    match ended {
        Ended::Unfinished(unfinished, _) => Some(unfinished.again()),
        _ => None,
    }
}

/// Why a call is refused that came to this.
pub(crate) fn why(out: &KeptOut) -> Refusal
    ensures { result ≡ why_of out.now }
{
    match out.form() {
        OutForm::Refused(refusal) => *refusal,
        _ => Refusal::NotConnected,
    }
}

/// Why the other calls of a transaction are refused one of whose calls came to this, as long as that is unfinished: as the
/// transaction component refuses them.
pub fn bar(out: &KeptOut) -> Refusal
    ensures { result ≡ bar_of out.now }
{
    match out.form() {
        OutForm::RollingBack => Refusal::RollingBack,
        OutForm::CommitLogged(_) => Refusal::NotOpen,
        _ => Refusal::Unanswered,
    }
}
