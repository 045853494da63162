//! What recovery sends in a session.
ghost use Rattle.std.specs.Prelude.{◌≡◌, ℕ, false, IfSome, IfNone};
ghost use Rattle.tc_restart.specs.Redo.{FindsRequest};
ghost use Rattle.tc_core.specs.Recovery.{RecoverGives, Redoes, SendsOp, redoing};
ghost use Rattle.tc_core.specs.Redoing.{IsRedoing};
ghost use Rattle.tc_core.specs.Kept.{IsTc};
ghost use Rattle.tc_core.specs.Seen.{seen};
ghost use Rattle.tc_core.specs.TcView.{TcView};

use crate::parts::Parts;
use crate::phase::Phase;
use crate::told::RecoverStep;
use codec::Request;
use record_key::Refusal;
use stable::LogDevice;
use tc_restart::redo_next;

impl<D: LogDevice> Parts<D> {
    pub fn recover_step(&mut self) -> Result<RecoverStep, Refusal>
        requires { IsTc (seen self.old) }
        ensures kept { IsTc (seen self.new) }
        ensures gives { RecoverGives (seen self.old) result (seen self.new) }
    {
        match self.phase {
            Phase::Unconnected => Err(Refusal::NotConnected),
            Phase::Connecting => Ok(RecoverStep::Sends(Request::Connect {
                session: self.session,
                end: self.log.last_not_session(),
            })),
            Phase::Redoing { next, .. } => Ok(RecoverStep::Sends(self.redo(next))),
            Phase::Undoing {
                waiting: Some(number),
            } => self.resend_undo(number),
            Phase::Undoing { waiting: None } => self.undo_next(),
            Phase::Running => Ok(RecoverStep::Nothing),
        }
    }

    /// The operation that recovery sends next, or again, by its number; redo stands at it then. None where it sends none,
    /// and nothing changes.
    pub fn recover_op(&mut self) -> Option<u64>
        requires { IsTc (seen self.old) }
        ensures kept { IsTc (seen self.new) }
        ensures sent { IfSome result (λ number. SendsOp (seen self.old) number (seen self.new)) }
        ensures same { IfNone result (seen self.new ≡ seen self.old) }
        ensures none { IfNone result ((number : ℕ) (new : TcView) → SendsOp (seen self.old) number new → ⊥) }
    {
        match self.phase {
            Phase::Redoing { next, .. } => self.redo_op(next),
            Phase::Undoing { waiting } => waiting,
            Phase::Unconnected | Phase::Connecting | Phase::Running => None,
        }
    }

    /// Redo goes on to the next record that asks for something, from this number on: its number, or none after the last.
    fn redo_op(&mut self, next: u64) -> Option<u64>
        requires kept { IsTc (seen self.old) }
        requires redoing { IsRedoing self.old.phase next }
        ensures kept { IsTc (seen self.new) }
        ensures finds { FindsRequest (seen self.old).log next (seen self.old).session result }
        ensures there { IfSome result (λ number. seen self.new ≡ redoing (seen self.old) number false) }
        ensures same { IfNone result (seen self.new ≡ seen self.old) }
    {
        let number = redo_next(&self.log, next, self.session)?;
        self.phase = Phase::Redoing {
            next: number,
            ending: false,
        };
        Some(number)
    }

    /// The next request of redo, from this number on; the end of redo after the last.
    fn redo(&mut self, next: u64) -> Request
        requires kept { IsTc (seen self.old) }
        requires redoing { IsRedoing self.old.phase next }
        ensures kept { IsTc (seen self.new) }
        ensures redoes { Redoes (seen self.old) next result (seen self.new) }
    {
        let session = self.session;
        match self.redo_op(next) {
            Some(number) => self.perform(number),
            None => {
                self.phase = Phase::Redoing {
                    next: session,
                    ending: true,
                };
                Request::RedoEnd { session }
            }
        }
    }
}
