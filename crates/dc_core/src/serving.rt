//! What each kind of request does.
ghost use Rattle.std.specs.Prelude.{◌≡◌, Some, None, IfOk, IfErr, OnOk, OnErr};
ghost use Rattle.record_key.specs.Lent.{op_lent};
ghost use Rattle.codec.specs.Parted.{request_to};
ghost use Rattle.codec.specs.Requests.{HasRequestNumbers};
ghost use Rattle.dc_core.specs.Performing.{replied};
ghost use Rattle.dc_core.specs.Serves.{serve_refusal, session_refusal, MayAsk, ServeGives, Serves, Stops};

use crate::dc::Dc;
use codec::{Asking, Reply, Request};
use dc_leaf::AnswerSink;
use record_key::{Op, OpRef, Refusal};
use stable::{LogDevice, PageDevice};

impl<D: LogDevice, P: PageDevice> Dc<D, P> {
    /// Does what the request asks, and gives the reply to it, if there is one. Refused as `allows` says and unchanged
    /// then; else NoMemory, and unchanged, for a new number, a Scan, a Checkpoint or a Connect; NotNow, and unchanged,
    /// for a Checkpoint where a leaf has an entry above the known end; Device, only where a device's call was due to
    /// fail, for a Connect, which may leave its record in the log and takes no session then, and for a Checkpoint,
    /// which has raised all leaves then and may have written some.
    pub fn serve(&mut self, request: &Request) -> Result<Option<Reply>, Refusal>
        requires numbers { HasRequestNumbers request.now }
        requires owed { MayAsk self.old request.now }
        ensures gives { ServeGives self.old request.now result self.new }
    {
        self.allows(request)?;
        self.serve_allowed(request)
    }

    /// The same for a caller that has asked `allows`: each request is judged once.
    pub fn serve_allowed(&mut self, request: &Request) -> Result<Option<Reply>, Refusal>
        requires allowed { serve_refusal self.old request.now ≡ None }
        requires numbers { HasRequestNumbers request.now }
        requires owed { MayAsk self.old request.now }
        ensures gives { ServeGives self.old request.now result self.new }
    {
        match request {
            Request::Connect { session, end } => Ok(Some(self.connect(*session, *end)?)),
            Request::Perform {
                session,
                number,
                stable,
                op,
            } => {
                let asking = Asking {
                    session: *session,
                    number: *number,
                    stable: *stable,
                };
                Ok(Some(self.answer_to(asking, op)?))
            }
            Request::Get { session, read, key } => Ok(Some(self.read(*session, *read, key))),
            Request::Scan {
                session,
                read,
                low,
                high,
            } => Ok(Some(self.scan(*session, *read, low, high.as_ref())?)),
            Request::LowWater { low, .. } => {
                self.lower(*low);
                Ok(None)
            }
            Request::Checkpoint { session, low } => Ok(Some(self.checkpoint(*session, *low)?)),
            Request::RedoEnd { session } => Ok(Some(self.end_redo(*session))),
            Request::StableEnd { stable, .. } => {
                self.learn(*stable);
                Ok(None)
            }
        }
    }

    fn answer_to(&mut self, asking: Asking, op: &Op) -> Result<Reply, Refusal>
        requires allowed { session_refusal self.old asking.session ≡ None }
        requires numbers { HasRequestNumbers (request_to asking op.now) }
        requires owed { MayAsk self.old (request_to asking op.now) }
        ensures served { IfOk result (λ reply. Serves self.old (request_to asking op.now) (Some reply)
            self.new) }
        ensures stopped { IfErr result (λ refusal. Stops self.old (request_to asking op.now) refusal
            self.new) }
    {
        let mut answer = None;
        match self.perform(asking, &op.lent(), &mut answer) {
            Ok(()) => Ok(Reply::Answered {
                session: asking.session,
                number: asking.number,
                answer,
            }),
            Err(refusal) => Err(refusal),
        }
    }

    /// What `serve_allowed` does of a request to perform, for a caller that has its operation apart and a sink for the
    /// answer.
    pub fn perform<S: AnswerSink>(
        &mut self,
        asking: Asking,
        op: &OpRef<'_>,
        sink: &mut S,
    ) -> Result<(), Refusal>
        requires allowed { session_refusal self.old asking.session ≡ None }
        requires numbers { HasRequestNumbers (request_to asking (op_lent op.now)) }
        requires owed { MayAsk self.old (request_to asking (op_lent op.now)) }
        requires may_take { S.may_take sink.old asking.session asking.number }
        ensures gives { ServeGives self.old (request_to asking (op_lent op.now))
            (replied asking result (S.told sink.new)) self.new }
        ensures given { OnOk result (S.takes sink.old asking.session asking.number (S.told sink.new) sink.new) }
        ensures untold { OnErr result (sink.new ≡ sink.old) }
    {
        self.perform_once(asking.number, op, asking.session, sink)?;
        self.learn(asking.stable);
        Ok(())
    }
}
