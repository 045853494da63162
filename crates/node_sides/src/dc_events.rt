//! The calls of the data component, and the requests that reach it.
ghost use Rattle.std.specs.Prelude.{◌≡◌, true, false, None, Some, OnSome};
ghost use Rattle.record_key.specs.Lent.{op_lent};
ghost use Rattle.codec.specs.Parted.{request_to};
ghost use Rattle.codec.specs.Requests.{HasRequestNumbers};
ghost use Rattle.node_laws.specs.dc_core.specs.Performing.{reply_if};
ghost use Rattle.node_laws.specs.dc_core.specs.Serves.{MayAsk};
ghost use Rattle.node_laws.specs.dc_store.specs.Kept.{IsRecoverable};
ghost use Rattle.node_laws.specs.Halves.{of_tc, moves, DcGives, DcCalls, DcServes};
ghost use Rattle.node_laws.specs.Node.{is_replied_to};
ghost use Rattle.node_sides.specs.Seen.{dc_of};

use crate::attempt::attempt;
use crate::data_component::DataComponent;
use crate::tc_events::number_if;
use codec::{Asking, Reply, Request};
use dc_leaf::AnswerSink;
use node_laws::dc_core::{Device, Tended};
use node_laws::{Event, Out};
use record_key::{Key, OpRef, Refusal};
use stable::{CrashLog, CrashPages};
use std::alloc::Global;

impl<D: CrashLog, P: CrashPages> DataComponent<D, P> {
    /// One of its events that is neither a crash nor a restart; a Request event finds no request of its number.
    pub fn happen(&mut self, event: &Event, out: &mut Out)
        requires own { of_tc event.now ≡ false }
        requires stays { moves event.now ≡ false }
        ensures { DcGives (dc_of self.old) None event.now None out.new None (dc_of self.new) }
    {
        match event {
            Event::Split { key } => self.split(key, out),
            Event::Merge { key } => self.merge(key, out),
            Event::Tend => self.tend(out),
            Event::Flush { key } => self.flush(key, out),
            Event::Request { .. } => self.unsent(out),
            Event::FailDc { device, call } => self.fail(*device, *call, out),
            _ => unreachable!(),
        }
    }

    #[inline(never)]
    fn split(&mut self, key: &Key, out: &mut Out)
        ensures { DcCalls (dc_of self.old) (Event.Split key.now) out.new (dc_of self.new) }
    {
        match self {
            DataComponent::Up(dc) => *out = Out::Split(attempt!(out, dc.split(key))),
            DataComponent::Down(_) => *out = Out::Refused(Refusal::NotConnected),
        }
    }

    #[inline(never)]
    fn merge(&mut self, key: &Key, out: &mut Out)
        ensures { DcCalls (dc_of self.old) (Event.Merge key.now) out.new (dc_of self.new) }
    {
        match self {
            DataComponent::Up(dc) => *out = Out::Merged(attempt!(out, dc.merge(key))),
            DataComponent::Down(_) => *out = Out::Refused(Refusal::NotConnected),
        }
    }

    #[inline(never)]
    pub fn tend(&mut self, out: &mut Out)
        ensures { DcCalls (dc_of self.old) Event.Tend out.new (dc_of self.new) }
    {
        let DataComponent::Up(dc) = self else {
            *out = Out::Refused(Refusal::NotConnected);
            return;
        };
        match attempt!(out, dc.tend()) {
            Tended::Split(pair) => *out = Out::Split(pair),
            Tended::Merged(pair) => *out = Out::Merged(pair),
            Tended::Nothing => *out = Out::Nothing,
        }
    }

    #[inline(never)]
    fn flush(&mut self, key: &Key, out: &mut Out)
        ensures { DcCalls (dc_of self.old) (Event.Flush key.now) out.new (dc_of self.new) }
    {
        match self {
            DataComponent::Up(dc) => *out = Out::Flushed(attempt!(out, dc.flush(key))),
            DataComponent::Down(_) => *out = Out::Refused(Refusal::NotConnected),
        }
    }

    /// Serves a request that was sent. What is replied has the number `next`; where that is None there is no room for
    /// it.
    pub fn serve(
        &mut self,
        request: &Request,
        next: Option<u64>,
        reply: &mut Option<Reply>,
        out: &mut Out,
    )
        requires numbers { HasRequestNumbers request.now }
        requires owed { MayAsk (dc_of self.old).dc request.now }
        requires none { reply.old ≡ None }
        ensures { DcServes (dc_of self.old) next (Some request.now) out.new reply.new (dc_of self.new) }
    {
        let DataComponent::Up(dc) = self else {
            *out = Out::Refused(Refusal::NotConnected);
            return;
        };
        attempt!(out, dc.allows(request));
        let number = attempt!(out, number_if(has_reply(request), next));
        match attempt!(out, dc.serve_allowed(request)) {
            None => *out = Out::Noted,
            Some(given) => {
                *reply = Some(given);
                *out = Out::Replied(number);
            }
        }
    }

    /// The same of a request to perform, whose operation is apart. The answer goes into the sink, which is the reply; whether
    /// there is one.
    pub fn perform<S: AnswerSink>(
        &mut self,
        asking: Asking,
        op: &OpRef<'_>,
        next: Option<u64>,
        sink: &mut S,
        out: &mut Out,
    ) -> bool
        requires numbers { HasRequestNumbers (request_to asking (op_lent op.now)) }
        requires owed { MayAsk (dc_of self.old).dc (request_to asking (op_lent op.now)) }
        requires may_take { OnSome next (S.may_take sink.old asking.session asking.number) }
        ensures serves { DcServes (dc_of self.old) next (Some (request_to asking (op_lent op.now))) out.new
            (reply_if asking result (S.told sink.new)) (dc_of self.new) }
        ensures given { result ≡ true → S.takes sink.old asking.session asking.number (S.told sink.new) sink.new }
        ensures untold { result ≡ false → sink.new ≡ sink.old }
    {
        let DataComponent::Up(dc) = self else {
            *out = Out::Refused(Refusal::NotConnected);
            return false;
        };
        if let Err(refusal) = dc.allows_session(asking.session) {
            *out = Out::Refused(refusal);
            return false;
        }
        let Some(number) = next else {
            *out = Out::Refused(Refusal::NoMemory);
            return false;
        };
        match dc.perform(asking, op, sink) {
            Ok(()) => {
                *out = Out::Replied(number);
                true
            }
            Err(refusal) => {
                *out = Out::Refused(refusal);
                false
            }
        }
    }

    /// No request of the number was sent.
    fn unsent(&self, out: &mut Out)
        ensures { DcServes (dc_of self.now) None None out.new None (dc_of self.now) }
    {
        match self {
            DataComponent::Up(_) => *out = Out::Refused(Refusal::Unsent),
            DataComponent::Down(_) => *out = Out::Refused(Refusal::NotConnected),
        }
    }

    /// A failure of one of its devices is set.
    #[inline(never)]
    fn fail(&mut self, device: Device, call: u64, out: &mut Out)
        ensures { DcCalls (dc_of self.old) (Event.FailDc device call) out.new (dc_of self.new) }
    {
        if call == 0 {
            *out = Out::Nothing;
            return;
        }
        match self {
            DataComponent::Up(dc) => dc.fail_at(device, call),
            DataComponent::Down(stopped) => stopped.fail_at(device, call),
        }
        *out = Out::Set;
    }

    /// Its crash, as an event.
    #[inline(never)]
    pub fn fall(self, frames: u64, bytes: u64) -> (DataComponent<D, P>, Out)
        requires { IsRecoverable (dc_of self).dc.system }
        ensures { DcCalls (dc_of self) (Event.CrashDc frames bytes) result.1 (dc_of result.0) }
    {
        let (left, fell) = self.crash(frames, bytes);
        (left, if fell { Out::Down } else { Out::Nothing })
    }

    /// Its restart, as an event.
    #[inline(never)]
    pub fn rise(self, alloc: Global) -> (DataComponent<D, P>, Out)
        requires { IsRecoverable (dc_of self).dc.system }
        ensures { DcCalls (dc_of self) Event.RestartDc result.1 (dc_of result.0) }
    {
        let (component, restarted) = self.restart(alloc);
        let out = match restarted {
            Ok(Some(leaves)) => Out::Up(leaves as u64),
            Ok(None) => Out::Nothing,
            Err(refusal) => Out::Refused(refusal),
        };
        (component, out)
    }
}

/// Whether the data component replies to it.
fn has_reply(request: &Request) -> bool
    ensures { result ≡ is_replied_to request.now }
{
    !matches!(
        request,
        Request::LowWater { .. } | Request::StableEnd { .. }
    )
}
