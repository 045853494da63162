//! The two components, and the messages between them.
ghost use Rattle.std.specs.Prelude.{◌≡◌, true, [], None, IfOk, IfErr, IfSome, IfNone, OnSome};
ghost use Rattle.node_sides.specs.node_laws.specs.Node.{fresh_node, StepsTo};
ghost use Rattle.node_sides.specs.dc_core.specs.Kept.{IsDc};
ghost use Rattle.node_sides.specs.tc_core.specs.Kept.{IsTc};
ghost use Rattle.node_sides.specs.node_laws.specs.Halves.{node_of, of_tc, IsNextNumber, BringsReply};
ghost use Rattle.node_sides.specs.node_laws.specs.Kept.{IsKept};
ghost use Rattle.node_world.specs.Seen.{seen};
ghost use Rattle.record_key.specs.Lent.{op_lent};
ghost use Rattle.codec.specs.Parted.{get_of, request_to};
ghost use Rattle.codec.specs.Requests.{IsRequest};
ghost use Rattle.node_sides.specs.dc_core.specs.Serves.{MayAsk};
ghost use Rattle.node_world.specs.Served.{ServesRequest};

use crate::attempt::attempt;
use crate::parts::{GetParts, PerformParts, RowParts};
use crate::sent::{Asked, Said, Sent};
use codec::{Asking, Reading, Reply, Request};
use node_sides::node_laws::{Event, Out};
use node_sides::{DcSide, TcSide};
use record_key::{Key, OpRef, Refusal};
use stable::{CrashLog, CrashPages, MemLog, MemPages};
use std::alloc::Global;

/// A transaction component and a data component with their devices, and every message that was sent and not let go.
#[derive(Drop)]
pub struct Node<D: CrashLog, P: CrashPages> {
    pub tc: TcSide<D>,
    pub dc: DcSide<D, P>,
    pub requests: Sent<Request>,
    pub replies: Sent<Reply>,
}

impl Node<MemLog, MemPages> {
    pub fn new(alloc: Global) -> Result<Node<MemLog, MemPages>, Refusal>
        ensures fresh { IfOk result (λ node. seen node ≡ fresh_node) }
        ensures dc { IfOk result (λ node. IsDc (seen node).dc) }
        ensures memory { IfErr result (λ refusal. refusal ≡ Refusal.NoMemory) }
    {
        let dc = DcSide::new(alloc)?;
        dc.kept();
        Ok(Node::of(alloc, TcSide::new(alloc), dc))
    }
}

impl<D: CrashLog, P: CrashPages> Node<D, P> {
    /// Two components, between which nothing was sent.
    pub fn of(alloc: Global, tc: TcSide<D>, dc: DcSide<D, P>) -> Node<D, P>
        ensures { seen result ≡ node_of tc dc [] [] }
    {
        Node {
            tc,
            dc,
            requests: Sent::new(alloc),
            replies: Sent::new(alloc),
        }
    }

    /// One event.
    pub fn step(&mut self, event: &Event, out: &mut Out)
        requires { IsKept (seen self.old) }
        ensures step { StepsTo (seen self.old) event.now out.new (seen self.new) }
        ensures tc { IsTc (seen self.new).tc }
        ensures dc { IsDc (seen self.new).dc }
    {
        self.happen(event, out);
        self.tc.kept();
        self.dc.kept();
    }

    fn happen(&mut self, event: &Event, out: &mut Out)
        requires { IsKept (seen self.old) }
        ensures { StepsTo (seen self.old) event.now out.new (seen self.new) }
    {
        match event {
            Event::Reply { number } => self.take(*number, out),
            Event::Request { number } => self.serve(*number, out),
            Event::Send { txn } => self.send(*txn, event, out),
            Event::Recover => self.recover(event, out),
            Event::Act { txn, op } => self.tc.act(*txn, op, out),
            Event::Get { txn, key } => self.tc.get(*txn, key, out),
            Event::Undo { txn } => self.tc.undo(*txn, out),
            Event::Force => self.tc.force(out),
            Event::Tend => self.dc.tend(out),
            _ if event.is_of_tc() => self.call(event, out),
            _ => self.dc.call(event, out),
        }
    }

    /// An event of the transaction component that takes no reply.
    #[inline(never)]
    fn call(&mut self, event: &Event, out: &mut Out)
        requires own { of_tc event.now ≡ true }
        requires alone { BringsReply (seen self.old).replies event.now None }
        ensures { StepsTo (seen self.old) event.now out.new (seen self.new) }
    {
        let next = next_of(&mut self.requests, event);
        let mut request = None;
        self.tc.call(event, next, &mut request, out);
        if let Some(request) = &request {
            self.requests.push_reserved(request);
        }
    }

    /// The transaction's request is sent, as the event says.
    #[inline(never)]
    fn send(&mut self, txn: u64, event: &Event, out: &mut Out)
        requires { event.now ≡ Event.Send txn }
        ensures { StepsTo (seen self.old) event.now out.new (seen self.new) }
    {
        let sent = match self.send_op(txn) {
            Some(number) => Some(number),
            None => self.send_get(txn),
        };
        match sent {
            Some(number) => *out = Out::Sent(number),
            None => self.call(event, out),
        }
    }

    /// The same of a read of one key.
    fn send_get(&mut self, txn: u64) -> Option<u64>
        ensures sent { IfSome result (λ number. StepsTo (seen self.old) (Event.Send txn) (Out.Sent number) (seen self.new)) }
        ensures unsent { IfNone result (seen self.new ≡ seen self.old) }
    {
        let Ok(tc) = self.tc.running() else {
            return None;
        };
        tc.kept();
        let (read, key) = tc.awaited_key(txn)?;
        let next = self.requests.next()?;
        let reading = Reading {
            session: tc.session(),
            read,
        };
        self.requests.push_reserved(&GetParts { reading, key });
        Some(next)
    }

    /// The operation that the transaction waits for is sent, as the bytes that stand in the log; the request's number.
    /// None where it waits for none or there is no room, and nothing is sent then.
    fn send_op(&mut self, txn: u64) -> Option<u64>
        ensures sent { IfSome result (λ number. StepsTo (seen self.old) (Event.Send txn) (Out.Sent number) (seen self.new)) }
        ensures unsent { IfNone result (seen self.new ≡ seen self.old) }
    {
        let Ok(tc) = self.tc.running() else {
            return None;
        };
        tc.kept();
        let (number, op) = tc.awaited_op(txn)?;
        let next = self.requests.next()?;
        let asking = Asking {
            session: tc.session(),
            number,
            stable: tc.stable_end(),
        };
        self.requests.push_reserved(&PerformParts { asking, op });
        Some(next)
    }

    /// A step of recovery, as the event says.
    #[inline(never)]
    fn recover(&mut self, event: &Event, out: &mut Out)
        requires { event.now ≡ Event.Recover }
        ensures { StepsTo (seen self.old) event.now out.new (seen self.new) }
    {
        match self.recover_op() {
            Some(number) => *out = Out::Sent(number),
            None => self.call(event, out),
        }
    }

    /// The operation that recovery sends is sent, as the bytes that stand in the log; the request's number. None where it
    /// sends none or there is no room, and nothing is sent then.
    fn recover_op(&mut self) -> Option<u64>
        ensures sent { IfSome result (λ number. StepsTo (seen self.old) Event.Recover (Out.Sent number) (seen self.new)) }
        ensures unsent { IfNone result (seen self.new ≡ seen self.old) }
    {
        let next = self.requests.next()?;
        self.tc.kept();
        let number = self.tc.recover_op()?;
        let Ok(tc) = self.tc.running() else {
            unreachable!();
        };
        let Some(op) = tc.asked_bytes(number) else {
            unreachable!();
        };
        let asking = Asking {
            session: tc.session(),
            number,
            stable: tc.stable_end(),
        };
        self.requests.push_reserved(&PerformParts { asking, op });
        Some(next)
    }

    /// The reply of this number reaches the transaction component.
    #[inline(never)]
    fn take(&mut self, number: u64, out: &mut Out)
        ensures { StepsTo (seen self.old) (Event.Reply number) out.new (seen self.new) }
    {
        let session = attempt!(out, self.tc.session());
        let (mut value, mut other) = (None, None);
        let said = attempt!(
            out,
            self.replies.read(number, session, &mut value, &mut other)
        );
        match (said, other) {
            (Said::Answered(of, answer), _) => self.tc.hear(of, answer.as_ref(), out),
            (Said::Found(read), _) => self.tc.find(read, &mut value, out),
            (Said::Other, Some(reply)) => self.tc.take(reply, out),
            (Said::Other, None) => unreachable!(),
        }
    }

    /// The request of this number reaches the data component.
    #[inline(never)]
    fn serve(&mut self, number: u64, out: &mut Out)
        requires { IsKept (seen self.old) }
        ensures { StepsTo (seen self.old) (Event.Request number) out.new (seen self.new) }
    {
        if !self.dc.is_up() {
            *out = Out::Refused(Refusal::NotConnected);
            return;
        }
        let (mut key, mut other) = (None, None);
        let asked = attempt!(out, self.requests.read(number, &mut key, &mut other));
        let (dc, replies) = (&mut self.dc, &mut self.replies);
        match (asked, &key, &other) {
            (Asked::Perform(asking, change), Some(key), _) => {
                serve_op(dc, replies, asking, &OpRef { key, change }, out);
            }
            (Asked::Get(reading), Some(key), _) => serve_get(dc, replies, reading, key, out),
            (Asked::Other, _, Some(request)) => serve_other(dc, replies, request, out),
            _ => unreachable!(),
        }
    }
}

/// The data component is to read this key.
fn serve_get<D: CrashLog, P: CrashPages>(
    dc: &mut DcSide<D, P>,
    replies: &mut Sent<Reply>,
    reading: Reading,
    key: &Key,
    out: &mut Out,
)
    requires spelled { IsRequest (get_of reading key.now) }
    ensures { ServesRequest dc.old replies.old.messages (get_of reading key.now) out.new dc.new replies.new.messages }
{
    let next = replies.next();
    let value = attempt!(out, dc.get(reading.session, key));
    let reply = attempt!(out, next.ok_or(Refusal::NoMemory));
    replies.push_reserved(&RowParts { reading, value });
    *out = Out::Replied(reply);
}

/// It is to perform this operation. Its answer goes from the leaf into the reply.
fn serve_op<D: CrashLog, P: CrashPages>(
    dc: &mut DcSide<D, P>,
    replies: &mut Sent<Reply>,
    asking: Asking,
    op: &OpRef<'_>,
    out: &mut Out,
)
    requires spelled { IsRequest (request_to asking (op_lent op.now)) }
    requires owed { MayAsk dc.old.dc (request_to asking (op_lent op.now)) }
    ensures { ServesRequest dc.old replies.old.messages (request_to asking (op_lent op.now)) out.new dc.new replies.new.messages }
{
    let next = replies.next();
    let _replied = dc.perform(asking, op, next, replies, out);
}

/// It is asked something else.
fn serve_other<D: CrashLog, P: CrashPages>(
    dc: &mut DcSide<D, P>,
    replies: &mut Sent<Reply>,
    request: &Request,
    out: &mut Out,
)
    requires spelled { IsRequest request.now }
    requires owed { MayAsk dc.old.dc request.now }
    ensures { ServesRequest dc.old replies.old.messages request.now out.new dc.new replies.new.messages }
{
    let next = replies.next();
    let mut reply = None;
    dc.serve(request, next, &mut reply, out);
    let Some(reply) = &reply else {
        return;
    };
    // Only rows may lack room, and whoever reads them changes nothing.
    attempt!(out, replies.push(reply));
}

/// The number of the request that the event may send; room for it is made.
fn next_of(requests: &mut Sent<Request>, event: &Event) -> Option<u64>
    ensures same { requests.new.messages ≡ requests.old.messages }
    ensures number { IsNextNumber requests.old.messages result }
    ensures room { OnSome result (requests.new.has_room ≡ true) }
{
    match event {
        Event::Reconnect
        | Event::Recover
        | Event::Send { .. }
        | Event::LowWater { .. }
        | Event::Checkpoint
        | Event::Tell => requests.next(),
        _ => None,
    }
}
