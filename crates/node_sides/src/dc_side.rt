//! The data component as half of a node, which may also step alone: it is handed the requests that it serves, and hands
//! out its replies.
ghost use Rattle.std.specs.Prelude.{◌≡◌, true, false, Some, None, OnSome, OnOk, OnErr, IfOk, IfErr, MatchBool, if◌then◌else◌};
ghost use Rattle.std.specs.FinMap.{entries};
ghost use Rattle.std.specs.Option.{option_copied};
ghost use Rattle.record_key.specs.Lent.{op_lent};
ghost use Rattle.stable.specs.Usage.{IsToCome, unused};
ghost use Rattle.dc_tree.specs.Leaves.{rows_of};
ghost use Rattle.node_laws.specs.dc_store.specs.Kept.{IsRecoverable};
ghost use Rattle.codec.specs.Parted.{request_to};
ghost use Rattle.codec.specs.Requests.{HasRequestNumbers};
ghost use Rattle.node_laws.specs.dc_core.specs.DcView.{fresh_dc, leaves, value_at};
ghost use Rattle.node_laws.specs.dc_core.specs.Kept.{IsDc};
ghost use Rattle.node_laws.specs.dc_core.specs.Performing.{reply_if};
ghost use Rattle.node_laws.specs.dc_core.specs.Serves.{MayAsk, after_redo_refusal};
ghost use Rattle.node_laws.specs.Halves.{of_tc, moves, MayDc, DcLeads, DcGives, DcCalls, DcServes};

use crate::data_component::DataComponent;
use crate::put::put;
use codec::{Asking, Reply, Request};
use dc_leaf::AnswerSink;
use node_laws::dc_core::Dc;
use node_laws::{Event, Out};
use record_key::{Key, OpRef, Refusal, Value, ValueRef};
use stable::{CrashLog, CrashPages, MemLog, MemPages};
use std::alloc::Global;
use std::marker::Model;

/// The data component, which runs or is down.
#[derive(Drop)]
pub struct DcSide<D: CrashLog = MemLog, P: CrashPages = MemPages> {
    alloc: Global,
    // None only amid a crash or a restart.
    component: Option<DataComponent<D, P>>,
}

impl<D: CrashLog, P: CrashPages> Model for DcSide<D, P> {
    ghost use Rattle.std.specs.Coded.{codes};
    ghost use Rattle.record_key.specs.Table.{table_code};
    ghost use Rattle.node_laws.specs.dc_store.specs.SystemView.{pages_code};
    ghost use Rattle.node_laws.specs.Component as sides;

    ghost Value = { sides.DcSide };

    ghost coded = { Prim.hlevel (codes, table_code, pages_code) };

    ghost use Rattle.std.specs.Prelude.{IsSome};
    ghost use Rattle.node_laws.specs.dc_core.specs.Kept.{IsDc};
    ghost use Rattle.node_sides.specs.Seen.{dc_in};

    ghost view = { λ s. dc_in s.component };

    ghost invariant = { λ s. IsSome s.component × IsDc (dc_in s.component).dc };
}

impl DcSide<MemLog, MemPages> {
    /// One that runs, of no records, and has taken no session. Refused NoMemory.
    pub fn new(alloc: Global) -> Result<DcSide, Refusal>
        ensures fresh { IfOk result (λ side. side ≡ record { up = true; dc = fresh_dc unused unused }) }
        ensures memory { IfErr result (λ refusal. refusal ≡ Refusal.NoMemory) }
    {
        let dc = Dc::new(alloc, MemLog::new(alloc), MemPages::new(alloc))?;
        Ok(DcSide::of(alloc, dc))
    }
}

impl<D: CrashLog, P: CrashPages> DcSide<D, P> {
    /// This component, which runs.
    pub fn of(alloc: Global, dc: Dc<D, P>) -> DcSide<D, P>
        ensures { result ≡ record { up = true; dc = dc } }
    {
        dc.kept();
        DcSide {
            alloc,
            component: Some(DataComponent::Up(dc)),
        }
    }

    /// One event of the data component. A Request event delivers `request`; where that is None there is none of its
    /// number. What is replied has the number `next`, and is left in `reply`; where that number is None there is no room
    /// for it, and a request that has a reply is refused NoMemory.
    pub fn step(
        &mut self,
        event: &Event,
        request: Option<&Request>,
        next: Option<u64>,
        reply: &mut Option<Reply>,
    ) -> Out
        requires own { of_tc event.now ≡ false }
        requires may { MayDc self.old event.now (option_copied request) }
        requires none { reply.old ≡ None }
        ensures { DcLeads self.old next event.now (option_copied request.entry) result reply.new self.new }
    {
        let mut out = Out::Nothing;
        self.step_into(event, request, next, reply, &mut out);
        out
    }

    fn step_into(
        &mut self,
        event: &Event,
        request: Option<&Request>,
        next: Option<u64>,
        reply: &mut Option<Reply>,
        out: &mut Out,
    )
        requires own { of_tc event.now ≡ false }
        requires may { MayDc self.old event.now (option_copied request) }
        requires none { reply.old ≡ None }
        ensures { DcLeads self.old next event.now (option_copied request.entry) out.new reply.new self.new }
    {
        match event {
            Event::Request { .. } => match request {
                Some(request) => self.serve(request, next, reply, out),
                None => self.call(event, out),
            },
            _ => self.call(event, out),
        }
    }

    /// One event; a Request event finds no request of its number.
    pub fn call(&mut self, event: &Event, out: &mut Out)
        requires own { of_tc event.now ≡ false }
        requires may { MayDc self.old event.now None }
        ensures { DcLeads self.old None event.now None out.new None self.new }
    {
        match event {
            Event::CrashDc { frames, bytes } => *out = self.fall(*frames, *bytes),
            Event::RestartDc => *out = self.rise(),
            _ => self.happen(event, out),
        }
    }

    fn happen(&mut self, event: &Event, out: &mut Out)
        requires own { of_tc event.now ≡ false }
        requires stays { moves event.now ≡ false }
        ensures gives { DcGives self.old None event.now None out.new None self.new }
        ensures kept { IsDc self.new.dc }
    {
        let Some(component) = &mut self.component else {
            unreachable!();
        };
        component.happen(event, out);
        component.kept();
    }

    fn fall(&mut self, frames: u64, bytes: u64) -> Out
        requires { IsRecoverable self.old.dc.system }
        ensures calls { DcCalls self.old (Event.CrashDc frames bytes) result self.new }
        ensures kept { IsDc self.new.dc }
    {
        let Some(component) = self.component.take() else {
            unreachable!();
        };
        let (component, out) = component.fall(frames, bytes);
        component.kept();
        put(&mut self.component, component);
        out
    }

    fn rise(&mut self) -> Out
        requires { IsRecoverable self.old.dc.system }
        ensures calls { DcCalls self.old Event.RestartDc result self.new }
        ensures kept { IsDc self.new.dc }
    {
        let Some(component) = self.component.take() else {
            unreachable!();
        };
        let (component, out) = component.rise(self.alloc);
        component.kept();
        put(&mut self.component, component);
        out
    }

    /// A Tend event.
    #[inline(always)]
    pub fn tend(&mut self, out: &mut Out)
        ensures calls { DcCalls self.old Event.Tend out.new self.new }
        ensures kept { IsDc self.new.dc }
    {
        let Some(component) = &mut self.component else {
            unreachable!();
        };
        component.tend(out);
        component.kept();
    }

    /// A Request event that finds this one.
    pub fn serve(
        &mut self,
        request: &Request,
        next: Option<u64>,
        reply: &mut Option<Reply>,
        out: &mut Out,
    )
        requires numbers { HasRequestNumbers request.now }
        requires owed { MayAsk self.old.dc request.now }
        requires none { reply.old ≡ None }
        ensures serves { DcServes self.old next (Some request.now) out.new reply.new self.new }
        ensures kept { IsDc self.new.dc }
    {
        let Some(component) = &mut self.component else {
            unreachable!();
        };
        component.serve(request, next, reply, out);
        component.kept();
    }

    /// A Request event that finds a request to perform, whose operation is apart. The answer goes into the sink, which is
    /// the reply; whether there is one.
    pub fn perform<S: AnswerSink>(
        &mut self,
        asking: Asking,
        op: &OpRef<'_>,
        next: Option<u64>,
        sink: &mut S,
        out: &mut Out,
    ) -> bool
        requires numbers { HasRequestNumbers (request_to asking (op_lent op.now)) }
        requires owed { MayAsk self.old.dc (request_to asking (op_lent op.now)) }
        requires may_take { OnSome next (S.may_take sink.old asking.session asking.number) }
        ensures serves { DcServes self.old next (Some (request_to asking (op_lent op.now))) out.new
            (reply_if asking result (S.told sink.new)) self.new }
        ensures given { result ≡ true → S.takes sink.old asking.session asking.number (S.told sink.new) sink.new }
        ensures untold { result ≡ false → sink.new ≡ sink.old }
        ensures kept { IsDc self.new.dc }
    {
        let Some(component) = &mut self.component else {
            unreachable!();
        };
        let replied = component.perform(asking, op, next, sink, out);
        component.kept();
        replied
    }

    /// What a read of this key by this session finds. Refused NotConnected where the component is down, else as it says.
    pub fn get(&self, session: u64, key: &Key) -> Result<Option<ValueRef<'_>>, Refusal>
        ensures found { IfOk result (λ value. value ≡ value_at self.now.dc key.now) }
        ensures up { OnOk result (self.now.up ≡ true) }
        ensures allowed { OnOk result (after_redo_refusal self.now.dc session ≡ None) }
        ensures refused { IfErr result (λ refusal. MatchBool self.now.up
            (after_redo_refusal self.now.dc session ≡ Some refusal) (refusal ≡ Refusal.NotConnected)) }
    {
        Ok(self.running()?.get(session, key)?)
    }

    /// What holds at every moment.
    pub fn kept(&self)
        ensures { IsDc self.now.dc }
    {
        let _ = &self.component;
    }

    /// What holds at every moment: a failure of a device that was set is still to come.
    pub fn to_come(&self)
        ensures log { IsToCome self.now.dc.system.log_usage }
        ensures pages { IsToCome self.now.dc.system.page_usage }
    {
        let Some(component) = &self.component else {
            unreachable!();
        };
        component.to_come();
    }

    /// Whether it runs.
    pub fn is_up(&self) -> bool
        ensures { result ≡ self.now.up }
    {
        matches!(self.component, Some(DataComponent::Up(_)))
    }

    /// The component, where it runs. Refused NotConnected.
    pub fn running(&self) -> Result<&Dc<D, P>, Refusal>
        ensures up { OnOk result (self.now.up ≡ true) }
        ensures dc { IfOk result (λ dc. dc.now ≡ self.now.dc) }
        ensures refused { IfErr result (λ refusal. refusal ≡ Refusal.NotConnected) }
        ensures down { OnErr result (self.now.up ≡ false) }
    {
        match &self.component {
            Some(DataComponent::Up(dc)) => Ok(dc),
            Some(DataComponent::Down(_)) | None => Err(Refusal::NotConnected),
        }
    }

    /// The session that runs, 0 if none. Refused NotConnected where the component is down.
    pub fn session(&self) -> Result<u64, Refusal>
        ensures session { IfOk result (λ session. session ≡ self.now.dc.session) }
        ensures up { OnOk result (self.now.up ≡ true) }
        ensures refused { IfErr result (λ refusal. refusal ≡ Refusal.NotConnected) }
        ensures down { OnErr result (self.now.up ≡ false) }
    {
        Ok(self.running()?.session())
    }

    /// Copies of the records, in key order. Refused NotConnected where the component is down, NoMemory.
    pub fn rows(&self) -> Result<Vec<(Key, Value)>, Refusal>
        ensures rows { IfOk result (λ rows. rows.items ≡ entries (rows_of (leaves self.now.dc))) }
        ensures up { OnOk result (self.now.up ≡ true) }
        ensures refused { IfErr result (λ refusal.
            refusal ≡ (if self.now.up then Refusal.NoMemory else Refusal.NotConnected)) }
    {
        self.kept();
        Ok(self.running()?.rows()?)
    }
}
