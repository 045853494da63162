//! The transaction component as half of a node, which may also step alone: it is handed the replies that it takes, and
//! hands out the requests that it sends.
ghost use Rattle.std.specs.Prelude.{◌≡◌, ◌≤◌, ℕ, true, false, length, Some, None, OnOk, OnErr, IfOk, IfErr, IfSome, IfNone};
ghost use Rattle.stable.specs.Usage.{IsToCome, unused};
ghost use Rattle.framed_log.specs.Beginning.{beginning};
ghost use Rattle.tc_log.specs.Spelled.{spelled};
ghost use Rattle.std.specs.Option.{option_copied, option_map};
ghost use Rattle.codec.specs.Given.{answer_given};
ghost use Rattle.codec.specs.declared.reply.Reply.TheVariants as says;
ghost use Rattle.node_laws.specs.tc_core.specs.Kept.{IsTc};
ghost use Rattle.node_laws.specs.tc_core.specs.Replies.{is_of_another};
ghost use Rattle.node_laws.specs.tc_core.specs.LowWater.{IsGreatestAnnounced};
ghost use Rattle.node_laws.specs.tc_core.specs.Recovery.{SendsOp};
ghost use Rattle.node_laws.specs.tc_core.specs.TcView.{TcView, fresh_tc};
ghost use Rattle.node_laws.specs.Component.{LeavesBytes};
ghost use Rattle.node_laws.specs.Halves.{of_tc, moves, TcLeads, TcCalls, TcTakes};

use crate::crashing::cut_after;
use crate::put::put;
use crate::transaction_component::TransactionComponent;
use codec::{GivenAnswer, Reply, Request};
use node_laws::tc_core::{Phase, Tc};
use node_laws::{Event, Out};
use record_key::{Key, Op, Refusal, Value};
use stable::{CrashLog, MemLog};
use std::alloc::Global;
use std::marker::Model;

/// The transaction component, which runs or is down.
#[derive(Drop)]
pub struct TcSide<D: CrashLog = MemLog> {
    alloc: Global,
    // None only amid a crash or a restart.
    component: Option<TransactionComponent<D>>,
}

impl<D: CrashLog> Model for TcSide<D> {
    ghost use Rattle.node_laws.specs.Component as sides;

    ghost Value = { sides.TcSide };

    ghost use Rattle.std.specs.Prelude.{IsSome};
    ghost use Rattle.node_laws.specs.tc_core.specs.Kept.{IsTc};
    ghost use Rattle.node_sides.specs.Seen.{tc_in};

    ghost view = { λ s. tc_in s.component };

    ghost invariant = { λ s. IsSome s.component × IsTc (tc_in s.component).tc };
}

impl TcSide<MemLog> {
    /// One that runs, with an empty log and no session.
    pub fn new(alloc: Global) -> TcSide
        ensures { result ≡ record { up = true; tc = fresh_tc unused } }
    {
        TcSide::of(alloc, Tc::new(alloc, MemLog::new(alloc)))
    }
}

impl<D: CrashLog> TcSide<D> {
    /// This component, which runs.
    pub fn of(alloc: Global, tc: Tc<D>) -> TcSide<D>
        ensures { result ≡ record { up = true; tc = tc } }
    {
        tc.kept();
        TcSide {
            alloc,
            component: Some(TransactionComponent::Up(tc)),
        }
    }

    /// One event of the transaction component. A Reply event delivers `reply`; where that is None there is none of its
    /// number. What is sent has the number `next`, and is left in `request`; where that number is None there is no room
    /// for it, and an event that sends is refused NoMemory.
    pub fn step(
        &mut self,
        event: &Event,
        reply: Option<Reply>,
        next: Option<u64>,
        request: &mut Option<Request>,
    ) -> Out
        requires own { of_tc event.now ≡ true }
        requires none { request.old ≡ None }
        ensures { TcLeads self.old next event.now reply result request.new self.new }
    {
        let mut out = Out::Nothing;
        self.step_into(event, reply, next, request, &mut out);
        out
    }

    fn step_into(
        &mut self,
        event: &Event,
        reply: Option<Reply>,
        next: Option<u64>,
        request: &mut Option<Request>,
        out: &mut Out,
    )
        requires own { of_tc event.now ≡ true }
        requires none { request.old ≡ None }
        ensures { TcLeads self.old next event.now reply out.new request.new self.new }
    {
        match event {
            Event::Reply { .. } => match reply {
                Some(reply) => self.take(reply, out),
                None => self.call(event, next, request, out),
            },
            _ => self.call(event, next, request, out),
        }
    }

    /// One event; a Reply event finds no reply of its number.
    pub fn call(
        &mut self,
        event: &Event,
        next: Option<u64>,
        request: &mut Option<Request>,
        out: &mut Out,
    )
        requires own { of_tc event.now ≡ true }
        requires none { request.old ≡ None }
        ensures { TcLeads self.old next event.now None out.new request.new self.new }
    {
        match event {
            Event::CrashTc { frames, bytes } => *out = self.fall(*frames, *bytes),
            Event::RestartTc => *out = self.rise(),
            _ => self.happen(event, next, request, out),
        }
    }

    fn happen(
        &mut self,
        event: &Event,
        next: Option<u64>,
        request: &mut Option<Request>,
        out: &mut Out,
    )
        requires own { of_tc event.now ≡ true }
        requires stays { moves event.now ≡ false }
        requires none { request.old ≡ None }
        ensures { TcLeads self.old next event.now None out.new request.new self.new }
    {
        let Some(component) = &mut self.component else {
            unreachable!();
        };
        component.happen(event, next, request, out);
        component.kept();
    }

    fn fall(&mut self, frames: u64, bytes: u64) -> Out
        ensures calls { TcCalls self.old (Event.CrashTc frames bytes) result self.new }
        ensures kept { IsTc self.new.tc }
    {
        let Some(component) = self.component.take() else {
            unreachable!();
        };
        let (component, out) = component.fall(frames, bytes);
        component.kept();
        put(&mut self.component, component);
        out
    }

    fn rise(&mut self) -> Out
        ensures calls { TcCalls self.old Event.RestartTc result self.new }
        ensures kept { IsTc self.new.tc }
    {
        let Some(component) = self.component.take() else {
            unreachable!();
        };
        let (component, out) = component.rise(self.alloc);
        component.kept();
        put(&mut self.component, component);
        out
    }

    /// An Act event. This and the next three come for each operation, so whoever has one needn't ask again which it is.
    #[inline(always)]
    pub fn act(&mut self, txn: u64, op: &Op, out: &mut Out)
        ensures calls { TcCalls self.old (Event.Act txn op.now) out.new self.new }
        ensures kept { IsTc self.new.tc }
    {
        let Some(component) = &mut self.component else {
            unreachable!();
        };
        component.act(txn, op, out);
        component.kept();
    }

    /// A Get event.
    #[inline(always)]
    pub fn get(&mut self, txn: u64, key: &Key, out: &mut Out)
        ensures calls { TcCalls self.old (Event.Get txn key.now) out.new self.new }
        ensures kept { IsTc self.new.tc }
    {
        let Some(component) = &mut self.component else {
            unreachable!();
        };
        component.get(txn, key, out);
        component.kept();
    }

    /// An Undo event.
    #[inline(always)]
    pub fn undo(&mut self, txn: u64, out: &mut Out)
        ensures calls { TcCalls self.old (Event.Undo txn) out.new self.new }
        ensures kept { IsTc self.new.tc }
    {
        let Some(component) = &mut self.component else {
            unreachable!();
        };
        component.undo(txn, out);
        component.kept();
    }

    /// A Force event.
    #[inline(always)]
    pub fn force(&mut self, out: &mut Out)
        ensures calls { TcCalls self.old Event.Force out.new self.new }
        ensures kept { IsTc self.new.tc }
    {
        let Some(component) = &mut self.component else {
            unreachable!();
        };
        component.force(out);
        component.kept();
    }

    /// A Reply event that finds this one.
    pub fn take(&mut self, reply: Reply, out: &mut Out)
        ensures takes { TcTakes self.old (Some reply) out.new self.new }
        ensures kept { IsTc self.new.tc }
    {
        let Some(component) = &mut self.component else {
            unreachable!();
        };
        component.take(reply, out);
        component.kept();
    }

    /// A Reply event that finds one which answers the operation of this number, and whose answer is apart.
    pub fn hear(&mut self, number: u64, answer: Option<&GivenAnswer<'_>>, out: &mut Out)
        ensures takes { (session : ℕ) → is_of_another self.old.tc.session session ≡ false
            → TcTakes self.old (Some (says.Answered session number (option_map answer_given (option_copied answer.entry))))
            out.new self.new }
        ensures kept { IsTc self.new.tc }
    {
        let Some(component) = &mut self.component else {
            unreachable!();
        };
        component.hear(number, answer, out);
        component.kept();
    }

    /// The same of one that replies to the read of this number, and whose value is apart.
    pub fn find(&mut self, read: u64, value: &mut Option<Value>, out: &mut Out)
        ensures takes { (session : ℕ) → is_of_another self.old.tc.session session ≡ false
            → TcTakes self.old (Some (says.Row session read value.old)) out.new self.new }
        ensures kept { IsTc self.new.tc }
    {
        let Some(component) = &mut self.component else {
            unreachable!();
        };
        component.find(read, value, out);
        component.kept();
    }

    /// What a Recover event does where it sends an operation, for a caller that sends it as its bytes: its number. None
    /// where the event sends none, and nothing changes.
    pub fn recover_op(&mut self) -> Option<u64>
        ensures up { IfSome result (λ _. (self.old.up ≡ true) × (self.new.up ≡ true)) }
        ensures sent { IfSome result (λ number. SendsOp self.old.tc number self.new.tc) }
        ensures same { IfNone result (self.new ≡ self.old) }
        ensures none { IfNone result (self.old.up ≡ true → (number : ℕ) (new : TcView)
            → SendsOp self.old.tc number new → ⊥) }
    {
        let Some(component) = &mut self.component else {
            unreachable!();
        };
        let number = component.recover_op();
        component.kept();
        number
    }

    /// What holds at every moment.
    pub fn kept(&self)
        ensures { IsTc self.now.tc }
    {
        let _ = &self.component;
    }

    /// What holds at every moment: a failure of the device that was set is still to come.
    pub fn to_come(&self)
        ensures { IsToCome self.now.tc.usage }
    {
        let Some(component) = &self.component else {
            unreachable!();
        };
        component.to_come();
    }

    /// Whether it runs.
    pub fn is_up(&self) -> bool
        ensures { result ≡ self.now.up }
    {
        matches!(self.component, Some(TransactionComponent::Up(_)))
    }

    /// The component, where it runs. Refused NotConnected.
    pub fn running(&self) -> Result<&Tc<D>, Refusal>
        ensures up { OnOk result (self.now.up ≡ true) }
        ensures tc { IfOk result (λ tc. tc.now ≡ self.now.tc) }
        ensures refused { IfErr result (λ refusal. refusal ≡ Refusal.NotConnected) }
        ensures down { OnErr result (self.now.up ≡ false) }
    {
        match &self.component {
            Some(TransactionComponent::Up(tc)) => Ok(tc),
            Some(TransactionComponent::Down(_)) | None => Err(Refusal::NotConnected),
        }
    }

    /// How far the session has come. Refused NotConnected where the component is down; so are the next six.
    pub fn phase(&self) -> Result<Phase, Refusal>
        ensures phase { IfOk result (λ phase. phase ≡ self.now.tc.phase) }
        ensures up { OnOk result (self.now.up ≡ true) }
        ensures refused { IfErr result (λ refusal. refusal ≡ Refusal.NotConnected) }
        ensures down { OnErr result (self.now.up ≡ false) }
    {
        Ok(self.running()?.phase())
    }

    /// The number of the latest session, 0 if there is none.
    pub fn session(&self) -> Result<u64, Refusal>
        ensures session { IfOk result (λ session. session ≡ self.now.tc.session) }
        ensures up { OnOk result (self.now.up ≡ true) }
        ensures refused { IfErr result (λ refusal. refusal ≡ Refusal.NotConnected) }
        ensures down { OnErr result (self.now.up ≡ false) }
    {
        Ok(self.running()?.session())
    }

    /// The number up to which records are stable.
    pub fn stable_end(&self) -> Result<u64, Refusal>
        ensures end { IfOk result (λ end. end ≡ self.now.tc.stable) }
        ensures up { OnOk result (self.now.up ≡ true) }
        ensures refused { IfErr result (λ refusal. refusal ≡ Refusal.NotConnected) }
        ensures down { OnErr result (self.now.up ≡ false) }
    {
        Ok(self.running()?.stable_end())
    }

    /// How many records the log has.
    pub fn records(&self) -> Result<u64, Refusal>
        ensures count { IfOk result (λ count. count ≡ length self.now.tc.log) }
        ensures up { OnOk result (self.now.up ≡ true) }
        ensures refused { IfErr result (λ refusal. refusal ≡ Refusal.NotConnected) }
        ensures down { OnErr result (self.now.up ≡ false) }
    {
        Ok(self.running()?.records())
    }

    /// What a crash is to be asked for, so that the first bytes of what isn't stable of the log are left, so many, or all
    /// of it: how many whole records, and how many bytes of the next one.
    pub fn cut_after(&self, kept: u64) -> Result<(u64, u64), Refusal>
        ensures leaves { IfOk result (λ cut. LeavesBytes self.now.tc kept cut.0 cut.1) }
        ensures up { OnOk result (self.now.up ≡ true) }
        ensures refused { IfErr result (λ refusal. refusal ≡ Refusal.NotConnected) }
        ensures down { OnErr result (self.now.up ≡ false) }
    {
        Ok(cut_after(self.running()?, kept))
    }

    /// The bytes of the stable records.
    pub fn stable_bytes(&self) -> Result<&[u8], Refusal>
        ensures bytes { IfOk result (λ bytes. bytes.now ≡ spelled (beginning self.now.tc.log self.now.tc.stable)) }
        ensures up { OnOk result (self.now.up ≡ true) }
        ensures refused { IfErr result (λ refusal. refusal ≡ Refusal.NotConnected) }
        ensures down { OnErr result (self.now.up ≡ false) }
    {
        Ok(self.running()?.stable_bytes())
    }

    /// The greatest number that a LowWater may announce, 0 where clients aren't served.
    pub fn greatest_low(&self) -> Result<u64, Refusal>
        ensures low { IfOk result (IsGreatestAnnounced self.now.tc) }
        ensures up { OnOk result (self.now.up ≡ true) }
        ensures refused { IfErr result (λ refusal. refusal ≡ Refusal.NotConnected) }
        ensures down { OnErr result (self.now.up ≡ false) }
    {
        Ok(self.running()?.greatest_low())
    }
}
