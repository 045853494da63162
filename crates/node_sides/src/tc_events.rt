//! The calls of the transaction component, and the messages that they send and take.
ghost use Rattle.std.specs.Prelude.{◌≡◌, ℕ, true, false, Some, None, IfOk, IfErr, IfSome, IfNone};
ghost use Rattle.std.specs.Option.{option_copied, option_map};
ghost use Rattle.codec.specs.Given.{answer_given};
ghost use Rattle.codec.specs.declared.reply.Reply.TheVariants as says;
ghost use Rattle.node_laws.specs.tc_core.specs.Heard.{told_with};
ghost use Rattle.node_laws.specs.tc_core.specs.Recovery.{SendsOp};
ghost use Rattle.node_laws.specs.tc_core.specs.Replies.{is_of_another};
ghost use Rattle.node_laws.specs.tc_core.specs.TcView.{TcView};
ghost use Rattle.node_laws.specs.Halves.{of_tc, moves, HasRoom, IsSpelledIf, TcGives, TcCalls, TcSends, TcTakes};
ghost use Rattle.node_laws.specs.Node.{down_refusal, as_out, sends_at};
ghost use Rattle.node_sides.specs.Seen.{tc_of};

use crate::attempt::attempt;
use crate::transaction_component::TransactionComponent;
use codec::{GivenAnswer, Reply, Request};
use node_laws::tc_core::{Forced, Heard, Phase, RecoverStep, Told, UndoStep};
use node_laws::{Event, Out};
use record_key::{Key, Op, Refusal, Value};
use stable::CrashLog;
use std::alloc::Global;
use tc_locks::Span;

impl<D: CrashLog> TransactionComponent<D> {
    /// One of its events that is neither a crash nor a restart; a Reply event finds no reply of its number. What is sent
    /// has the number `next`; where that is None there is no room for it.
    pub fn happen(
        &mut self,
        event: &Event,
        next: Option<u64>,
        request: &mut Option<Request>,
        out: &mut Out,
    )
        requires own { of_tc event.now ≡ true }
        requires stays { moves event.now ≡ false }
        requires none { request.old ≡ None }
        ensures gives { TcGives (tc_of self.old) next event.now None out.new request.new (tc_of self.new) }
        ensures spelled { IsSpelledIf request.new }
        ensures room { HasRoom next request.new }
    {
        match event {
            Event::Reconnect => self.reconnect(next, request, out),
            Event::Recover => self.recover(next, request, out),
            Event::Begin => self.begin(out),
            Event::Act { txn, op } => self.act(*txn, op, out),
            Event::Get { txn, key } => self.get(*txn, key, out),
            Event::Scan { txn, low, high } => self.scan(*txn, low, high, out),
            Event::Save { txn } => self.save(*txn, out),
            Event::GoBack { txn, savepoint } => self.go_back(*txn, *savepoint, out),
            Event::Rollback { txn } => self.rollback(*txn, out),
            Event::Commit { txn } => self.commit(*txn, out),
            Event::Undo { txn } => self.undo(*txn, out),
            Event::Force => self.force(out),
            Event::Send { txn } => self.send(*txn, next, request, out),
            Event::LowWater { low } => self.low_water(*low, next, request, out),
            Event::Checkpoint => self.checkpoint(next, request, out),
            Event::Tell => self.tell(next, request, out),
            Event::Reply { .. } => self.unsent(out),
            Event::FailTc { call } => self.fail(*call, out),
            _ => unreachable!(),
        }
    }

    #[inline(never)]
    fn reconnect(&mut self, next: Option<u64>, request: &mut Option<Request>, out: &mut Out)
        requires { request.old ≡ None }
        ensures { TcSends (tc_of self.old) next Event.Reconnect out.new request.new (tc_of self.new) }
    {
        let TransactionComponent::Up(tc) = self else {
            *out = Out::Refused(Refusal::NotConnected);
            return;
        };
        attempt!(out, tc.can_log());
        let number = attempt!(out, next.ok_or(Refusal::NoMemory));
        let connecting = attempt!(out, tc.reconnect());
        *request = Some(connecting.request);
        *out = Out::Connects {
            request: number,
            committed: connecting.committed,
        };
    }

    #[inline(never)]
    fn recover(&mut self, next: Option<u64>, request: &mut Option<Request>, out: &mut Out)
        requires { request.old ≡ None }
        ensures { TcSends (tc_of self.old) next Event.Recover out.new request.new (tc_of self.new) }
    {
        let TransactionComponent::Up(tc) = self else {
            *out = Out::Refused(Refusal::NotConnected);
            return;
        };
        tc.kept();
        let number = attempt!(out, number_if(sends(tc.phase()), next));
        match attempt!(out, tc.recover_step()) {
            RecoverStep::Nothing => *out = Out::Nothing,
            RecoverStep::Sends(sent) => {
                *request = Some(sent);
                *out = Out::Sent(number);
            }
            RecoverStep::Compensated(number) => *out = Out::Compensated(number),
            RecoverStep::Lost(txn) => *out = Out::Lost(txn),
        }
    }

    #[inline(never)]
    fn begin(&mut self, out: &mut Out)
        ensures { TcCalls (tc_of self.old) Event.Begin out.new (tc_of self.new) }
    {
        let TransactionComponent::Up(tc) = self else {
            *out = Out::Refused(Refusal::NotConnected);
            return;
        };
        *out = Out::Begun(attempt!(out, tc.begin()));
    }

    #[inline(never)]
    pub fn act(&mut self, txn: u64, op: &Op, out: &mut Out)
        ensures { TcCalls (tc_of self.old) (Event.Act txn op.now) out.new (tc_of self.new) }
    {
        let TransactionComponent::Up(tc) = self else {
            *out = Out::Refused(Refusal::NotConnected);
            return;
        };
        *out = Out::Logged(attempt!(out, tc.act(txn, op)));
    }

    #[inline(never)]
    pub fn get(&mut self, txn: u64, key: &Key, out: &mut Out)
        ensures { TcCalls (tc_of self.old) (Event.Get txn key.now) out.new (tc_of self.new) }
    {
        let TransactionComponent::Up(tc) = self else {
            *out = Out::Refused(Refusal::NotConnected);
            return;
        };
        *out = Out::Asked(attempt!(out, tc.get(txn, key)));
    }

    #[inline(never)]
    fn scan(&mut self, txn: u64, low: &Key, high: &Option<Key>, out: &mut Out)
        ensures { TcCalls (tc_of self.old) (Event.Scan txn low.now high.now) out.new (tc_of self.new) }
    {
        let TransactionComponent::Up(tc) = self else {
            *out = Out::Refused(refused_down(low, high));
            return;
        };
        *out = Out::Asked(attempt!(out, tc.scan(txn, low, high)));
    }

    #[inline(never)]
    fn save(&mut self, txn: u64, out: &mut Out)
        ensures { TcCalls (tc_of self.old) (Event.Save txn) out.new (tc_of self.new) }
    {
        let TransactionComponent::Up(tc) = self else {
            *out = Out::Refused(Refusal::NotConnected);
            return;
        };
        *out = Out::Saved(attempt!(out, tc.save(txn)));
    }

    #[inline(never)]
    fn go_back(&mut self, txn: u64, savepoint: u64, out: &mut Out)
        ensures { TcCalls (tc_of self.old) (Event.GoBack txn savepoint) out.new (tc_of self.new) }
    {
        let TransactionComponent::Up(tc) = self else {
            *out = Out::Refused(Refusal::NotConnected);
            return;
        };
        attempt!(out, tc.back_to(txn, savepoint));
        *out = Out::RollingBack;
    }

    #[inline(never)]
    fn rollback(&mut self, txn: u64, out: &mut Out)
        ensures { TcCalls (tc_of self.old) (Event.Rollback txn) out.new (tc_of self.new) }
    {
        let TransactionComponent::Up(tc) = self else {
            *out = Out::Refused(Refusal::NotConnected);
            return;
        };
        attempt!(out, tc.rollback(txn));
        *out = Out::RollingBack;
    }

    #[inline(never)]
    fn commit(&mut self, txn: u64, out: &mut Out)
        ensures { TcCalls (tc_of self.old) (Event.Commit txn) out.new (tc_of self.new) }
    {
        let TransactionComponent::Up(tc) = self else {
            *out = Out::Refused(Refusal::NotConnected);
            return;
        };
        *out = Out::CommitLogged(attempt!(out, tc.commit(txn)));
    }

    #[inline(never)]
    pub fn undo(&mut self, txn: u64, out: &mut Out)
        ensures { TcCalls (tc_of self.old) (Event.Undo txn) out.new (tc_of self.new) }
    {
        let TransactionComponent::Up(tc) = self else {
            *out = Out::Refused(Refusal::NotConnected);
            return;
        };
        match attempt!(out, tc.undo_step(txn)) {
            UndoStep::Idle => *out = Out::Nothing,
            UndoStep::Compensated(number) => *out = Out::Compensated(number),
            UndoStep::RolledBack(txn) => *out = Out::RolledBack(txn),
            UndoStep::Back { txn, savepoint } => *out = Out::Back { txn, savepoint },
        }
    }

    #[inline(never)]
    pub fn force(&mut self, out: &mut Out)
        ensures { TcCalls (tc_of self.old) Event.Force out.new (tc_of self.new) }
    {
        let TransactionComponent::Up(tc) = self else {
            *out = Out::Refused(Refusal::NotConnected);
            return;
        };
        let Forced { end, committed } = attempt!(out, tc.force());
        *out = Out::Stable { end, committed };
    }

    #[inline(never)]
    fn send(&mut self, txn: u64, next: Option<u64>, request: &mut Option<Request>, out: &mut Out)
        requires { request.old ≡ None }
        ensures { TcSends (tc_of self.old) next (Event.Send txn) out.new request.new (tc_of self.new) }
    {
        let TransactionComponent::Up(tc) = self else {
            *out = Out::Refused(Refusal::NotConnected);
            return;
        };
        tc.kept();
        let sent = attempt!(out, tc.resend(txn));
        let number = attempt!(out, next.ok_or(Refusal::NoMemory));
        *request = Some(sent);
        *out = Out::Sent(number);
    }

    #[inline(never)]
    fn low_water(
        &mut self,
        low: u64,
        next: Option<u64>,
        request: &mut Option<Request>,
        out: &mut Out,
    )
        requires { request.old ≡ None }
        ensures { TcSends (tc_of self.old) next (Event.LowWater low) out.new request.new (tc_of self.new) }
    {
        let TransactionComponent::Up(tc) = self else {
            *out = Out::Refused(Refusal::NotConnected);
            return;
        };
        tc.kept();
        attempt!(out, tc.can_announce(low));
        let number = attempt!(out, next.ok_or(Refusal::NoMemory));
        *request = Some(attempt!(out, tc.low_water(low)));
        *out = Out::Sent(number);
    }

    #[inline(never)]
    fn checkpoint(&mut self, next: Option<u64>, request: &mut Option<Request>, out: &mut Out)
        requires { request.old ≡ None }
        ensures { TcSends (tc_of self.old) next Event.Checkpoint out.new request.new (tc_of self.new) }
    {
        let TransactionComponent::Up(tc) = self else {
            *out = Out::Refused(Refusal::NotConnected);
            return;
        };
        tc.kept();
        attempt!(out, tc.can_checkpoint());
        let number = attempt!(out, next.ok_or(Refusal::NoMemory));
        *request = Some(attempt!(out, tc.checkpoint()));
        *out = Out::Sent(number);
    }

    #[inline(never)]
    fn tell(&mut self, next: Option<u64>, request: &mut Option<Request>, out: &mut Out)
        requires { request.old ≡ None }
        ensures { TcSends (tc_of self.old) next Event.Tell out.new request.new (tc_of self.new) }
    {
        let TransactionComponent::Up(tc) = self else {
            *out = Out::Refused(Refusal::NotConnected);
            return;
        };
        tc.kept();
        let sent = attempt!(out, tc.tell_stable());
        let number = attempt!(out, next.ok_or(Refusal::NoMemory));
        *request = Some(sent);
        *out = Out::Sent(number);
    }

    /// Takes a reply that was sent.
    pub fn take(&mut self, reply: Reply, out: &mut Out)
        ensures { TcTakes (tc_of self.old) (Some reply) out.new (tc_of self.new) }
    {
        let TransactionComponent::Up(tc) = self else {
            *out = Out::Refused(Refusal::NotConnected);
            return;
        };
        let told = attempt!(out, tc.on_reply(reply));
        tell_of(told, out);
    }

    /// The same of a reply that answers the operation of this number, whose answer is apart.
    pub fn hear(&mut self, number: u64, answer: Option<&GivenAnswer<'_>>, out: &mut Out)
        ensures { (session : ℕ) → is_of_another (tc_of self.old).tc.session session ≡ false
            → TcTakes (tc_of self.old) (Some (says.Answered session number (option_map answer_given (option_copied answer.entry))))
            out.new (tc_of self.new) }
    {
        let TransactionComponent::Up(tc) = self else {
            *out = Out::Refused(Refusal::NotConnected);
            return;
        };
        let heard = attempt!(out, tc.take_answer(number, answer));
        tell_heard(heard, answer, out);
    }

    /// The same of a reply to the read of this number, whose value is apart.
    pub fn find(&mut self, read: u64, value: &mut Option<Value>, out: &mut Out)
        ensures { (session : ℕ) → is_of_another (tc_of self.old).tc.session session ≡ false
            → TcTakes (tc_of self.old) (Some (says.Row session read value.old)) out.new (tc_of self.new) }
    {
        let TransactionComponent::Up(tc) = self else {
            *out = Out::Refused(Refusal::NotConnected);
            return;
        };
        match tc.take_found(read) {
            Some(txn) => {
                *out = Out::Row {
                    txn,
                    value: value.take(),
                };
            }
            None => *out = Out::Nothing,
        }
    }

    /// What a step of recovery does where it sends an operation: its number. None where it sends none, and nothing changes.
    pub fn recover_op(&mut self) -> Option<u64>
        ensures up { IfSome result (λ _. ((tc_of self.old).up ≡ true) × ((tc_of self.new).up ≡ true)) }
        ensures sent { IfSome result (λ number. SendsOp (tc_of self.old).tc number (tc_of self.new).tc) }
        ensures same { IfNone result (tc_of self.new ≡ tc_of self.old) }
        ensures none { IfNone result ((tc_of self.old).up ≡ true → (number : ℕ) (new : TcView)
            → SendsOp (tc_of self.old).tc number new → ⊥) }
    {
        let TransactionComponent::Up(tc) = self else {
            return None;
        };
        tc.recover_op()
    }

    /// No reply of the number was sent.
    fn unsent(&self, out: &mut Out)
        ensures { TcTakes (tc_of self.now) None out.new (tc_of self.now) }
    {
        match self {
            TransactionComponent::Up(_) => *out = Out::Refused(Refusal::Unsent),
            TransactionComponent::Down(_) => *out = Out::Refused(Refusal::NotConnected),
        }
    }

    /// A failure of its device is set.
    #[inline(never)]
    fn fail(&mut self, call: u64, out: &mut Out)
        ensures { TcCalls (tc_of self.old) (Event.FailTc call) out.new (tc_of self.new) }
    {
        if call == 0 {
            *out = Out::Nothing;
            return;
        }
        match self {
            TransactionComponent::Up(tc) => tc.fail_at(call),
            TransactionComponent::Down(stopped) => stopped.fail_at(call),
        }
        *out = Out::Set;
    }

    /// Its crash, as an event.
    #[inline(never)]
    pub fn fall(self, frames: u64, bytes: u64) -> (TransactionComponent<D>, Out)
        ensures { TcCalls (tc_of self) (Event.CrashTc frames bytes) result.1 (tc_of result.0) }
    {
        let (left, fell) = self.crash(frames, bytes);
        (left, if fell { Out::Down } else { Out::Nothing })
    }

    /// Its restart, as an event.
    #[inline(never)]
    pub fn rise(self, alloc: Global) -> (TransactionComponent<D>, Out)
        ensures { TcCalls (tc_of self) Event.RestartTc result.1 (tc_of result.0) }
    {
        let (component, restarted) = self.restart(alloc);
        let out = match restarted {
            Ok(Some(records)) => Out::Up(records),
            Ok(None) => Out::Nothing,
            Err(refusal) => Out::Refused(refusal),
        };
        (component, out)
    }
}

/// The number of the message that is sent, 0 where none is. Refused NoMemory where there is no room for it.
pub fn number_if(sends: bool, next: Option<u64>) -> Result<u64, Refusal>
    ensures number { IfOk result (λ number. sends ≡ true → next ≡ Some number) }
    ensures refused { IfErr result (λ refusal. (sends ≡ true) × (refusal ≡ Refusal.NoMemory)) }
{
    if sends {
        next.ok_or(Refusal::NoMemory)
    } else {
        Ok(0)
    }
}

/// Why a range isn't read where the component is down.
fn refused_down(low: &Key, high: &Option<Key>) -> Refusal
    ensures { result ≡ down_refusal low.now high.now }
{
    let ends_above = match high {
        Some(high) => *low < *high,
        None => true,
    };
    if ends_above {
        Refusal::NotConnected
    } else {
        Refusal::BadRange
    }
}

/// Whether a step of recovery sends a request.
fn sends(phase: Phase) -> bool
    ensures { result ≡ sends_at phase }
{
    match phase {
        Phase::Connecting | Phase::Redoing { .. } | Phase::Undoing { waiting: Some(_) } => true,
        Phase::Undoing { waiting: None } | Phase::Unconnected | Phase::Running => false,
    }
}

fn tell_of(told: Told, out: &mut Out)
    ensures { out.new ≡ as_out told }
{
    match told {
        Told::Nothing => *out = Out::Nothing,
        Told::Connected(session) => *out = Out::Connected(session),
        Told::RedoEnded(session) => *out = Out::RedoEnded(session),
        Told::Answered { txn, answer } => *out = Out::Answered { txn, answer },
        Told::Row { txn, value } => *out = Out::Row { txn, value },
        Told::Rows { txn, rows } => *out = Out::Rows { txn, rows },
        Told::Undone(number) => *out = Out::Undone(number),
        Told::CheckpointLogged(number) => *out = Out::CheckpointLogged(number),
    }
}

/// What is told of an answer, which is copied where a client is told it.
fn tell_heard(heard: Heard, answer: Option<&GivenAnswer<'_>>, out: &mut Out)
    ensures { out.new ≡ as_out (told_with (option_map answer_given (option_copied answer.entry)) heard) }
{
    match heard {
        Heard::Nothing => *out = Out::Nothing,
        Heard::Undone(number) => *out = Out::Undone(number),
        Heard::Answered(txn) => match answer {
            Some(answer) => {
                *out = Out::Answered {
                    txn,
                    answer: answer.owned(),
                };
            }
            None => *out = Out::Nothing,
        },
    }
}
