//! The transaction component.
ghost use Rattle.std.specs.Prelude.{◌≡◌, ◌≤◌, ◌++◌, ◌+◌, ◌↔◌, ℕ, Option, [], true, false, length, Some, None, Ok, IsTrue, IfSome, IfNone, IfOk, IfErr, OnOk, OnErr};
ghost use Rattle.std.specs.Option.{option_copied, option_map};
ghost use Rattle.stable.specs.Crash.{BeginsWith};
ghost use Rattle.stable.specs.Usage.{IsToCome, failing_in};
ghost use Rattle.history.specs.Log.{record_at, request_in};
ghost use Rattle.framed_log.specs.Beginning.{beginning};
ghost use Rattle.tc_log.specs.Opening.{RefusesOpen, UsedToOpen};
ghost use Rattle.tc_log.specs.Spelled.{spelled, AreRecords, IsAskedBy};
ghost use Rattle.tc_log.specs.LogView.{spent_refusal};
ghost use Rattle.tc_core.specs.TcView.{TcView, fresh_tc, used_so};
ghost use Rattle.tc_core.specs.OpenTxns.{find, oldest, wants};
ghost use Rattle.tc_core.specs.Calls.{ReconnectGives, BeginGives, ActGives, ReadGives, SaveGives, BackGives, RollbackGives, CommitGives, UndoGives, ForceGives, ResendGives, IsOpRequest, IsReadRequest, IsAwaitedOp, TellStableGives};
ghost use Rattle.record_key.specs.Table.{Bytes};
ghost use Rattle.codec.specs.Given.{answer_given};
ghost use Rattle.codec.specs.declared.request.Request.TheVariants as asks;
ghost use Rattle.codec.specs.declared.reply.Reply.TheVariants as says;
ghost use Rattle.codec.specs.Replies.{session_of};
ghost use Rattle.tc_core.specs.Heard.{all_told, told_row};
ghost use Rattle.tc_core.specs.Answering.{AnsweredGives, Becomes};
ghost use Rattle.tc_core.specs.Replies.{is_stale, on_row, reader, ReplyGives};
ghost use Rattle.tc_core.specs.Recovery.{RecoverGives, SendsOp};
ghost use Rattle.tc_core.specs.LowWater.{Announces, RefusesLow, LowWaterGives, IsGreatestAnnounced};
ghost use Rattle.tc_core.specs.Checkpoint.{CheckpointGives};
ghost use Rattle.tc_core.specs.Causes.{running_refusal, begin_refusal};
ghost use Rattle.tc_core.specs.Opening.{IsMadeOf, IsOpened, RefusesMaking};
ghost use Rattle.tc_core.specs.Kept.{IsTc};

use crate::open_txn::OpenTxn;
use crate::open_txns::{Wanted, copied as copied_txn};
use crate::parts::Parts;
use crate::phase::Phase;
use crate::requests::copied;
use crate::told::{Connecting, Forced, Heard, RecoverStep, Told, UndoStep};
use codec::{GivenAnswer, Reply, Request};
use history::Record;
use record_key::{Key, Op, Refusal};
use stable::{CrashLog, LogDevice};
use std::alloc::Global;
use std::marker::Model;
use tc_locks::Span;
use tc_log::{Found, Refused};

/// A log, a session, at most 64 open transactions with their locks and reads, and those that are committing.
#[derive(Drop)]
pub struct Tc<D: LogDevice> {
    parts: Parts<D>,
}

impl<D: LogDevice> Model for Tc<D> {
    ghost use Rattle.tc_core.specs.TcView.{TcView};
    ghost use Rattle.tc_core.specs.Kept.{IsTc};
    ghost use Rattle.tc_core.specs.Seen.{seen};

    ghost Value = { TcView };

    ghost view = { λ t. seen t.parts };

    ghost invariant = { λ t. IsTc (seen t.parts) };
}

impl<D: LogDevice> Tc<D> {
    /// A component with an empty log, on an empty device, and no session.
    pub fn new(alloc: Global, device: D) -> Tc<D>
        requires empty { (D.forced device ≡ []) × (D.pending device ≡ []) }
        ensures { result ≡ fresh_tc (D.usage device) }
    {
        Tc {
            parts: Parts::new(alloc, device),
        }
    }

    /// The component of what a crash left on the log's device: whoever was open is a loser, and holds the keys of its
    /// operations. A cut last frame is cut off the device, last of all. Refused NoMemory, Device, BadBytes; the device is
    /// handed back as it was.
    pub fn open(alloc: Global, device: D) -> Result<Tc<D>, Refused<D>>
        requires all_forced { D.pending device ≡ [] }
        ensures opened { IfOk result (IsOpened (D.forced device) (D.usage device)) }
        ensures refused { IfErr result (λ left. RefusesOpen (D.forced device) left.refusal) }
        ensures forced { IfErr result (λ left. D.forced left.device ≡ D.forced device) }
        ensures none_pending { IfErr result (λ left. D.pending left.device ≡ []) }
        ensures used { IfErr result (λ left. UsedToOpen (D.usage device) left.refusal (D.usage left.device)) }
    {
        match Found::read(alloc, device) {
            Ok(found) => Tc::over(alloc, found),
            Err(refused) => Err(refused),
        }
    }

    /// The component of the log that was found on the device, as `open` makes it: who has judged that log needn't have it
    /// read again. Refused NoMemory, before any call of the device, and Device where the cut fails; the device is handed
    /// back as it was.
    pub fn over(alloc: Global, found: Found<D>) -> Result<Tc<D>, Refused<D>>
        ensures made { IfOk result (IsMadeOf found.bytes found.usage) }
        ensures log { IfOk result (λ tc. tc.log ≡ found.records) }
        ensures refused { IfErr result (λ left. RefusesMaking found left.refusal (D.usage left.device)) }
        ensures forced { IfErr result (λ left. D.forced left.device ≡ found.bytes) }
        ensures none_pending { IfErr result (λ left. D.pending left.device ≡ []) }
    {
        match Parts::over(alloc, found) {
            Ok(parts) => Ok(Tc { parts }),
            Err(refused) => Err(refused),
        }
    }

    /// The log's device, as a crash finds it: all records stand on it, and the stable ones are forced; no others are,
    /// where it forces all or nothing.
    pub fn stop(self) -> D
        ensures holds { D.forced result ++ D.pending result ≡ spelled self.log }
        ensures forced { BeginsWith (D.forced result) (spelled (beginning self.log self.stable)) }
        ensures just { D.forces_whole ≡ true → D.forced result ≡ spelled (beginning self.log self.stable) }
        ensures spellable { AreRecords self.log }
        ensures usage { D.usage result ≡ self.usage }
    {
        self.parts.stop()
    }

    /// Whether one more record may be logged. Refused NumbersSpent.
    pub fn can_log(&self) -> Result<(), Refusal>
        ensures unspent { OnOk result (spent_refusal self.now.log ≡ None) }
        ensures refused { IfErr result (λ refusal. spent_refusal self.now.log ≡ Some refusal) }
    {
        self.parts.can_log()
    }

    /// Starts a session: logs it, forces the log, and gives the request that begins it and who has committed. Refused
    /// NumbersSpent, NoMemory, Device; a session whose record was logged when the device failed isn't started.
    pub fn reconnect(&mut self) -> Result<Connecting, Refusal>
        ensures gives { ReconnectGives self.old result self.new }
    {
        self.parts.reconnect()
    }

    /// Whether a transaction may begin, memory and the device aside. Refused NotConnected, Redoing, Full while 64
    /// are open, NumbersSpent.
    pub fn can_begin(&self) -> Result<(), Refusal>
        ensures allowed { OnOk result (begin_refusal self.now ≡ None) }
        ensures refused { IfErr result (λ refusal. begin_refusal self.now ≡ Some refusal) }
    {
        self.parts.can_begin()
    }

    /// Begins a transaction and answers its number. Refused NotConnected, Redoing, Full while 64 are
    /// open, NumbersSpent, NoMemory, Device.
    pub fn begin(&mut self) -> Result<u64, Refusal>
        ensures gives { BeginGives self.old result self.new }
    {
        self.parts.begin()
    }

    /// Locks the key, logs the operation and answers its number. Refused NotConnected, Redoing, NotOpen,
    /// RollingBack, Unanswered, Busy with the least other holder of the key, NumbersSpent, NoMemory, Device.
    pub fn act(&mut self, txn: u64, op: &Op) -> Result<u64, Refusal>
        ensures gives { ActGives self.old txn op.now result self.new }
    {
        self.parts.act(txn, op)
    }

    /// Locks the key for reading and asks for its value. Answers the number of the read; `resend` gives its
    /// request. Refused NotConnected, Redoing, NotOpen, RollingBack, Unanswered, Busy with the least other
    /// holder of the key, NumbersSpent, NoMemory.
    pub fn get(&mut self, txn: u64, key: &Key) -> Result<u64, Refusal>
        ensures gives { ReadGives self.old txn (Span.Key key.now) result self.new }
    {
        self.parts.read_key(txn, key)
    }

    /// The same for the keys from `low` on and below `high`, or to the end. Refused BadRange first, where
    /// `high` isn't above `low`.
    pub fn scan(&mut self, txn: u64, low: &Key, high: &Option<Key>) -> Result<u64, Refusal>
        ensures gives { ReadGives self.old txn (Span.Range low.now high.now) result self.new }
    {
        let low = low.copied();
        let high = copied(high);
        self.parts.read(txn, Span::Range { low, high })
    }

    /// Sets a savepoint and answers its number: the count of present ones plus 1. Refused NotConnected, Redoing,
    /// NotOpen, RollingBack, Unanswered, Full while 16 are present.
    pub fn save(&mut self, txn: u64) -> Result<u64, Refusal>
        ensures gives { SaveGives self.old txn result self.new }
    {
        self.parts.save(txn)
    }

    /// Begins to roll the transaction back to a savepoint, which stays; later ones are dropped. Refused NotConnected,
    /// Redoing, NotOpen, RollingBack, Unanswered, BadSavepoint where it isn't present.
    pub fn back_to(&mut self, txn: u64, savepoint: u64) -> Result<(), Refusal>
        ensures gives { BackGives self.old txn savepoint result self.new }
    {
        self.parts.back_to(txn, savepoint)
    }

    /// Begins to roll the transaction back wholly. Refused NotConnected, Redoing, NotOpen, RollingBack, Unanswered.
    pub fn rollback(&mut self, txn: u64) -> Result<(), Refusal>
        ensures gives { RollbackGives self.old txn result self.new }
    {
        self.parts.rollback(txn)
    }

    /// Logs that the transaction is committed, and answers the number of that record. It isn't open any more; what it
    /// holds is given back, and its client told, once the record is stable. Refused NotConnected, Redoing, NotOpen,
    /// RollingBack, Unanswered, NumbersSpent, NoMemory, Device.
    pub fn commit(&mut self, txn: u64) -> Result<u64, Refusal>
        ensures gives { CommitGives self.old txn result self.new }
    {
        self.parts.commit(txn)
    }

    /// Compensates the latest operation that is left above the rollback's bound, or ends the rollback where none is.
    /// Refused NotConnected, Redoing, NotOpen, Unanswered; where a record is logged NumbersSpent, NoMemory, Device.
    pub fn undo_step(&mut self, txn: u64) -> Result<UndoStep, Refusal>
        ensures gives { UndoGives self.old txn result self.new }
    {
        self.parts.undo_step(txn)
    }

    /// Makes the log stable; gives its end and who has committed by that. Refused Device.
    pub fn force(&mut self) -> Result<Forced, Refusal>
        ensures gives { ForceGives self.old result self.new }
    {
        self.parts.force()
    }

    /// The request that the transaction waits for, first or again; its record need not be stable. Refused NotConnected,
    /// Redoing, NotOpen, Unsent.
    pub fn resend(&self, txn: u64) -> Result<Request, Refusal>
        ensures gives { ResendGives self.now txn result }
    {
        self.parts.resend(txn)
    }

    /// What `resend` would send, where that is an operation: its number, and the bytes of the log that spell it. None
    /// where it is refused or sends a read.
    pub fn awaited_op(&self, txn: u64) -> Option<(u64, &[u8])>
        ensures sent { IfSome result (λ sent. IsAwaitedOp self.now txn sent.0 sent.1.now) }
        ensures none { IfNone result ((request : Request) → IsOpRequest self.now txn request → ⊥) }
    {
        self.parts.awaited_op(txn)
    }

    /// The same where that is a read of one key: its number and the key.
    pub fn awaited_key(&self, txn: u64) -> Option<(u64, &Key)>
        ensures asked { IfSome result (λ asked.
            ResendGives self.now txn (Ok (asks.Get self.now.session asked.0 asked.1.now))) }
        ensures none { IfNone result ((read : ℕ) (key : Bytes)
            → IsReadRequest self.now txn (asks.Get self.now.session read key) → ⊥) }
    {
        self.parts.awaited_key(txn)
    }

    /// Tells the data component how much of the log is stable. Refused NotConnected, Redoing.
    pub fn tell_stable(&self) -> Result<Request, Refusal>
        ensures gives { TellStableGives self.now result }
    {
        self.parts.tell_stable()
    }

    /// Whether the number may be announced, memory aside. Refused as `low_water` is.
    pub fn can_announce(&self, low: u64) -> Result<(), Refusal>
        ensures allowed { OnOk result (Announces self.now low) }
        ensures refused { IfErr result (λ refusal. RefusesLow self.now low refusal) }
    {
        self.parts.can_announce(low)
    }

    /// Tells the data component that no number up to `low` is sent again. Refused NotConnected, Redoing,
    /// BeyondStable where one of these isn't stable or has no stable answer.
    pub fn low_water(&mut self, low: u64) -> Result<Request, Refusal>
        ensures gives { LowWaterGives self.old low result self.new }
    {
        self.parts.low_water(low)
    }

    /// The greatest number that `low_water` may announce, 0 where clients aren't served.
    pub fn greatest_low(&self) -> u64
        ensures { IsGreatestAnnounced self.now result }
    {
        self.parts.greatest_low()
    }

    /// Whether a checkpoint may be asked for, memory aside. Refused NotConnected, Redoing.
    pub fn can_checkpoint(&self) -> Result<(), Refusal>
        ensures allowed { OnOk result (running_refusal self.now ≡ None) }
        ensures refused { IfErr result (λ refusal. running_refusal self.now ≡ Some refusal) }
    {
        self.parts.running()
    }

    /// Asks the data component to make all up to the greatest number that was announced in this session stable in its
    /// leaves; the reply is logged, and redo starts above it. Refused NotConnected, Redoing.
    pub fn checkpoint(&mut self) -> Result<Request, Refusal>
        ensures gives { CheckpointGives self.old result self.new }
    {
        self.parts.checkpoint()
    }

    /// Takes a reply. The answer of an awaited request is logged and told, what was read is told, the checkpoint that
    /// was asked for last is logged; a reply that isn't awaited changes nothing. Refused Stale, NumbersSpent, NoMemory,
    /// Device; the reply may be given again then.
    pub fn on_reply(&mut self, reply: Reply) -> Result<Told, Refusal>
        ensures gives { ReplyGives self.old reply result self.new }
    {
        self.parts.on_reply(reply)
    }

    /// The same of a reply that is known to be of the session that runs.
    pub fn take_reply(&mut self, reply: Reply) -> Result<Told, Refusal>
        requires { is_stale self.old (session_of reply) ≡ false }
        ensures gives { ReplyGives self.old reply result self.new }
    {
        self.parts.take_reply(reply)
    }

    /// What `take_reply` does of a reply that answers the operation of this number, for a caller that has the answer apart:
    /// what is told of it, without the answer.
    pub fn take_answer(
        &mut self,
        number: u64,
        answer: Option<&GivenAnswer<'_>>,
    ) -> Result<Heard, Refusal>
        ensures answered { let given = option_map answer_given (option_copied answer.entry) in
            AnsweredGives self.old number given (all_told given result) self.new }
        ensures gives { let given = option_map answer_given (option_copied answer.entry) in
            (session : ℕ) → is_stale self.old session ≡ false
            → ReplyGives self.old (says.Answered session number given) (all_told given result) self.new }
    {
        self.parts.on_answered(number, answer)
    }

    /// What `take_reply` does of a reply to the read of a key of this number, for a caller that has the value apart: the
    /// transaction that is told of it, if any.
    pub fn take_found(&mut self, read: u64) -> Option<u64>
        ensures found { (value : Option Bytes)
            → Becomes (on_row self.old value (reader self.old read)) (told_row value result) self.new }
        ensures gives { (session : ℕ) (value : Option Bytes) → is_stale self.old session ≡ false
            → ReplyGives self.old (says.Row session read value) (Ok (told_row value result)) self.new }
    {
        self.parts.on_found(read)
    }

    /// The request that recovery sends next, or again while its reply is awaited; then one record of the losers' undo
    /// after another: the End of the least loser that has nothing left to undo, else the compensation of the latest
    /// operation of all of them; nothing where the component runs. Refused NotConnected; where a record is logged
    /// NumbersSpent, NoMemory, Device.
    pub fn recover_step(&mut self) -> Result<RecoverStep, Refusal>
        ensures gives { RecoverGives self.old result self.new }
    {
        self.parts.recover_step()
    }

    /// What `recover_step` does where it sends an operation, for a caller that sends it as its bytes: its number. None
    /// where it sends none, and nothing changes.
    pub fn recover_op(&mut self) -> Option<u64>
        ensures sent { IfSome result (λ number. SendsOp self.old number self.new) }
        ensures same { IfNone result (self.new ≡ self.old) }
        ensures none { IfNone result ((number : ℕ) (new : TcView) → SendsOp self.old number new → ⊥) }
    {
        self.parts.recover_op()
    }

    /// The bytes that spell what the record of this number asks for, where they stand in the log.
    pub fn asked_bytes(&self, number: u64) -> Option<&[u8]>
        ensures asked { IfSome result (λ asked. IsAskedBy self.now.log number asked.now) }
        ensures none { IfNone result (request_in (record_at self.now.log number) ≡ None) }
    {
        self.parts.log.asked_bytes(number)
    }

    /// How far the session has come.
    pub fn phase(&self) -> Phase
        ensures { result ≡ self.now.phase }
    {
        self.parts.phase
    }

    /// The number of the latest session, 0 if there is none.
    pub fn session(&self) -> u64
        ensures { result ≡ self.now.session }
    {
        self.parts.session
    }

    /// The open transaction of this number.
    pub fn open_txn(&self, txn: u64) -> Option<OpenTxn>
        ensures { result ≡ find txn self.now.open_txns }
    {
        copied_txn(self.parts.open_txns.find(txn))
    }

    /// The least transaction that waits for an answer, or for what it reads.
    pub fn first_unanswered(&self) -> Option<&OpenTxn>
        ensures { option_copied result ≡ oldest (wants Wanted.Unanswered) self.now.open_txns }
    {
        self.parts.open_txns.oldest(Wanted::Unanswered)
    }

    /// The least transaction that is being rolled back.
    pub fn first_rolling(&self) -> Option<&OpenTxn>
        ensures { option_copied result ≡ oldest (wants Wanted.Rolling) self.now.open_txns }
    {
        self.parts.open_txns.oldest(Wanted::Rolling)
    }

    /// The transactions whose Commit record isn't stable, in the order of these records.
    pub fn committing(&self) -> &[u64]
        ensures { result.now ≡ self.now.committing }
    {
        self.parts.committing.as_slice()
    }

    /// Whether no transaction is open.
    pub fn has_nobody_open(&self) -> bool
        ensures { IsTrue result ↔ self.now.open_txns ≡ [] }
    {
        self.parts.open_txns.is_empty()
    }

    /// How many records the log has.
    pub fn records(&self) -> u64
        ensures { result ≡ length self.now.log }
    {
        self.parts.log.len()
    }

    /// The record of this number. Takes no memory and asks no device.
    pub fn record(&self, number: u64) -> Option<Record>
        ensures { result ≡ record_at self.now.log number }
    {
        self.parts.log.record(number)
    }

    /// Where the first records, so many, end in the log's bytes. Takes no memory.
    pub fn end_of(&self, count: u64) -> usize
        requires { count ≤ length self.now.log }
        ensures { result ≡ length (spelled (beginning self.now.log count)) }
    {
        self.parts.log.end_of(count)
    }

    /// The bytes of the stable records. Takes no memory.
    pub fn stable_bytes(&self) -> &[u8]
        ensures { result.now ≡ spelled (beginning self.now.log self.now.stable) }
    {
        self.parts.log.stable_bytes()
    }

    /// The number up to which records are stable.
    pub fn stable_end(&self) -> u64
        ensures { result ≡ self.now.stable }
    {
        self.parts.log.stable_end()
    }

    /// What holds at every moment: the log is legal, a beginning of it is stable, just its open transactions, those
    /// that are committing and the losers are kept, and the lock table is theirs.
    pub fn kept(&self)
        ensures { IsTc self.now }
    {
        let _ = &self.parts;
    }

    /// What holds at every moment: a failure of the log's device that was set is still to come.
    pub fn to_come(&self)
        ensures { IsToCome self.now.usage }
    {
        self.parts.log.to_come();
    }
}

impl<D: CrashLog> Tc<D> {
    /// The `n`-th call of the log's device from now fails, once. It takes the place of a failure that was set and hasn't
    /// happened.
    pub fn fail_at(&mut self, n: u64)
        requires { 1 ≤ n }
        ensures { self.new ≡ used_so self.old (failing_in n self.old.usage) }
    {
        self.parts.fail_at(n);
    }
}
