//! What becomes of a reply.
ghost use Rattle.std.specs.Prelude.{◌≡◌, Option, true, false, None, OnOk, OnErr, IfErr};
ghost use Rattle.std.specs.Option.{option_copied, option_map};
ghost use Rattle.codec.specs.Replies.{session_of};
ghost use Rattle.tc_core.specs.Replies.{is_stale, ReplyGives, awaiting, lacks, reader, passed, on_row as reads_row, on_rows as reads_rows, takes as takes_number, on_connected as connects, on_redo_ended as ends_redo};
ghost use Rattle.record_key.specs.Table.{Bytes};
ghost use Rattle.codec.specs.Given.{answer_given};
ghost use Rattle.tc_core.specs.Answering.{AnsweredGives, Becomes};
ghost use Rattle.tc_core.specs.Heard.{all_told, told_row};
ghost use Rattle.tc_core.specs.Kept.{IsTc};
ghost use Rattle.tc_core.specs.Seen.{seen};

use crate::change::Change;
use crate::open_txn::OpenTxn;
use crate::open_txns::Wanted;
use crate::parts::Parts;
use crate::phase::Phase;
use crate::replies::{heard_lost, heard_of, left_waiting, lent, reads_key, reads_range, takes};
use crate::told::{Heard, Told};
use codec::{GivenAnswer, Reply, Rows};
use record_key::{Refusal, Value};
use stable::LogDevice;

impl<D: LogDevice> Parts<D> {
    pub fn on_reply(&mut self, reply: Reply) -> Result<Told, Refusal>
        requires { IsTc (seen self.old) }
        ensures kept { IsTc (seen self.new) }
        ensures gives { ReplyGives (seen self.old) reply result (seen self.new) }
    {
        self.in_session(reply.session())?;
        self.take_reply(reply)
    }

    /// Takes a reply of the session that runs.
    pub fn take_reply(&mut self, reply: Reply) -> Result<Told, Refusal>
        requires kept { IsTc (seen self.old) }
        requires current { is_stale (seen self.old) (session_of reply) ≡ false }
        ensures kept { IsTc (seen self.new) }
        ensures gives { ReplyGives (seen self.old) reply result (seen self.new) }
    {
        match reply {
            Reply::Connected { .. } => Ok(self.on_connected()),
            Reply::Answered { number, answer, .. } => {
                let heard = self.on_answered(number, lent(&answer).as_ref())?;
                Ok(heard.told(answer))
            }
            Reply::RedoEnded { .. } => Ok(self.on_redo_ended()),
            Reply::Row { read, value, .. } => Ok(self.on_row(read, value)),
            Reply::Rows { read, rows, .. } => Ok(self.on_rows(read, rows)),
            Reply::Checkpointed { low, .. } => self.on_checkpointed(low),
        }
    }

    /// Whether a reply of this session is taken.
    fn in_session(&self, session: u64) -> Result<(), Refusal>
        ensures taken { OnOk result (is_stale (seen self.now) session ≡ false) }
        ensures stale { OnErr result (is_stale (seen self.now) session ≡ true) }
        ensures refused { IfErr result (λ refusal. refusal ≡ Refusal.Stale) }
    {
        if self.session == 0 || session != self.session {
            return Err(Refusal::Stale);
        }
        Ok(())
    }

    fn on_connected(&mut self) -> Told
        requires kept { IsTc (seen self.old) }
        ensures kept { IsTc (seen self.new) }
        ensures told { result ≡ (connects (seen self.old) self.old.phase).0 }
        ensures left { seen self.new ≡ (connects (seen self.old) self.old.phase).1 }
    {
        let Phase::Connecting = self.phase else {
            return Told::Nothing;
        };
        self.phase = Phase::Redoing {
            next: self.checkpointed + 1,
            ending: false,
        };
        Told::Connected(self.session)
    }

    fn on_redo_ended(&mut self) -> Told
        requires kept { IsTc (seen self.old) }
        ensures kept { IsTc (seen self.new) }
        ensures told { result ≡ (ends_redo (seen self.old) self.old.phase).0 }
        ensures left { seen self.new ≡ (ends_redo (seen self.old) self.old.phase).1 }
    {
        let Phase::Redoing { ending, .. } = self.phase else {
            return Told::Nothing;
        };
        if !ending {
            return Told::Nothing;
        }
        self.phase = self.after_redo();
        Told::RedoEnded(self.session)
    }

    /// What comes of the answer of this number, which is logged where it is awaited.
    pub fn on_answered(
        &mut self,
        number: u64,
        answer: Option<&GivenAnswer<'_>>,
    ) -> Result<Heard, Refusal>
        requires { IsTc (seen self.old) }
        ensures kept { IsTc (seen self.new) }
        ensures gives { let given = option_map answer_given (option_copied answer.entry) in
            AnsweredGives (seen self.old) number given (all_told given result) (seen self.new) }
    {
        if !takes(self.session, self.phase, number) {
            return Ok(Heard::Nothing);
        }
        let Some(opened) = self.awaiting(number) else {
            return self.on_unawaited(number, answer);
        };
        let Some(answer) = answer else {
            return Ok(Heard::Nothing);
        };
        let txn = opened.txn;
        let heard = heard_of(opened, number);
        self.log.append_answer(number, answer)?;
        self.open_txns.change(txn, Change::Answered);
        self.pass(number);
        Ok(heard)
    }

    /// No client waits for it: a loser's answer is logged where there was none.
    fn on_unawaited(
        &mut self,
        number: u64,
        answer: Option<&GivenAnswer<'_>>,
    ) -> Result<Heard, Refusal>
        requires kept { IsTc (seen self.old) }
        requires taken { takes_number self.old.session self.old.phase number ≡ true }
        requires unawaited { awaiting (seen self.old) number ≡ None }
        ensures kept { IsTc (seen self.new) }
        ensures gives { let given = option_map answer_given (option_copied answer.entry) in
            AnsweredGives (seen self.old) number given (all_told given result) (seen self.new) }
    {
        if !self.lacks(number) {
            self.pass(number);
            return Ok(Heard::Nothing);
        }
        let Some(answer) = answer else {
            return Ok(Heard::Nothing);
        };
        let heard = heard_lost(self.log.record(number), number);
        self.log.append_answer(number, answer)?;
        self.pass(number);
        Ok(heard)
    }

    /// Whether the record of this number asks for something and has no answer.
    fn lacks(&self, number: u64) -> bool
        ensures { result ≡ lacks (seen self.now) number }
    {
        self.log.lacks_answer(number)
    }

    /// Who waits for the row is told; a reply of another kind than was asked for is none.
    fn on_row(&mut self, read: u64, value: Option<Value>) -> Told
        requires { IsTc (seen self.old) }
        ensures kept { IsTc (seen self.new) }
        ensures told { result ≡ (reads_row (seen self.old) value (reader (seen self.old) read)).0 }
        ensures left { seen self.new ≡ (reads_row (seen self.old) value (reader (seen self.old) read)).1 }
    {
        match self.on_found(read) {
            Some(txn) => Told::Row { txn, value },
            None => Told::Nothing,
        }
    }

    /// Which transaction is told of the value that this read has found, whatever it is.
    pub fn on_found(&mut self, read: u64) -> Option<u64>
        requires { IsTc (seen self.old) }
        ensures kept { IsTc (seen self.new) }
        ensures gives { (value : Option Bytes)
            → Becomes (reads_row (seen self.old) value (reader (seen self.old) read)) (told_row value result) (seen self.new) }
    {
        let Some(opened) = self.open_txns.oldest(Wanted::Reader(read)) else {
            return None;
        };
        if !reads_key(opened) {
            return None;
        }
        let txn = opened.txn;
        self.open_txns.change(txn, Change::Told);
        Some(txn)
    }

    /// The same for the rows of a range.
    fn on_rows(&mut self, read: u64, rows: Rows) -> Told
        requires { IsTc (seen self.old) }
        ensures kept { IsTc (seen self.new) }
        ensures told { result ≡ (reads_rows (seen self.old) rows (reader (seen self.old) read)).0 }
        ensures left { seen self.new ≡ (reads_rows (seen self.old) rows (reader (seen self.old) read)).1 }
    {
        let Some(opened) = self.open_txns.oldest(Wanted::Reader(read)) else {
            return Told::Nothing;
        };
        if !reads_range(opened) {
            return Told::Nothing;
        }
        let txn = opened.txn;
        self.open_txns.change(txn, Change::Told);
        Told::Rows { txn, rows }
    }

    /// The open transaction whose record has this number, where it waits for the answer.
    fn awaiting(&self, number: u64) -> Option<&OpenTxn>
        ensures { option_copied result ≡ awaiting (seen self.now) number }
    {
        let txn = self.log.step_txn(number)?;
        let opened = self.open_txns.find(txn)?;
        if opened.waiting == Some(number) {
            Some(opened)
        } else {
            None
        }
    }

    /// Redo goes on after this number, and undo where it awaited this answer.
    fn pass(&mut self, number: u64)
        requires kept { IsTc (passed (seen self.old) number) }
        requires taken { takes_number self.old.session self.old.phase number ≡ true }
        ensures kept { IsTc (seen self.new) }
        ensures passed { seen self.new ≡ passed (seen self.old) number }
    {
        match self.phase {
            Phase::Redoing { .. } => {
                let next = number + 1;
                self.phase = Phase::Redoing {
                    next,
                    ending: false,
                };
            }
            Phase::Undoing { waiting } => {
                let waiting = left_waiting(waiting, number);
                self.phase = Phase::Undoing { waiting };
            }
            _ => {}
        }
    }
}
