//! The log and what is read of it.
ghost use Rattle.std.specs.Prelude.{true, ◌≡◌, ◌≤◌, ◌<◌, ◌^◌, ◌++◌, [], length, is_some, None, IfSome, IfNone};
ghost use Rattle.history.specs.Log.{record_at, answer_of, request_in, step_in};
ghost use Rattle.history.specs.Legal.{IsLegal, FitsCheckpoint, IsLatest};
ghost use Rattle.history.specs.Chains.{undo_from};
ghost use Rattle.stable.specs.Crash.{BeginsWith};
ghost use Rattle.stable.specs.Usage.{IsToCome, failing_in};
ghost use Rattle.tc_log.specs.Index.{lacks_answer};
ghost use Rattle.tc_log.specs.LogView.{last_not_session};
ghost use Rattle.tc_log.specs.Low.{IsGreatestLow};
ghost use Rattle.framed_log.specs.Beginning.{beginning};
ghost use Rattle.tc_log.specs.Spelled.{spelled, AreRecords, IsAskedBy};

use crate::frames::Frames;
use history::Record;
use record_key::{Answer, Op};
use stable::{CrashLog, LogDevice};
use std::alloc::Global;
use std::marker::Model;

/// Records by their numbers, from 1, kept as bytes on a device.
#[derive(Drop)]
pub struct Log<D: LogDevice> {
    pub(crate) frames: Frames<D>,
    pub(crate) stable: u64,
    // Up to where every stable request has a stable answer.
    pub(crate) answered: u64,
    // The number of the last record that isn't a Session, 0 if there is none.
    pub(crate) last_not_session: u64,
}

impl<D: LogDevice> Model for Log<D> {
    ghost use Rattle.tc_log.specs.LogView.{LogView};
    ghost use Rattle.tc_log.specs.Kept.{IsKept};

    ghost Value = { LogView };

    ghost view = { λ l. record {
      records = l.frames.records;
      stable = l.stable;
      usage = l.frames.device.usage;
    } };

    ghost invariant = { λ l. IsKept D.forces_whole l.frames l.stable l.answered l.last_not_session };
}

impl<D: LogDevice> Log<D> {
    /// The log of no records, on an empty device.
    pub fn new(alloc: Global, device: D) -> Log<D>
        requires empty { (D.forced device ≡ []) × (D.pending device ≡ []) }
        ensures { result ≡ record { records = []; stable = 0; usage = D.usage device } }
    {
        Log {
            frames: Frames::new(alloc, device),
            stable: 0,
            answered: 0,
            last_not_session: 0,
        }
    }

    /// The device, as a crash finds it: all records stand on it, and the stable ones are forced; no others are, where
    /// it forces all or nothing.
    pub fn stop(self) -> D
        ensures holds { D.forced result ++ D.pending result ≡ spelled self.records }
        ensures forced { BeginsWith (D.forced result) (spelled (beginning self.records self.stable)) }
        ensures just { D.forces_whole ≡ true → D.forced result ≡ spelled (beginning self.records self.stable) }
        ensures spellable { AreRecords self.records }
        ensures usage { D.usage result ≡ self.usage }
    {
        // Called for what it tells of the records: each has a spelling.
        let _count = self.frames.len();
        let Log {
            frames,
            stable: _,
            answered: _,
            last_not_session: _,
        } = self;
        frames.stop()
    }

    /// Its records.
    pub fn frames(&self) -> &Frames<D>
        ensures { result.now.records ≡ self.now.records }
    {
        &self.frames
    }

    /// How many records there are.
    pub fn len(&self) -> u64
        ensures count { result ≡ length self.now.records }
        ensures numbered { result < 2 ^ 48 }
        ensures legal { IsLegal self.now.records }
    {
        self.frames.len()
    }

    /// The number up to which records are stable.
    pub fn stable_end(&self) -> u64
        ensures { result ≡ self.now.stable }
    {
        self.stable
    }

    /// The bytes of the stable records. Takes no memory and makes no device call.
    pub fn stable_bytes(&self) -> &[u8]
        ensures { result.now ≡ spelled (beginning self.now.records self.now.stable) }
    {
        &self.frames.bytes()[..self.frames.end_of(self.stable)]
    }

    /// Where in the device's bytes the first records end, so many. Takes no memory and makes no device call.
    pub fn end_of(&self, count: u64) -> usize
        requires { count ≤ length self.now.records }
        ensures { result ≡ length (spelled (beginning self.now.records count)) }
    {
        self.frames.end_of(count)
    }

    /// The record of this number. Takes no memory and makes no device call.
    pub fn record(&self, number: u64) -> Option<Record>
        ensures { result ≡ record_at self.now.records number }
    {
        self.frames.record(number)
    }

    /// The transaction of the Op or Comp record of this number. Takes no memory and makes no device call.
    pub fn step_txn(&self, number: u64) -> Option<u64>
        ensures { result ≡ step_in (record_at self.now.records number) }
    {
        self.frames.step_txn(number)
    }

    /// The operation that the record of this number asks for, if any. Takes no memory and makes no device call.
    pub fn asked_op(&self, number: u64) -> Option<Op>
        ensures { result ≡ request_in (record_at self.now.records number) }
    {
        self.frames.asked_op(number)
    }

    /// The bytes that spell it, where they stand. Takes no memory and makes no device call.
    pub fn asked_bytes(&self, number: u64) -> Option<&[u8]>
        ensures asked { IfSome result (λ asked. IsAskedBy self.now.records number asked.now) }
        ensures none { IfNone result (request_in (record_at self.now.records number) ≡ None) }
    {
        self.frames.asked_bytes(number)
    }

    /// The record of this number asks for something. Takes no memory, reads no record and makes no device call.
    pub fn asks(&self, number: u64) -> bool
        ensures { result ≡ is_some (request_in (record_at self.now.records number)) }
    {
        self.frames.asks(number)
    }

    /// It does, and its Answer record doesn't stand. As cheap.
    pub fn lacks_answer(&self, number: u64) -> bool
        ensures { result ≡ lacks_answer self.now.records number }
    {
        !self.frames.is_answered(number)
    }

    /// What is left to undo from the record of this number on: the record where it is an operation, a compensation's
    /// undo-next, else 0. Takes no memory and makes no device call.
    pub fn left_to_undo(&self, number: u64) -> u64
        ensures { result ≡ undo_from (record_at self.now.records number) number }
    {
        self.frames.left_to_undo(number)
    }

    /// The answer of this number's operation, if its Answer record stands.
    pub fn answer_of(&self, number: u64) -> Option<Answer>
        ensures { result ≡ answer_of self.now.records number }
    {
        self.frames.answer_of(number)
    }

    /// The greatest stable number up to which every request has a stable answer.
    pub fn answered_end(&self) -> u64
        ensures { IsGreatestLow self.now.records self.now.stable result }
    {
        self.answered
    }

    /// The number of the last record that isn't a Session, 0 if none. Takes no memory and makes no device call.
    pub fn last_not_session(&self) -> u64
        ensures { result ≡ last_not_session self.now.records }
    {
        self.last_not_session
    }

    /// The greatest number up to which every request has its answer.
    pub(crate) fn answered_of_all(&self) -> u64
        ensures { IsLatest (FitsCheckpoint self.now.records) result }
    {
        self.frames.answered_from(self.answered)
    }

    /// What holds at every moment: a failure of the device that was set is still to come.
    pub fn to_come(&self)
        ensures { IsToCome self.now.usage }
    {
        self.frames.to_come();
    }
}

impl<D: CrashLog> Log<D> {
    /// The `n`-th call of the device from now fails, once. It takes the place of a failure that was set and hasn't
    /// happened.
    pub fn fail_at(&mut self, n: u64)
        requires { 1 ≤ n }
        ensures { self.new ≡ record self.old { usage = failing_in n self.old.usage } }
    {
        self.frames.fail_at(n);
    }
}
