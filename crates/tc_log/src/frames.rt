//! The frames of records, one after another, with an index of their places and of answers.
ghost use Rattle.std.specs.Prelude.{◌≡◌, ◌+◌, ◌≤◌, ◌<◌, ◌^◌, ◌↔◌, ◌++◌, ◌∷◌, [], ℕ, List, length, ◌⊎◌, Some, None, is_some, true, IsTrue, IfSome, IfNone, OnOk, OnErr, IfOk, IfErr, IsErrOf};
ghost use Rattle.history.specs.Log.{record_at, answer_of, request_in, step_in, IsOpBy};
ghost use Rattle.history.specs.Legal.{Fits, IsLegal, Inverts};
ghost use Rattle.history.specs.Chains.{undo_from};
ghost use Rattle.history.specs.declared.record.Record.{Record};
ghost use Rattle.codec.specs.FrameIndex.{places_of, Indexes};
ghost use Rattle.codec.specs.Frames.{frame, IfTaken, IsThere, IsCut};
ghost use Rattle.codec.specs.Reading.{taken_at};
ghost use Rattle.codec.specs.Records.{record_bytes, HasNumbers, IsRecord};
ghost use Rattle.codec.specs.Undoing.{AreAnsweredAt};
ghost use Rattle.tc_log.specs.Appended.{record_of};
ghost use Rattle.tc_log.specs.Index.{is_answered};
ghost use Rattle.record_key.specs.FirstCause.{MayRefuse};
ghost use Rattle.record_key.specs.declared.op.Op.{Op};
ghost use Rattle.record_key.specs.declared.op.Answer.{Answer};
ghost use Rattle.stable.specs.Device.{ForcesPart};
ghost use Rattle.stable.specs.Usage.{IsToCome, is_due, called, failed, failing_in};
ghost use Rattle.tc_log.specs.Kept.{with_appended, with_usage};
ghost use Rattle.framed_log.specs.Refused.{refused_use};
ghost use Rattle.framed_log.specs.Beginning.{beginning};
ghost use Rattle.tc_log.specs.Spelled.{spelled, AreRecords, IsAskedBy, StandsNext, IsPlaceOf};
ghost use Rattle.tc_log.specs.Undoing.{comp_at, inverse_at, next_at, IsToldOf};

use crate::appended::Appended;
use crate::compensated::Compensated;
use crate::note::{ASKS_NOTHING, answer_held, answer_place, note, note_comp};
use crate::write::{write, write_comp};
use codec::{
    CompNumbers, FrameEnd, FrameIndex, Taken, asked_bytes, asked_op, left_to_undo, read_record,
    step_prev, step_txn, take_record,
};
use framed_log::refusal_of;
use history::Record;
use record_key::{Answer, Op, Refusal};
use stable::{CrashLog, LogDevice};
use std::alloc::{AllocError, Global};
use std::marker::Model;

/// Records by their numbers, from 1, kept as bytes on a device. A clause sees the records that were read, the bytes that
/// are left after them, and the device. A reader looks at the bytes where the device holds them: it takes no memory and
/// makes no device call.
#[derive(Drop)]
pub struct Frames<D: LogDevice> {
    device: D,
    // Where the frames that were read end.
    end: usize,
    // Where the frame of each record begins.
    index: FrameIndex,
    // For each record the number of its Answer record, 0 while there is none, and no record's number where it asks for
    // nothing: so whether it is answered is told without reading it.
    answers: Vec<u64>,
    // Where the frame of the next compensation is spelled.
    frame: Vec<u8>,
}

impl<D: LogDevice> Model for Frames<D> {
    ghost use Rattle.std.specs.Prelude.{◌++◌, drop};
    ghost use Rattle.tc_log.specs.Kept.{FramesView, AreIndexed};
    ghost use Rattle.tc_log.specs.Spelled.{records_of};

    ghost Value = { FramesView };

    ghost view = { λ f. record {
      records = records_of (D.forced f.device ++ D.pending f.device) f.index.count;
      left = drop f.end (D.forced f.device ++ D.pending f.device);
      device = record { forced = D.forced f.device; pending = D.pending f.device; usage = D.usage f.device };
    } };

    ghost invariant = { λ f.
        AreIndexed (records_of (D.forced f.device ++ D.pending f.device) f.index.count)
        (D.forced f.device ++ D.pending f.device) (drop f.end (D.forced f.device ++ D.pending f.device))
        f.index.marks f.index.count f.answers.items f.end };
}

impl<D: LogDevice> Frames<D> {
    /// Those of a device of whose bytes none were read.
    pub(crate) fn new(alloc: Global, device: D) -> Frames<D>
        ensures { result ≡ record {
          records = [];
          left = D.forced device ++ D.pending device;
          device = record { forced = D.forced device; pending = D.pending device; usage = D.usage device };
        } }
    {
        Frames {
            device,
            end: 0,
            index: FrameIndex::new(alloc),
            answers: Vec::new(alloc),
            frame: Vec::new(alloc),
        }
    }

    /// The device, as it is.
    pub(crate) fn stop(self) -> D
        ensures forced { D.forced result ≡ self.device.forced }
        ensures pending { D.pending result ≡ self.device.pending }
        ensures usage { D.usage result ≡ self.device.usage }
    {
        let Frames {
            device,
            end: _,
            index: _,
            answers: _,
            frame: _,
        } = self;
        device
    }

    /// A failure of the device that was set is still to come.
    pub(crate) fn to_come(&self)
        ensures { IsToCome self.now.device.usage }
    {
        self.device.kept();
    }

    /// All bytes of the device.
    pub(crate) fn bytes(&self) -> &[u8]
        ensures { result.now ≡ self.now.device.forced ++ self.now.device.pending }
    {
        self.device.held()
    }

    /// How many records there are.
    pub fn len(&self) -> u64
        ensures count { result ≡ length self.now.records }
        ensures numbered { result < 2 ^ 48 }
        ensures legal { IsLegal self.now.records }
        ensures spellable { AreRecords self.now.records }
    {
        self.index.len() as u64
    }

    /// The record of this number.
    pub fn record(&self, number: u64) -> Option<Record>
        ensures { result ≡ record_at self.now.records number }
    {
        let place = place_of(&self.index, self.device.held(), number)?;
        match take_record(self.device.held(), place) {
            Taken::Record(found, _) => Some(found),
            _ => None,
        }
    }

    /// The transaction of the Op or Comp record of this number, told without reading the whole record.
    pub fn step_txn(&self, number: u64) -> Option<u64>
        ensures { result ≡ step_in (record_at self.now.records number) }
    {
        let place = place_of(&self.index, self.device.held(), number)?;
        step_txn(self.device.held(), place)
    }

    /// The operation that the record of this number asks for, told without reading the whole record.
    pub(crate) fn asked_op(&self, number: u64) -> Option<Op>
        ensures { result ≡ request_in (record_at self.now.records number) }
    {
        let place = place_of(&self.index, self.device.held(), number)?;
        asked_op(self.device.held(), place)
    }

    /// The bytes that spell it.
    pub(crate) fn asked_bytes(&self, number: u64) -> Option<&[u8]>
        ensures asked { IfSome result (λ asked. IsAskedBy self.now.records number asked.now) }
        ensures none { IfNone result (request_in (record_at self.now.records number) ≡ None) }
    {
        let place = place_of(&self.index, self.device.held(), number)?;
        asked_bytes(self.device.held(), place)
    }

    /// What is left to undo from the record of this number on, told without reading the whole record: the record where it
    /// is an operation, a compensation's undo-next, else 0.
    pub fn left_to_undo(&self, number: u64) -> u64
        ensures { result ≡ undo_from (record_at self.now.records number) number }
    {
        match place_of(&self.index, self.device.held(), number) {
            Some(place) => left_to_undo(self.device.held(), place, number),
            None => 0,
        }
    }

    /// What the record that undoes an answered operation is made from: where the frames of the operation of this number
    /// and of its Answer record begin, and the number of the operation that is left to undo after it, 0 if none.
    fn undo_sources(&self, number: u64) -> (usize, usize, u64)
        requires { Inverts self.now.records number (inverse_at self.now.records number) }
        ensures places { (t : ℕ) (o : Op) (a : Answer) → IsOpBy self.now.records number t o
            → answer_of self.now.records number ≡ Some a
            → AreAnsweredAt (self.now.device.forced ++ self.now.device.pending) result.0 result.1 o a }
        ensures next { result.2 ≡ next_at self.now.records number }
    {
        let answer = answer_place(self.answers.as_slice(), number);
        let held = self.device.held();
        match (
            place_of(&self.index, held, number),
            place_of(&self.index, held, answer),
        ) {
            (Some(op_at), Some(answer_at)) => {
                let next = self.left_to_undo(step_prev(held, op_at));
                (op_at, answer_at, next)
            }
            _ => unreachable!(),
        }
    }

    pub(crate) fn answer_of(&self, number: u64) -> Option<Answer>
        ensures { result ≡ answer_of self.now.records number }
    {
        let answers = self.answers.as_slice();
        if number == 0 {
            return None;
        }
        answer_held(self.record(answer_place(answers, number)))
    }

    /// The record of this number asks for something, told without reading it.
    pub(crate) fn asks(&self, number: u64) -> bool
        ensures { result ≡ is_some (request_in (record_at self.now.records number)) }
    {
        if number == 0 {
            return false;
        }
        answer_place(self.answers.as_slice(), number) != ASKS_NOTHING
    }

    /// The record of this number asks for nothing, or is answered.
    pub(crate) fn is_answered(&self, number: u64) -> bool
        ensures { result ≡ is_answered self.now.records number }
    {
        if number == 0 {
            return true;
        }
        answer_place(self.answers.as_slice(), number) != 0
    }

    /// Where the frames that were read end.
    pub(crate) fn end(&self) -> usize
        ensures { result ≡ length (spelled self.now.records) }
    {
        self.end
    }

    /// Where the frames of the first records end, so many.
    pub(crate) fn end_of(&self, count: u64) -> usize
        requires { count ≤ length self.now.records }
        ensures { result ≡ length (spelled (beginning self.now.records count)) }
    {
        if count < self.index.len() as u64 {
            self.index.place(self.device.held(), count as usize)
        } else {
            self.end
        }
    }

    /// Nothing is left after the records that were read.
    pub(crate) fn is_read(&self) -> bool
        ensures { IsTrue result ↔ (self.now.left ≡ []) }
    {
        self.device.held().len() <= self.end
    }

    /// Puts what stands after the records that were read in place of another record, and tells where it ends.
    pub(crate) fn next(&self, found: &mut Record) -> FrameEnd
        ensures found { IfTaken (taken_at (length (spelled self.now.records)) result «found».new)
            (StandsNext self.now.records self.now.left) }
        ensures only { (r : Record) (rest : List ℕ) → IsRecord r → self.now.left ≡ frame (record_bytes r) ++ rest
            → taken_at (length (spelled self.now.records)) result «found».new
            ≡ Taken.Record r (length (spelled self.now.records) + length (frame (record_bytes r))) }
        ensures short { (result ≡ FrameEnd.Short) ↔ IsCut 181 self.now.left }
    {
        read_record(self.device.held(), self.end, found)
    }

    /// Counts what stands next among the records that were read.
    pub(crate) fn accept(&mut self, accepted: &Record, next: usize) -> Result<(), AllocError>
        requires stands { StandsNext self.old.records self.old.left accepted.now next }
        requires fits { Fits self.old.records accepted.now }
        requires room { length self.old.records < 281474976710655 }
        ensures records { OnOk result (self.new.records ≡ accepted.now ∷ self.old.records) }
        ensures left { OnOk result (self.old.left ≡ frame (record_bytes accepted.now) ++ self.new.left) }
        ensures device { self.new.device ≡ self.old.device }
        ensures unchanged { OnErr result (self.new ≡ self.old) }
    {
        self.index.reserve()?;
        self.answers.reserve(1)?;
        let number = self.index.len() as u64 + 1;
        note(&mut self.answers, &Appended::Whole(accepted), number);
        self.index.push_reserved(self.end);
        self.end = next;
        Ok(())
    }

    /// Appends a record, in one device call. Refused NoMemory or Device, and unchanged then.
    #[inline(always)]
    pub(crate) fn append(&mut self, appended: &Appended<'_>) -> Result<(), Refusal>
        requires all_read { self.old.left ≡ [] }
        requires fits { Fits self.old.records (record_of appended.now) }
        requires numbers { HasNumbers (record_of appended.now) }
        requires room { length self.old.records < 281474976710655 }
        ensures appended { OnOk result (self.new ≡ with_appended self.old (record_of appended.now)) }
        ensures unchanged { IfErr result (λ refusal.
            self.new ≡ with_usage self.old (refused_use self.old.device.usage refusal)) }
        ensures cause { IfErr result (MayRefuse None) }
        ensures device { IsErrOf result Refusal.Device → IsTrue (is_due self.old.device.usage) }
    {
        self.index.reserve()?;
        self.answers.reserve(1)?;
        write(&mut self.device, appended)?;
        let number = self.index.len() as u64 + 1;
        note(&mut self.answers, appended, number);
        self.index.push_reserved(self.end);
        self.end = self.device.held().len();
        Ok(())
    }

    /// Appends the Comp record by which the transaction undoes the answered operation of number `undoes`, in one device
    /// call, spelled from the bytes of both records. Refused NoMemory or Device, and unchanged then.
    pub(crate) fn append_comp(&mut self, txn: u64, undoes: u64) -> Result<Compensated, Refusal>
        requires all_read { self.old.left ≡ [] }
        requires fits { Fits self.old.records (comp_at self.old.records txn undoes) }
        requires numbers { HasNumbers (comp_at self.old.records txn undoes) }
        requires room { length self.old.records < 281474976710655 }
        ensures appended { OnOk result (self.new ≡ with_appended self.old (comp_at self.old.records txn undoes)) }
        ensures told { IfOk result (IsToldOf self.old.records undoes) }
        ensures unchanged { IfErr result (λ refusal.
            self.new ≡ with_usage self.old (refused_use self.old.device.usage refusal)) }
        ensures cause { IfErr result (MayRefuse None) }
        ensures device { IsErrOf result Refusal.Device → IsTrue (is_due self.old.device.usage) }
    {
        let (op_at, answer_at, next) = self.undo_sources(undoes);
        let numbers = CompNumbers { txn, undoes, next };
        self.index.reserve()?;
        self.answers.reserve(1)?;
        let asks = write_comp(&mut self.device, &mut self.frame, numbers, op_at, answer_at)?;
        let number = self.index.len() as u64 + 1;
        note_comp(&mut self.answers, asks);
        self.index.push_reserved(self.end);
        self.end = self.device.held().len();
        Ok(Compensated { number, next, asks })
    }

    /// Forces all bytes, in one device call. The one refusal is Device, and some bytes may be forced then.
    pub(crate) fn force(&mut self) -> Result<(), Refusal>
        ensures forced { OnOk result (self.new ≡ record self.old {
          device = record {
            forced = self.old.device.forced ++ self.old.device.pending;
            pending = [];
            usage = called self.old.device.usage;
          };
        }) }
        ensures records { OnErr result (self.new.records ≡ self.old.records) }
        ensures left { OnErr result (self.new.left ≡ self.old.left) }
        ensures part { OnErr result (ForcesPart self.old.device.forced self.old.device.pending
            self.new.device.forced self.new.device.pending) }
        ensures whole { OnErr result (D.forces_whole ≡ true → self.new.device.forced ≡ self.old.device.forced) }
        ensures cause { IfErr result (λ refusal. refusal ≡ Refusal.Device) }
        ensures due { OnErr result (IsTrue (is_due self.old.device.usage)) }
        ensures failed { OnErr result (self.new.device.usage ≡ failed self.old.device.usage) }
    {
        if let Err(error) = self.device.force() {
            return Err(refusal_of(error));
        }
        Ok(())
    }

    /// Cuts off what is left after the records, in one device call. The one refusal is Device.
    pub(crate) fn cut(&mut self) -> Result<(), Refusal>
        requires none_pending { self.old.device.pending ≡ [] }
        ensures cut { OnOk result (self.new ≡ record self.old {
          left = [];
          device = record {
            forced = spelled self.old.records;
            pending = [];
            usage = called self.old.device.usage;
          };
        }) }
        ensures uncut { OnErr result (self.new ≡ with_usage self.old (failed self.old.device.usage)) }
        ensures cause { IfErr result (λ refusal. refusal ≡ Refusal.Device) }
        ensures due { OnErr result (IsTrue (is_due self.old.device.usage)) }
    {
        if let Err(error) = self.device.cut(self.end) {
            return Err(refusal_of(error));
        }
        Ok(())
    }
}

impl<D: CrashLog> Frames<D> {
    /// The `n`-th call of the device from now fails.
    pub(crate) fn fail_at(&mut self, n: u64)
        requires { 1 ≤ n }
        ensures { self.new ≡ with_usage self.old (failing_in n self.old.device.usage) }
    {
        self.device.fail_at(n);
    }
}

/// Where the frame of the record of this number begins, if there is one.
fn place_of(index: &FrameIndex, bytes: &[u8], number: u64) -> Option<usize>
    requires { Indexes bytes.now index.now.marks index.now.count }
    ensures some { IfSome result (IsPlaceOf (places_of bytes.now index.now.count) number) }
    ensures none { IfNone result ((number ≡ 0) ⊎ (length (places_of bytes.now index.now.count) < number)) }
{
    if number == 0 || (index.len() as u64) < number {
        return None;
    }
    Some(index.place(bytes, number as usize - 1))
}
