//! What changes the log.
ghost use Rattle.std.specs.Prelude.{◌≡◌, ◌++◌, None, length, is_some, IsTrue, OnOk, OnErr, IfOk, IfErr, IsErrOf};
ghost use Rattle.history.specs.declared.record.Record.TheVariants as is;
ghost use Rattle.history.specs.Legal.{Fits};
ghost use Rattle.tc_log.specs.Appended.{record_of};
ghost use Rattle.codec.specs.Frames.{frame};
ghost use Rattle.codec.specs.Records.{record_bytes, HasNumbers, IsRecord};
ghost use Rattle.codec.specs.Undoing.{AreAnsweredAt, comp_of};
ghost use Rattle.inverse.specs.Inverse.{inverse_of};
ghost use Rattle.record_key.specs.declared.op.Op.{Op as OpValue};
ghost use Rattle.record_key.specs.declared.op.Answer.{Answer as AnswerValue};
ghost use Rattle.record_key.specs.FirstCause.{MayRefuse};
ghost use Rattle.codec.specs.Given.{answer_given};
ghost use Rattle.stable.specs.Usage.{is_due, called};
ghost use Rattle.tc_log.specs.LogView.{Appends, spent_refusal, after_refusal, usage_after};
ghost use Rattle.tc_log.specs.Undoing.{comp_at, IsToldOf};

use crate::appended::Appended;
use crate::compensated::Compensated;
use crate::log::Log;
use codec::{CompNumbers, GivenAnswer, put_undo};
use framed_log::refusal_of;
use history::Record;
use record_key::{Op, Refusal};
use stable::LogDevice;

/// The greatest number that a record may have.
pub(crate) const LAST_NUMBER: u64 = 281_474_976_710_655;

impl<D: LogDevice> Log<D> {
    /// Appends a record that fits, in one device call, and answers its number. Refused NumbersSpent, NoMemory or
    /// Device, in this order.
    pub fn append(&mut self, appended: &Record) -> Result<u64, Refusal>
        requires fits { Fits self.old.records appended.now }
        requires numbers { HasNumbers appended.now }
        ensures appended { IfOk result (λ number. Appends self.old appended.now number self.new) }
        ensures refused { IfErr result (MayRefuse (spent_refusal self.old.records)) }
        ensures device { IsErrOf result Refusal.Device → IsTrue (is_due self.old.usage) }
        ensures left { IfErr result (λ refusal. self.new ≡ after_refusal self.old refusal) }
    {
        self.add(&Appended::Whole(appended))
    }

    /// The same of an Op record, whose operation is lent.
    pub fn append_op(&mut self, txn: u64, prev: u64, op: &Op) -> Result<u64, Refusal>
        requires fits { Fits self.old.records (is.Op txn prev op.now) }
        requires numbers { HasNumbers (is.Op txn prev op.now) }
        ensures appended { IfOk result (λ number. Appends self.old (is.Op txn prev op.now) number self.new) }
        ensures refused { IfErr result (MayRefuse (spent_refusal self.old.records)) }
        ensures device { IsErrOf result Refusal.Device → IsTrue (is_due self.old.usage) }
        ensures left { IfErr result (λ refusal. self.new ≡ after_refusal self.old refusal) }
    {
        self.add(&Appended::Op { txn, prev, op })
    }

    /// The same of an Answer record, whose answer is lent.
    pub fn append_answer(&mut self, of: u64, answer: &GivenAnswer<'_>) -> Result<u64, Refusal>
        requires fits { Fits self.old.records (is.Answer of (answer_given answer.now)) }
        requires numbers { HasNumbers (is.Answer of (answer_given answer.now)) }
        ensures appended { IfOk result (λ number.
            Appends self.old (is.Answer of (answer_given answer.now)) number self.new) }
        ensures refused { IfErr result (MayRefuse (spent_refusal self.old.records)) }
        ensures device { IsErrOf result Refusal.Device → IsTrue (is_due self.old.usage) }
        ensures left { IfErr result (λ refusal. self.new ≡ after_refusal self.old refusal) }
    {
        self.add(&Appended::Answer { of, answer })
    }

    #[inline(always)]
    fn add(&mut self, appended: &Appended<'_>) -> Result<u64, Refusal>
        requires fits { Fits self.old.records (record_of appended.now) }
        requires numbers { HasNumbers (record_of appended.now) }
        ensures appended { IfOk result (λ number. Appends self.old (record_of appended.now) number self.new) }
        ensures refused { IfErr result (MayRefuse (spent_refusal self.old.records)) }
        ensures device { IsErrOf result Refusal.Device → IsTrue (is_due self.old.usage) }
        ensures left { IfErr result (λ refusal. self.new ≡ after_refusal self.old refusal) }
    {
        if self.len() >= LAST_NUMBER {
            return Err(Refusal::NumbersSpent);
        }
        self.frames.append(appended)?;
        let number = self.frames.len();
        self.last_not_session = appended.last_with(number, self.last_not_session);
        Ok(number)
    }

    /// Appends the Comp record by which the transaction undoes the answered operation of number `undoes`, in one device
    /// call. It is spelled from the bytes of the operation's record and of its Answer record, and neither is read into a
    /// value. Refused NumbersSpent, NoMemory or Device, in this order.
    pub fn append_comp(&mut self, txn: u64, undoes: u64) -> Result<Compensated, Refusal>
        requires fits { Fits self.old.records (comp_at self.old.records txn undoes) }
        requires numbers { HasNumbers (comp_at self.old.records txn undoes) }
        ensures appended { IfOk result (λ done.
            Appends self.old (comp_at self.old.records txn undoes) done.number self.new) }
        ensures told { IfOk result (IsToldOf self.old.records undoes) }
        ensures refused { IfErr result (MayRefuse (spent_refusal self.old.records)) }
        ensures device { IsErrOf result Refusal.Device → IsTrue (is_due self.old.usage) }
        ensures left { IfErr result (λ refusal. self.new ≡ after_refusal self.old refusal) }
    {
        if self.len() >= LAST_NUMBER {
            return Err(Refusal::NumbersSpent);
        }
        let done = self.frames.append_comp(txn, undoes)?;
        self.last_not_session = done.number;
        Ok(done)
    }

    /// Makes every record stable, in one device call, and answers the number of the last. The one refusal is Device.
    pub fn force(&mut self) -> Result<u64, Refusal>
        ensures end { IfOk result (λ end. end ≡ length self.old.records) }
        ensures forced { OnOk result (self.new ≡ record self.old {
          stable = length self.old.records;
          usage = called self.old.usage;
        }) }
        ensures refused { IfErr result (λ refusal. refusal ≡ Refusal.Device) }
        ensures device { IsErrOf result Refusal.Device → IsTrue (is_due self.old.usage) }
        ensures left { IfErr result (λ refusal. self.new ≡ after_refusal self.old refusal) }
    {
        let end = self.len();
        let answered = self.answered_of_all();
        self.frames.force()?;
        self.stable = end;
        self.answered = answered;
        Ok(end)
    }
}

/// Appends the record's frame to the device.
#[inline(always)]
pub(crate) fn write<D: LogDevice>(device: &mut D, appended: &Appended<'_>) -> Result<(), Refusal>
    requires { HasNumbers (record_of appended.now) }
    ensures written { OnOk result (D.pending device.new
        ≡ D.pending device.old ++ frame (record_bytes (record_of appended.now))) }
    ensures not_written { OnErr result (D.pending device.new ≡ D.pending device.old) }
    ensures forced { D.forced device.new ≡ D.forced device.old }
    ensures cause { IfErr result (MayRefuse None) }
    ensures device { IsErrOf result Refusal.Device → IsTrue (is_due (D.usage device.old)) }
    ensures used { D.usage device.new ≡ usage_after (D.usage device.old) result }
    ensures has_spelling { IsRecord (record_of appended.now) }
{
    match device.append_spelled(appended) {
        Ok(()) => Ok(()),
        Err(error) => Err(refusal_of(error)),
    }
}

/// The same of the Comp record with these numbers that undoes an answered operation, whose record and Answer record stand
/// on the device at these places: it is spelled in the place of what stood in `out`, since bytes of the device are read
/// for it. Answers whether it has an inverse.
pub(crate) fn write_comp<D: LogDevice>(
    device: &mut D,
    out: &mut Vec<u8>,
    numbers: CompNumbers,
    op_at: usize,
    answer_at: usize,
) -> Result<bool, Refusal>
    ensures written { (o : OpValue) (a : AnswerValue)
        → AreAnsweredAt (D.forced device.old ++ D.pending device.old) op_at answer_at o a
        → OnOk result (D.pending device.new ≡ D.pending device.old ++ frame (record_bytes (comp_of numbers o a))) }
    ensures asks { (o : OpValue) (a : AnswerValue)
        → AreAnsweredAt (D.forced device.old ++ D.pending device.old) op_at answer_at o a
        → IfOk result (λ asks. asks ≡ is_some (inverse_of o a)) }
    ensures not_written { OnErr result (D.pending device.new ≡ D.pending device.old) }
    ensures forced { D.forced device.new ≡ D.forced device.old }
    ensures cause { IfErr result (MayRefuse None) }
    ensures device { IsErrOf result Refusal.Device → IsTrue (is_due (D.usage device.old)) }
    ensures used { D.usage device.new ≡ usage_after (D.usage device.old) result }
{
    out.clear();
    let asks = put_undo(out, numbers, device.held(), op_at, answer_at)?;
    match device.append(out) {
        Ok(()) => Ok(asks),
        Err(error) => Err(refusal_of(error)),
    }
}
