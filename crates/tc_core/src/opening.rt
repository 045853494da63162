//! Making a component of what a crash left.
ghost use Rattle.std.specs.Prelude.{true, ◌≡◌, ◌++◌, ◌+◌, ◌-◌, ◌≤◌, ℕ, Some, [], length, IfOk, IfErr, OnOk};
ghost use Rattle.std.specs.BTreeMap.{get};
ghost use Rattle.std.specs.Ordering.{nat_cmp};
ghost use Rattle.stable.specs.Crash.{BeginsWith};
ghost use Rattle.history.specs.declared.record.Record.{Record};
ghost use Rattle.history.specs.Log.{record_at};
ghost use Rattle.framed_log.specs.Beginning.{beginning};
ghost use Rattle.tc_log.specs.Opening.{IsLogOf};
ghost use Rattle.tc_log.specs.Replay.{KeptOf, IsAnalysis};
ghost use Rattle.tc_log.specs.Spelled.{spelled, AreRecords};
ghost use Rattle.tc_locks.specs.Rebuilt.{listed_spans};
ghost use Rattle.tc_restart.specs.Losers.{AreLosers};
ghost use Rattle.tc_restart.specs.Plan.{IsRedoStart};
ghost use Rattle.tc_core.specs.Locking.{op_spans};
ghost use Rattle.tc_core.specs.Opening.{key_noted, spans_if, HoldsOpen, IsMadeOf, RefusesMaking, opened};
ghost use Rattle.tc_core.specs.Kept.{IsTc};
ghost use Rattle.tc_core.specs.Seen.{seen};

use crate::locking::mode_for;
use crate::open_txns::OpenTxns;
use crate::parts::Parts;
use crate::phase::Phase;
use history::Record;
use record_key::{Key, Refusal};
use stable::LogDevice;
use std::alloc::{AllocError, Global};
use std::collections::BTreeMap;
use tc_locks::{Mode, RangeLocks};
use tc_log::{Found, Frames, Log, Refused};
use tc_restart::{Work, find_work};

impl<D: LogDevice> Parts<D> {
    pub fn over(alloc: Global, found: Found<D>) -> Result<Parts<D>, Refused<D>>
        ensures kept { IfOk result (λ parts. IsTc (seen parts)) }
        ensures made { IfOk result (λ parts. IsMadeOf found.bytes found.usage (seen parts)) }
        ensures log { IfOk result (λ parts. parts.log.records ≡ found.records) }
        ensures refused { IfErr result (λ left. RefusesMaking found left.refusal (D.usage left.device)) }
        ensures forced { IfErr result (λ left. D.forced left.device ≡ found.bytes) }
        ensures none_pending { IfErr result (λ left. D.pending left.device ≡ []) }
    {
        let (work, locks) = match work_and_locks(alloc, &found) {
            Ok(outcome) => outcome,
            Err(refusal) => {
                return Err(Refused {
                    refusal,
                    device: found.stop(),
                });
            }
        };
        match found.open() {
            Ok(log) => Ok(Parts::of(alloc, log, work, locks)),
            Err(refused) => Err(refused),
        }
    }

    /// Not connected yet, with the log and what it leaves to do.
    fn of(alloc: Global, log: Log<D>, work: Work, locks: RangeLocks) -> Parts<D>
        requires redo { 1 ≤ work.redo_start }
        ensures { seen result ≡ record (opened log.records log.usage (work.redo_start - 1) work.losers locks) {
          stable = log.stable;
        } }
    {
        Parts {
            log,
            session: 0,
            phase: Phase::Unconnected,
            reads: 0,
            announced: 0,
            checkpointing: None,
            checkpointed: work.redo_start - 1,
            open_txns: OpenTxns::new(alloc),
            committing: Vec::new(alloc),
            losers: work.losers,
            locks,
        }
    }

    pub fn stop(self) -> D
        ensures holds { D.forced result ++ D.pending result ≡ spelled self.log.records }
        ensures forced { BeginsWith (D.forced result) (spelled (beginning self.log.records self.log.stable)) }
        ensures just { D.forces_whole ≡ true
            → D.forced result ≡ spelled (beginning self.log.records self.log.stable) }
        ensures spellable { AreRecords self.log.records }
        ensures usage { D.usage result ≡ self.log.usage }
    {
        self.log.stop()
    }
}

/// What the log leaves to do, and the locks of its losers; the bytes spell that log. Refused NoMemory alone.
fn work_and_locks<D: LogDevice>(
    alloc: Global,
    found: &Found<D>,
) -> Result<(Work, RangeLocks), Refusal>
    ensures log { OnOk result (IsLogOf found.now.bytes found.now.records) }
    ensures losers { IfOk result (λ outcome. AreLosers found.now.records outcome.0.losers) }
    ensures all { IfOk result (λ outcome. outcome.0.losers.below ≡ length found.now.records + 1) }
    ensures redo { IfOk result (λ outcome. IsRedoStart found.now.records outcome.0.redo_start) }
    ensures held { IfOk result (λ outcome. HoldsOpen found.now.records outcome.1) }
    ensures refused { IfErr result (λ refusal. refusal ≡ Refusal.NoMemory) }
{
    let work = find_work(alloc, found)?;
    let locks = held(alloc, found.frames(), &found.analysis().open_txns)?;
    Ok((work, locks))
}

/// The keys of these transactions' operations, compensated or not, each with its transaction.
fn keys_of<D: LogDevice>(
    alloc: Global,
    frames: &Frames<D>,
    open_txns: &BTreeMap<u64, u64>,
) -> Result<Vec<(u64, Key, Mode)>, AllocError>
    ensures { IfOk result (λ keys. (t : ℕ) → listed_spans keys.items t
        ≡ spans_if (get nat_cmp open_txns.now t) (op_spans frames.now.records t)) }
{
    let records = frames.len();
    let mut keys = Vec::new(alloc);
    for end in first_open(open_txns, records)..records {
        note_key(&mut keys, open_txns, frames, end + 1)?;
    }
    Ok(keys)
}

/// The number of the first of these transactions' beginnings, or of the last record: no operation of theirs stands
/// before.
fn first_open(open_txns: &BTreeMap<u64, u64>, last: u64) -> u64
    ensures within { result ≤ last }
    ensures first { (t n : ℕ) → get nat_cmp open_txns.now t ≡ Some n → result ≤ t }
{
    match open_txns.first_key_value() {
        Some((txn, _)) => (*txn).min(last),
        None => last,
    }
}

/// Notes the key of the record of this number, where it is an operation of one of these transactions. No other record
/// is read whole.
fn note_key<D: LogDevice>(
    keys: &mut Vec<(u64, Key, Mode)>,
    open_txns: &BTreeMap<u64, u64>,
    frames: &Frames<D>,
    number: u64,
) -> Result<(), AllocError>
    ensures { (r : Record) → record_at frames.now.records number ≡ Some r
        → OnOk result (keys.new.items ≡ keys.old.items ++ key_noted r (get nat_cmp open_txns.now)) }
{
    let Some(step_txn) = frames.step_txn(number) else {
        return Ok(());
    };
    if !open_txns.contains_key(&step_txn) {
        return Ok(());
    }
    if let Some(Record::Op { txn, op, .. }) = frames.record(number) {
        keys.push((txn, op.key().copied(), mode_for(&op)))?;
    }
    Ok(())
}

/// The locks of these transactions. Refused NoMemory alone.
fn held<D: LogDevice>(
    alloc: Global,
    frames: &Frames<D>,
    open_txns: &BTreeMap<u64, u64>,
) -> Result<RangeLocks, Refusal>
    requires { (t : ℕ) → KeptOf frames.now.records t (get nat_cmp open_txns.now t) }
    ensures held { IfOk result (HoldsOpen frames.now.records) }
    ensures refused { IfErr result (λ refusal. refusal ≡ Refusal.NoMemory) }
{
    let keys = keys_of(alloc, frames, open_txns)?;
    let mut locks = RangeLocks::new(alloc);
    locks.rebuild(keys.as_slice())?;
    Ok(locks)
}
