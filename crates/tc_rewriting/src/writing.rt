//! Rows are written by one transaction, which commits.
ghost use Rattle.std.specs.Prelude.{◌≡◌, ◌+◌, ◌<◌, ◌^◌, [], length, None, OnOk, IfOk, IfErr};
ghost use Rattle.codec.specs.Fields.{IsNumber};
ghost use Rattle.history.specs.Values.{value_on};
ghost use Rattle.tc_log.specs.Opening.{IsLogOf};
ghost use Rattle.tc_log.specs.Spelled.{spelled};
ghost use Rattle.record_key.specs.Rows.{AreInOrder};
ghost use Rattle.tc_rewriting.specs.Written.{with_row, written, count_with, AllHaveEnded, IsWriting, Lacks, RefusesRecords};

use history::Record;
use record_key::{Answer, Key, Op, Refusal, Value};
use stable::LogDevice;
use std::alloc::Global;
use tc_log::{Log, Refused};

/// Writes the rows on an empty device, and forces them: what the device has then is the log of one transaction, which
/// inserts them in order and has committed. Refused NumbersSpent, NoMemory, Device: then the device is handed back with
/// what was written by then, which tells of no table.
pub fn rewrite<D: LogDevice>(
    alloc: Global,
    device: D,
    rows: &[(Key, Value)],
) -> Result<D, Refused<D>>
where
    D: Drop,
    requires empty { (D.forced device ≡ []) × (D.pending device ≡ []) }
    requires sorted { AreInOrder rows.now }
    ensures forced { IfOk result (λ left. D.forced left ≡ spelled (written rows.now [])) }
    ensures none_pending { IfOk result (λ left. D.pending left ≡ []) }
    ensures log { IfOk result (λ left. IsLogOf (D.forced left) (written rows.now [])) }
    ensures refused { IfErr result (λ left. RefusesRecords (count_with 0 rows.now) left.refusal) }
{
    let mut log = Log::new(alloc, device);
    match write_forced(&mut log, rows) {
        Ok(()) => Ok(log.stop()),
        Err(refusal) => Err(Refused {
            refusal,
            device: log.stop(),
        }),
    }
}

/// Writes rows, which a log lacks in which all have ended, and forces them. Refused as `write_rows` is.
fn write_forced<D: LogDevice>(log: &mut Log<D>, rows: &[(Key, Value)]) -> Result<(), Refusal>
    requires ended { AllHaveEnded log.old.records }
    requires sorted { AreInOrder rows.now }
    requires lacks { Lacks log.old.records rows.now }
    ensures written { OnOk result (log.new.records ≡ written rows.now log.old.records) }
    ensures forced { OnOk result (log.new.stable ≡ length log.new.records) }
    ensures numbered { OnOk result (length log.new.records < 2 ^ 48) }
    ensures refused { IfErr result (RefusesRecords (count_with (length log.old.records) rows.now)) }
{
    write_rows(log, rows)?;
    log.force()?;
    // Called for what it tells of the records: each has a number.
    let _count = log.len();
    Ok(())
}

/// Writes rows, which a log lacks in which all have ended, by a transaction of their own. Refused NumbersSpent, NoMemory,
/// Device: then a beginning of that transaction may stand.
pub fn write_rows<D: LogDevice>(log: &mut Log<D>, rows: &[(Key, Value)]) -> Result<(), Refusal>
    requires ended { AllHaveEnded log.old.records }
    requires sorted { AreInOrder rows.now }
    requires lacks { Lacks log.old.records rows.now }
    ensures written { OnOk result (log.new.records ≡ written rows.now log.old.records) }
    ensures refused { IfErr result (RefusesRecords (count_with (length log.old.records) rows.now)) }
{
    let txn = log.append(&Record::Begin)?;
    let mut prev = 0;
    for row in rows {
        prev = insert(log, txn, prev, row)?;
    }
    log.append(&Record::Commit { txn })?;
    Ok(())
}

/// Inserts a row that isn't there, and logs its answer. Gives the number of the operation.
fn insert<D: LogDevice>(
    log: &mut Log<D>,
    txn: u64,
    prev: u64,
    row: &(Key, Value),
) -> Result<u64, Refusal>
    requires writing { IsWriting log.old.records txn prev }
    requires lacks { value_on row.now.0 log.old.records ≡ None }
    requires txn { IsNumber txn }
    requires prev { IsNumber prev }
    ensures inserted { OnOk result (log.new.records ≡ with_row txn prev row.now log.old.records) }
    ensures number { IfOk result (λ number. number ≡ length log.old.records + 1) }
    ensures numbered { IfOk result IsNumber }
    ensures refused { IfErr result (RefusesRecords (length log.old.records + 2)) }
{
    let op = Op::Insert(row.0.copied(), row.1.copied());
    let number = log.append_op(txn, prev, &op)?;
    log.append(&Record::Answer {
        of: number,
        answer: Answer::Inserted,
    })?;
    Ok(number)
}
