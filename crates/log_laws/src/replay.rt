//! The plain map of a log's history, by doing its operations again one after another.
ghost use Rattle.std.specs.Prelude.{◌≡◌, ◌&&◌, not, is_some, reverse, IfOk};
ghost use Rattle.history.specs.History.{plain};
ghost use Rattle.history.specs.Log.{hist, answer_of, is_crossed};

use crate::reader::{answer, is_undone};
use history::Record;
use record_key::PlainTable;
use std::alloc::{AllocError, Global};

/// The table of the answered operations that no compensation names. The log has the oldest record first.
pub fn plain_history(alloc: Global, log: &[Record]) -> Result<PlainTable, AllocError>
    ensures { IfOk result (λ table. table ≡ plain (hist (reverse log.now))) }
{
    let mut table = PlainTable::new(alloc);
    for (place, record) in log.iter().enumerate() {
        if let Record::Op { op, .. } = record
            && counts(log, place as u64 + 1)
        {
            table.apply(op)?;
        }
    }
    Ok(table)
}

/// The operation of this number is answered, and no compensation names it.
fn counts(log: &[Record], number: u64) -> bool
    ensures { result ≡ (is_some (answer_of (reverse log.now) number) && not (is_crossed (reverse log.now) number)) }
{
    answer(log, number).is_some() && !is_undone(log, number)
}
