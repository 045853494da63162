//! What a restart asks of a log, kept while its records are read one after another.
ghost use Rattle.std.specs.Prelude.{◌≡◌, [], OnOk, OnErr};
ghost use Rattle.std.specs.BTreeMap.{get, IsUnchanged};
ghost use Rattle.std.specs.Ordering.{nat_cmp};
ghost use Rattle.tc_log.specs.Checkpointed.{raised_by};
ghost use Rattle.tc_log.specs.Replay.{Follows, IsAnalysis, TakesIn};

use history::Record;
use std::alloc::{AllocError, Global};
use std::collections::BTreeMap;

/// Who is open, and where redo may start. (Analysis before redo and undo is from ARIES, Mohan et al., 1992.)
#[derive(Drop)]
pub struct Analysis {
    /// For each open transaction its latest Op or Comp record, 0 if it has none.
    pub open_txns: BTreeMap<u64, u64>,
    /// The greatest number that a Checkpoint record names, 0 if none.
    pub checkpointed: u64,
}

impl Analysis {
    /// Of no records.
    pub fn new(alloc: Global) -> Analysis
        ensures { IsAnalysis [] result }
    {
        Analysis {
            open_txns: BTreeMap::new(alloc),
            checkpointed: 0,
        }
    }

    /// Takes in a record of this number, the next one. Refused for memory, and unchanged then.
    pub fn follow(&mut self, accepted: &Record, number: u64) -> Result<(), AllocError>
        ensures taken { OnOk result (TakesIn accepted.now number self.old self.new) }
        ensures unchanged { OnErr result (IsUnchanged self.old.open_txns self.new.open_txns
            × (self.new.checkpointed ≡ self.old.checkpointed)) }
    {
        note_step(&mut self.open_txns, accepted, number)?;
        self.checkpointed = raised(self.checkpointed, accepted);
        Ok(())
    }
}

/// Notes what a record of this number changes of the open transactions.
fn note_step(
    open_txns: &mut BTreeMap<u64, u64>,
    accepted: &Record,
    number: u64,
) -> Result<(), AllocError>
    ensures follows { OnOk result
        (Follows accepted.now number (get nat_cmp open_txns.old) (get nat_cmp open_txns.new)) }
    ensures unchanged { OnErr result (IsUnchanged open_txns.old open_txns.new) }
{
    match accepted {
        Record::Begin => {
            open_txns.insert(number, 0)?;
        }
        Record::Op { txn, .. } | Record::Comp { txn, .. } => {
            open_txns.insert(*txn, number)?;
        }
        Record::Commit { txn } | Record::End { txn } => {
            open_txns.remove(txn);
        }
        _ => {}
    }
    Ok(())
}

/// The greater of the number and the one that the record names as a checkpoint.
fn raised(checkpointed: u64, accepted: &Record) -> u64
    ensures { result ≡ raised_by accepted.now checkpointed }
{
    match accepted {
        Record::Checkpoint { low } if checkpointed < *low => *low,
        _ => checkpointed,
    }
}
