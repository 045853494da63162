//! What one pass over the records finds.
ghost use Rattle.std.specs.Prelude.{◌≡◌, ◌-◌, ◌<◌, ◌^◌, ◌++◌, List, Some, length, IfOk, OnOk};
ghost use Rattle.history.specs.declared.record.Record.{Record};
ghost use Rattle.history.specs.Log.{record_at};
ghost use Rattle.history.specs.Legal.{IsLegal};
ghost use Rattle.tc_restart.specs.Plan.{AreFindings, IsFound, committed_by, lacking};

use history::Record;
use stable::LogDevice;
use std::alloc::{AllocError, Global};
use tc_log::{Analysis, Log};

#[derive(Drop)]
pub(crate) struct Findings {
    pub(crate) analysis: Analysis,
    // The transactions that have committed.
    pub(crate) winners: Vec<u64>,
    // The requests that have no answer.
    pub(crate) missing: Vec<u64>,
}

/// What is found in all records, by one pass.
pub(crate) fn read<D: LogDevice>(alloc: Global, log: &Log<D>) -> Result<Findings, AllocError>
    ensures found { IfOk result (AreFindings log.now.records) }
    ensures numbered { length log.now.records < 2 ^ 48 }
    ensures legal { IsLegal log.now.records }
{
    let mut findings = Findings::new(alloc);
    for end in 0..log.len() {
        match log.record(end + 1) {
            Some(found) => findings.take(log, &found, end + 1)?,
            None => unreachable!(),
        }
    }
    Ok(findings)
}

impl Findings {
    fn new(alloc: Global) -> Findings
        ensures { (log : List Record) → IsFound log 0 result }
    {
        Findings {
            analysis: Analysis::new(alloc),
            winners: Vec::new(alloc),
            missing: Vec::new(alloc),
        }
    }

    /// Takes in the record of this number, the next one.
    fn take<D: LogDevice>(
        &mut self,
        log: &Log<D>,
        found: &Record,
        number: u64,
    ) -> Result<(), AllocError>
        requires legal { IsLegal log.now.records }
        requires stands { record_at log.now.records number ≡ Some found.now }
        requires so_far { IsFound log.now.records (number - 1) self.old }
        ensures { OnOk result (IsFound log.now.records number self.new) }
    {
        self.analysis.follow(found, number)?;
        note_commit(&mut self.winners, found)?;
        note_missing(&mut self.missing, log, number)?;
        Ok(())
    }
}

/// Notes the transaction that the record commits.
fn note_commit(winners: &mut Vec<u64>, found: &Record) -> Result<(), AllocError>
    ensures { OnOk result (winners.new.items ≡ winners.old.items ++ committed_by found.now) }
{
    if let Record::Commit { txn } = found {
        winners.push(*txn)?;
    }
    Ok(())
}

/// Notes the number of a request that has no answer.
fn note_missing<D: LogDevice>(
    missing: &mut Vec<u64>,
    log: &Log<D>,
    number: u64,
) -> Result<(), AllocError>
    ensures { OnOk result (missing.new.items ≡ missing.old.items ++ lacking log.now.records number) }
{
    if log.lacks_answer(number) {
        missing.push(number)?;
    }
    Ok(())
}
