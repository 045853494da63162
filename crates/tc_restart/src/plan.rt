//! What a restart has to do, as the log says.
ghost use Rattle.std.specs.Prelude.{◌≡◌, ◌+◌, length, IfOk, IfErr};
ghost use Rattle.tc_restart.specs.Lists.{Lists};
ghost use Rattle.tc_restart.specs.Losers.{AreLosers};
ghost use Rattle.tc_restart.specs.Plan.{HasCommit, IsRedoStart, AreMissing};

use crate::findings;
use crate::losers::Losers;
use crate::work::work_of;
use record_key::Refusal;
use stable::LogDevice;
use std::alloc::Global;
use tc_log::Log;

/// What a log says after a crash.
#[derive(Drop)]
pub struct Plan {
    /// The transactions that have a Commit record.
    pub winners: Vec<u64>,
    /// The transactions that have neither a Commit nor an End.
    pub losers: Losers,
    /// One past the greatest number that a Checkpoint record names, else 1.
    pub redo_start: u64,
    /// The numbers of the requests that have no Answer record, rising.
    pub missing: Vec<u64>,
}

/// What the log says, by one pass over its records. Refused NoMemory alone.
pub fn analyse<D: LogDevice>(alloc: Global, log: &Log<D>) -> Result<Plan, Refusal>
    ensures winners { IfOk result (λ plan. Lists (HasCommit log.now.records) plan.winners.items) }
    ensures losers { IfOk result (λ plan. AreLosers log.now.records plan.losers) }
    ensures all { IfOk result (λ plan. plan.losers.below ≡ length log.now.records + 1) }
    ensures redo { IfOk result (λ plan. IsRedoStart log.now.records plan.redo_start) }
    ensures missing { IfOk result (λ plan. AreMissing log.now.records (length log.now.records) plan.missing.items) }
    ensures refused { IfErr result (λ refusal. refusal ≡ Refusal.NoMemory) }
{
    let found = findings::read(alloc, log)?;
    let work = work_of(alloc, log.frames(), &found.analysis)?;
    Ok(Plan {
        winners: found.winners,
        losers: work.losers,
        redo_start: work.redo_start,
        missing: found.missing,
    })
}
