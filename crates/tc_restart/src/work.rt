//! Whom a restart rolls back, and where redo starts.
ghost use Rattle.std.specs.Prelude.{◌≡◌, ◌+◌, ◌<◌, ◌^◌, ℕ, length, IfOk, IfErr};
ghost use Rattle.std.specs.BTreeMap.{get};
ghost use Rattle.std.specs.Ordering.{nat_cmp};
ghost use Rattle.history.specs.Legal.{IsLegal};
ghost use Rattle.tc_log.specs.Replay.{KeptOf, IsAnalysis};
ghost use Rattle.tc_restart.specs.Losers.{AreLosers};
ghost use Rattle.tc_restart.specs.Plan.{IsRedoStart};

use crate::heaps::Heaps;
use crate::loser::Loser;
use crate::losers::Losers;
use record_key::Refusal;
use stable::LogDevice;
use std::alloc::{AllocError, Global};
use std::collections::BTreeMap;
use tc_log::{Analysis, Found, Frames};

/// What a restart has to do.
#[derive(Drop)]
pub struct Work {
    /// The transactions that have neither a Commit nor an End.
    pub losers: Losers,
    /// One past the greatest number that a Checkpoint record names, else 1.
    pub redo_start: u64,
}

/// What the log of a device leaves to do. It was read already, and is not passed over again. Refused NoMemory alone.
pub fn find_work<D: LogDevice>(alloc: Global, found: &Found<D>) -> Result<Work, Refusal>
    ensures losers { IfOk result (λ work. AreLosers found.now.records work.losers) }
    ensures all { IfOk result (λ work. work.losers.below ≡ length found.now.records + 1) }
    ensures redo { IfOk result (λ work. IsRedoStart found.now.records work.redo_start) }
    ensures refused { IfErr result (λ refusal. refusal ≡ Refusal.NoMemory) }
{
    Ok(work_of(alloc, found.frames(), found.analysis())?)
}

/// The same of records and what is known of them.
pub(crate) fn work_of<D: LogDevice>(
    alloc: Global,
    frames: &Frames<D>,
    analysis: &Analysis,
) -> Result<Work, AllocError>
    requires known { IsAnalysis frames.now.records analysis.now }
    requires legal { IsLegal frames.now.records }
    requires numbered { length frames.now.records < 2 ^ 48 }
    ensures losers { IfOk result (λ work. AreLosers frames.now.records work.losers) }
    ensures all { IfOk result (λ work. work.losers.below ≡ length frames.now.records + 1) }
    ensures redo { IfOk result (λ work. IsRedoStart frames.now.records work.redo_start) }
{
    Ok(Work {
        losers: losers_of(alloc, frames, &analysis.open_txns)?,
        // No Checkpoint of a legal log names a number past the last.
        redo_start: analysis.checkpointed + 1,
    })
}

/// The open transactions with their latest steps as losers.
fn losers_of<D: LogDevice>(
    alloc: Global,
    frames: &Frames<D>,
    open_txns: &BTreeMap<u64, u64>,
) -> Result<Losers, AllocError>
    requires { (t : ℕ) → KeptOf frames.now.records t (get nat_cmp open_txns.now t) }
    ensures losers { IfOk result (AreLosers frames.now.records) }
    ensures all { IfOk result (λ losers. losers.below ≡ length frames.now.records + 1) }
{
    let mut heaps = Heaps::with_room(alloc, frames.len() + 1, open_txns.len())?;
    for (txn, last) in open_txns {
        heaps.add(Loser {
            left: frames.left_to_undo(*last),
            txn: *txn,
            last: *last,
        });
    }
    Ok(Losers { heaps })
}
