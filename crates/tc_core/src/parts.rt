//! The parts of the transaction component.
ghost use Rattle.std.specs.Prelude.{◌≡◌, ◌≤◌, [], true, Some, None, IfOk, IfErr, OnOk};
ghost use Rattle.stable.specs.Usage.{failing_in};
ghost use Rattle.tc_log.specs.LogView.{spent_refusal};
ghost use Rattle.tc_core.specs.TcView.{fresh_tc, used_so, is_running, is_serving};
ghost use Rattle.tc_core.specs.Causes.{running_refusal, serving_refusal, open_refusal, answered_refusal, idle_refusal};
ghost use Rattle.tc_core.specs.Finds.{FindsOpen, FindsAnswered, FindsIdle};
ghost use Rattle.tc_core.specs.Kept.{IsTc};
ghost use Rattle.tc_core.specs.Seen.{seen};

use crate::open_txn::OpenTxn;
use crate::open_txns::OpenTxns;
use crate::phase::Phase;
use record_key::Refusal;
use stable::{CrashLog, LogDevice};
use std::alloc::Global;
use tc_locks::RangeLocks;
use tc_log::Log;
use tc_restart::Losers;

/// The greatest number that a record or a read may have.
pub const LAST_NUMBER: u64 = 281_474_976_710_655;

/// The log, the session, what the data component may forget, the open transactions, those that are committing, the
/// losers, and the locks of all these.
#[derive(Drop)]
pub struct Parts<D: LogDevice> {
    pub log: Log<D>,
    /// The number of the latest session, 0 where there is none.
    pub session: u64,
    pub phase: Phase,
    /// How many reads were asked.
    pub reads: u64,
    /// The greatest number that was announced in this session, 0 before any.
    pub announced: u64,
    /// What the latest checkpoint of this session asked for, until it is logged.
    pub checkpointing: Option<u64>,
    /// The greatest number that a Checkpoint record names, 0 if none.
    pub checkpointed: u64,
    pub open_txns: OpenTxns,
    /// Whose Commit record isn't stable, in the order of these records.
    pub committing: Vec<u64>,
    /// Those of the log that was opened that haven't ended since.
    pub losers: Losers,
    pub locks: RangeLocks,
}

impl<D: LogDevice> Parts<D> {
    pub fn new(alloc: Global, device: D) -> Parts<D>
        requires empty { (D.forced device ≡ []) × (D.pending device ≡ []) }
        ensures kept { IsTc (seen result) }
        ensures fresh { seen result ≡ fresh_tc (D.usage device) }
    {
        Parts {
            log: Log::new(alloc, device),
            session: 0,
            phase: Phase::Unconnected,
            reads: 0,
            announced: 0,
            checkpointing: None,
            checkpointed: 0,
            open_txns: OpenTxns::new(alloc),
            committing: Vec::new(alloc),
            losers: Losers::nobody(alloc),
            locks: RangeLocks::new(alloc),
        }
    }

    /// Whether one more record may be logged.
    pub fn can_log(&self) -> Result<(), Refusal>
        ensures unspent { OnOk result (spent_refusal self.now.log.records ≡ None) }
        ensures refused { IfErr result (λ refusal. spent_refusal self.now.log.records ≡ Some refusal) }
    {
        if self.log.len() >= LAST_NUMBER {
            return Err(Refusal::NumbersSpent);
        }
        Ok(())
    }

    /// Whether the data component may be told what it may forget.
    pub fn running(&self) -> Result<(), Refusal>
        ensures ok { OnOk result (is_running self.now.phase ≡ true) }
        ensures allowed { OnOk result (running_refusal (seen self.now) ≡ None) }
        ensures refused { IfErr result (λ refusal. running_refusal (seen self.now) ≡ Some refusal) }
    {
        match self.phase {
            Phase::Unconnected => Err(Refusal::NotConnected),
            Phase::Connecting | Phase::Redoing { .. } | Phase::Undoing { .. } => {
                Err(Refusal::Redoing)
            }
            Phase::Running => Ok(()),
        }
    }

    /// Whether clients are served.
    pub fn serving(&self) -> Result<(), Refusal>
        ensures ok { OnOk result (is_serving self.now.phase ≡ true) }
        ensures allowed { OnOk result (serving_refusal (seen self.now) ≡ None) }
        ensures refused { IfErr result (λ refusal. serving_refusal (seen self.now) ≡ Some refusal) }
    {
        match self.phase {
            Phase::Unconnected => Err(Refusal::NotConnected),
            Phase::Connecting | Phase::Redoing { .. } => Err(Refusal::Redoing),
            Phase::Undoing { .. } | Phase::Running => Ok(()),
        }
    }

    /// The open transaction of this number.
    pub fn open_at(&self, txn: u64) -> Result<&OpenTxn, Refusal>
        ensures found { IfOk result (λ opened. FindsOpen (seen self.now) txn opened.now) }
        ensures refused { IfErr result (λ refusal. open_refusal (seen self.now) txn ≡ Some refusal) }
    {
        self.serving()?;
        match self.open_txns.find(txn) {
            Some(opened) => Ok(opened),
            None => Err(Refusal::NotOpen),
        }
    }

    /// That transaction, where it waits for nothing.
    pub fn answered(&self, txn: u64) -> Result<&OpenTxn, Refusal>
        ensures found { IfOk result (λ opened. FindsAnswered (seen self.now) txn opened.now) }
        ensures refused { IfErr result (λ refusal. answered_refusal (seen self.now) txn ≡ Some refusal) }
    {
        let opened = self.open_at(txn)?;
        if opened.waits() {
            return Err(Refusal::Unanswered);
        }
        Ok(opened)
    }

    /// That transaction, where it waits for nothing and isn't being rolled back.
    pub fn idle(&self, txn: u64) -> Result<&OpenTxn, Refusal>
        ensures found { IfOk result (λ opened. FindsIdle (seen self.now) txn opened.now) }
        ensures refused { IfErr result (λ refusal. idle_refusal (seen self.now) txn ≡ Some refusal) }
    {
        let opened = self.open_at(txn)?;
        if opened.rolling.is_some() {
            return Err(Refusal::RollingBack);
        }
        if opened.waits() {
            return Err(Refusal::Unanswered);
        }
        Ok(opened)
    }
}

impl<D: CrashLog> Parts<D> {
    /// The `n`-th call of the log's device from now fails.
    pub fn fail_at(&mut self, n: u64)
        requires number { 1 ≤ n }
        requires kept { IsTc (seen self.old) }
        ensures kept { IsTc (seen self.new) }
        ensures set { seen self.new ≡ used_so (seen self.old) (failing_in n self.old.log.usage) }
    {
        self.log.fail_at(n);
    }
}
