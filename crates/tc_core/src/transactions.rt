//! How transactions begin, are saved, rolled back and committed.
ghost use Rattle.std.specs.Prelude.{◌≡◌, ◌<◌, None, Some, OnOk, IfErr, length};
ghost use Rattle.tc_log.specs.LogView.{spent_refusal};
ghost use Rattle.tc_core.specs.Causes.{begin_refusal};
ghost use Rattle.tc_core.specs.Calls.{BeginGives, SaveGives, BackGives, RollbackGives, CommitGives};
ghost use Rattle.tc_core.specs.Kept.{IsTc};
ghost use Rattle.tc_core.specs.Seen.{seen};

use crate::change::Change;
use crate::open_txn::{OpenTxn, Rollback};
use crate::parts::Parts;
use history::Record;
use record_key::Refusal;
use stable::LogDevice;

/// No more transactions are open at a time.
const MOST_OPEN: usize = 64;

impl<D: LogDevice> Parts<D> {
    /// Whether a transaction may begin, memory and the device aside.
    pub fn can_begin(&self) -> Result<(), Refusal>
        ensures allowed { OnOk result (begin_refusal (seen self.now) ≡ None) }
        ensures below { OnOk result (length self.now.open_txns < 64) }
        ensures unspent { OnOk result (spent_refusal self.now.log.records ≡ None) }
        ensures refused { IfErr result (λ refusal. begin_refusal (seen self.now) ≡ Some refusal) }
    {
        self.serving()?;
        if self.open_txns.len() >= MOST_OPEN {
            return Err(Refusal::Full);
        }
        self.can_log()
    }

    pub fn begin(&mut self) -> Result<u64, Refusal>
        requires { IsTc (seen self.old) }
        ensures kept { IsTc (seen self.new) }
        ensures gives { BeginGives (seen self.old) result (seen self.new) }
    {
        self.can_begin()?;
        let txn = self.log.len() + 1;
        self.open_txns.add(OpenTxn::begun(txn))?;
        match self.log.append(&Record::Begin) {
            Ok(_) => Ok(txn),
            Err(refusal) => {
                self.open_txns.remove(txn);
                Err(refusal)
            }
        }
    }

    pub fn save(&mut self, txn: u64) -> Result<u64, Refusal>
        requires { IsTc (seen self.old) }
        ensures kept { IsTc (seen self.new) }
        ensures gives { SaveGives (seen self.old) txn result (seen self.new) }
    {
        let mut saves = self.idle(txn)?.saves.copied();
        let savepoint = saves.save(self.log.len())?;
        self.open_txns.change(txn, Change::Saved(saves));
        Ok(savepoint)
    }

    pub fn back_to(&mut self, txn: u64, savepoint: u64) -> Result<(), Refusal>
        requires { IsTc (seen self.old) }
        ensures kept { IsTc (seen self.new) }
        ensures gives { BackGives (seen self.old) txn savepoint result (seen self.new) }
    {
        let mut saves = self.idle(txn)?.saves.copied();
        let above = saves.back_to(savepoint)?;
        let rollback = Rollback {
            savepoint: Some(savepoint),
            above,
        };
        self.open_txns
            .change(txn, Change::GoesBack { rollback, saves });
        Ok(())
    }

    pub fn rollback(&mut self, txn: u64) -> Result<(), Refusal>
        requires { IsTc (seen self.old) }
        ensures kept { IsTc (seen self.new) }
        ensures gives { RollbackGives (seen self.old) txn result (seen self.new) }
    {
        self.idle(txn)?;
        self.open_txns.change(txn, Change::Rolls);
        Ok(())
    }

    pub fn commit(&mut self, txn: u64) -> Result<u64, Refusal>
        requires { IsTc (seen self.old) }
        ensures kept { IsTc (seen self.new) }
        ensures gives { CommitGives (seen self.old) txn result (seen self.new) }
    {
        self.idle(txn)?;
        self.can_log()?;
        self.committing.reserve(1)?;
        let number = self.log.append(&Record::Commit { txn })?;
        self.open_txns.remove(txn);
        self.committing.push_reserved(txn);
        Ok(number)
    }
}
