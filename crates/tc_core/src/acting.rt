//! Operations and reads of transactions, each with its lock.
ghost use Rattle.tc_core.specs.Calls.{ActGives, ReadGives};
ghost use Rattle.tc_core.specs.Kept.{IsTc};
ghost use Rattle.tc_core.specs.Seen.{seen};

use crate::change::Change;
use crate::locking::{mode_for, take, take_key};
use crate::open_txn::Read;
use crate::parts::{LAST_NUMBER, Parts};
use record_key::{Key, Op, Refusal};
use stable::LogDevice;
use tc_locks::{Mode, Span};

impl<D: LogDevice> Parts<D> {
    pub fn act(&mut self, txn: u64, op: &Op) -> Result<u64, Refusal>
        requires { IsTc (seen self.old) }
        ensures kept { IsTc (seen self.new) }
        ensures gives { ActGives (seen self.old) txn op.now result (seen self.new) }
    {
        let prev = self.idle(txn)?.last;
        let spent = self.log.len() >= LAST_NUMBER;
        take_key(&mut self.locks, spent, txn, mode_for(op), op.key())?;
        match self.log.append_op(txn, prev, op) {
            Ok(number) => {
                let waiting = Some(number);
                self.open_txns.change(
                    txn,
                    Change::Stepped {
                        number,
                        undo: number,
                        waiting,
                    },
                );
                Ok(number)
            }
            Err(refusal) => {
                self.locks.untake(txn);
                Err(refusal)
            }
        }
    }

    /// Locks the key and asks for its value.
    #[tactic(auto, using(tc_locks::proofs::KeyEnds::key_range))]
    pub fn read_key(&mut self, txn: u64, key: &Key) -> Result<u64, Refusal>
        requires { IsTc (seen self.old) }
        ensures kept { IsTc (seen self.new) }
        ensures gives { ReadGives (seen self.old) txn (Span.Key key.now) result (seen self.new) }
    {
        self.idle(txn)?;
        let spent = self.reads >= LAST_NUMBER;
        take_key(&mut self.locks, spent, txn, Mode::Shared, key)?;
        self.reads += 1;
        let number = self.reads;
        let span = Span::Key(key.copied());
        self.open_txns
            .change(txn, Change::Reads(Read { number, span }));
        Ok(number)
    }

    /// Locks the span and asks for what stands in it.
    pub fn read(&mut self, txn: u64, span: Span) -> Result<u64, Refusal>
        requires { IsTc (seen self.old) }
        ensures kept { IsTc (seen self.new) }
        ensures gives { ReadGives (seen self.old) txn span result (seen self.new) }
    {
        if !span.is_range() {
            return Err(Refusal::BadRange);
        }
        self.idle(txn)?;
        let spent = self.reads >= LAST_NUMBER;
        take(&mut self.locks, spent, txn, Mode::Shared, &span)?;
        self.reads += 1;
        let number = self.reads;
        self.open_txns
            .change(txn, Change::Reads(Read { number, span }));
        Ok(number)
    }
}
