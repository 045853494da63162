//! The calls of both kinds of tables. What is called by this trait promises nothing, so that what calls it is checked
//! soon.
use record_key::{Key, Refusal};
use std::alloc::Global;
use tc_locks::{Mode, PlainLocks, RangeLocks, Span};

pub trait Locks {
    fn made(alloc: Global) -> Self;

    fn take(&mut self, txn: u64, mode: Mode, span: &Span) -> Result<(), Refusal>;

    /// Gives back the newest span of a transaction; whether it has one.
    fn untake(&mut self, txn: u64) -> bool;

    fn release(&mut self, txn: u64);

    fn rebuild(&mut self, locks: &[(u64, Key, Mode)]) -> Result<(), Refusal>;

    fn holds(&self, txn: u64) -> bool;
}

impl Locks for RangeLocks {
    fn made(alloc: Global) -> RangeLocks {
        RangeLocks::new(alloc)
    }

    // A key of a transaction with an odd number is taken as a key, of another one as a span.
    fn take(&mut self, txn: u64, mode: Mode, span: &Span) -> Result<(), Refusal> {
        match span {
            Span::Key(key) if txn % 2 == 1 => self.take_key(txn, mode, key),
            _ => self.take(txn, mode, span),
        }
    }

    fn untake(&mut self, txn: u64) -> bool {
        let holds = self.holds(txn);
        if holds {
            self.untake(txn);
        }
        holds
    }

    fn release(&mut self, txn: u64) {
        self.release(txn);
    }

    fn rebuild(&mut self, locks: &[(u64, Key, Mode)]) -> Result<(), Refusal> {
        self.rebuild(locks)
    }

    fn holds(&self, txn: u64) -> bool {
        self.holds(txn)
    }
}

impl Locks for PlainLocks {
    fn made(alloc: Global) -> PlainLocks {
        PlainLocks::new(alloc)
    }

    // The other way round.
    fn take(&mut self, txn: u64, mode: Mode, span: &Span) -> Result<(), Refusal> {
        match span {
            Span::Key(key) if txn % 2 == 0 => self.take_key(txn, mode, key),
            _ => self.take(txn, mode, span),
        }
    }

    fn untake(&mut self, txn: u64) -> bool {
        let holds = self.holds(txn);
        if holds {
            self.untake(txn);
        }
        holds
    }

    fn release(&mut self, txn: u64) {
        self.release(txn);
    }

    fn rebuild(&mut self, locks: &[(u64, Key, Mode)]) -> Result<(), Refusal> {
        self.rebuild(locks)
    }

    fn holds(&self, txn: u64) -> bool {
        self.holds(txn)
    }
}
