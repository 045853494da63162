//! What becomes of clients when the transaction component crashes.
use crate::holds::Beside;
use crate::kept::{has_committed, losers};
use crate::model::{Model, Service};
use crate::span::Span;
use history::Record;
use std::alloc::{AllocError, Global};

impl Model {
    /// Nobody is served, and nobody is open, commits or holds anything: what is left of them is what the log says.
    pub fn crash(&mut self) {
        self.service = Service::NotConnected;
        self.open.clear();
        self.committing.clear();
        self.losers.clear();
        self.holds.clear();
        self.reads = 0;
    }

    /// This log was kept. Who is open in it is lost: what they did is crossed out at once, and they hold the keys of
    /// their operations until they are told.
    pub fn restart(&mut self, alloc: Global, log: &[Record]) -> Result<(), AllocError> {
        self.lines.forget(log.len() as u64);
        self.losers = losers(alloc, log)?;
        for loser in &self.losers {
            self.lines.cross(*loser, 0);
        }
        for record in log {
            self.hold_again(record)?;
        }
        Ok(())
    }

    fn hold_again(&mut self, record: &Record) -> Result<(), AllocError> {
        if let Record::Op { txn, op, .. } = record
            && self.losers.contains(txn)
        {
            self.holds
                .add(*txn, Span::Key(op.key().copied()), Beside::of(op))?;
        }
        Ok(())
    }

    /// Each that was told that it has committed has done so in this log.
    pub fn is_durable(&self, log: &[Record]) -> bool {
        self.committed.iter().all(|txn| has_committed(log, *txn))
    }
}
