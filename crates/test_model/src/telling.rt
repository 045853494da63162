//! What each client is told.
use crate::model::{Model, Service};
use crate::open::Doing;
use crate::span::Span;
use codec::Rows;
use node_laws::Out;
use node_laws::tc_core::Committed;
use record_key::{Answer, Key, Refusal, Value};
use std::alloc::{AllocError, Global};
use std::mem;

impl Model {
    /// Where an output tells something, what it has to tell; nothing, where nobody waits for it.
    pub fn tell(&mut self, alloc: Global, out: &Out) -> Result<Option<Out>, AllocError> {
        Ok(match out {
            Out::Answered { txn, .. } => Some(self.answered(alloc, *txn)?),
            Out::Row { txn, .. } => Some(self.row(alloc, *txn)?),
            Out::Rows { txn, .. } => Some(self.rows(alloc, *txn)?),
            Out::Back { txn, .. } => Some(self.back(*txn)),
            Out::RolledBack(txn) => Some(self.rolled_back(*txn)),
            Out::Lost(txn) => Some(self.lost(*txn)),
            _ => self.turned(alloc, out)?,
        })
    }

    /// A force, or what becomes of a session.
    fn turned(&mut self, alloc: Global, out: &Out) -> Result<Option<Out>, AllocError> {
        Ok(match out {
            Out::Stable { end, .. } => Some(Out::Stable {
                end: *end,
                committed: self.tell_committed(alloc)?,
            }),
            Out::Connects { request, .. } => {
                self.service = Service::Redoing;
                Some(Out::Connects {
                    request: *request,
                    committed: self.tell_committed(alloc)?,
                })
            }
            Out::RedoEnded(_) => {
                self.service = Service::Running;
                None
            }
            _ => None,
        })
    }

    /// Who has committed is told, and holds nothing any more.
    fn tell_committed(&mut self, alloc: Global) -> Result<Committed, AllocError> {
        let txns = mem::replace(&mut self.committing, Vec::new(alloc));
        for txn in &txns {
            self.holds.release(*txn);
            self.committed.push(*txn)?;
        }
        Ok(Committed::new(txns))
    }

    fn answered(&mut self, alloc: Global, txn: u64) -> Result<Out, AllocError> {
        if !self.waits(txn) {
            return Ok(Out::Nothing);
        }
        self.goes_on(txn, Doing::Nothing);
        Ok(match self.lines.answer(alloc, txn)? {
            Some(answer) => Out::Answered { txn, answer },
            None => Out::Nothing,
        })
    }

    fn waits(&self, txn: u64) -> bool {
        match self.find(txn) {
            Some(open) => matches!(open.doing, Doing::WaitsForAnswer),
            None => false,
        }
    }

    fn row(&mut self, alloc: Global, txn: u64) -> Result<Out, AllocError> {
        let Some(Span::Key(_)) = self.reads(txn) else {
            return Ok(Out::Nothing);
        };
        let rows = self.told_rows(alloc, txn)?;
        let value = match rows.first() {
            Some(row) => Some(row.1.copied()),
            None => None,
        };
        Ok(Out::Row { txn, value })
    }

    fn rows(&mut self, alloc: Global, txn: u64) -> Result<Out, AllocError> {
        let Some(Span::Range { .. }) = self.reads(txn) else {
            return Ok(Out::Nothing);
        };
        let told = self.told_rows(alloc, txn)?;
        match packed(alloc, &told) {
            Ok(rows) => Ok(Out::Rows { txn, rows }),
            Err(_) => Err(AllocError),
        }
    }

    /// The span that the transaction reads.
    fn reads(&self, txn: u64) -> Option<&Span> {
        match &self.find(txn)?.doing {
            Doing::Reads(span) => Some(span),
            _ => None,
        }
    }

    /// The rows that the transaction reads. It is told, and goes on.
    fn told_rows(&mut self, alloc: Global, txn: u64) -> Result<Vec<(Key, Value)>, AllocError> {
        let rows = match self.reads(txn) {
            Some(span) => self.lines.rows(alloc, span)?,
            None => Vec::new(alloc),
        };
        self.goes_on(txn, Doing::Nothing);
        Ok(rows)
    }

    fn back(&mut self, txn: u64) -> Out {
        let Some(savepoint) = self.goes_back(txn) else {
            return Out::Nothing;
        };
        self.goes_on(txn, Doing::Nothing);
        Out::Back { txn, savepoint }
    }

    fn goes_back(&self, txn: u64) -> Option<u64> {
        match &self.find(txn)?.doing {
            Doing::GoesBack(savepoint) => Some(*savepoint),
            _ => None,
        }
    }

    fn rolled_back(&mut self, txn: u64) -> Out {
        if !self.rolls_back(txn) {
            return Out::Nothing;
        }
        self.close(txn);
        self.holds.release(txn);
        Out::RolledBack(txn)
    }

    /// What a crash found open is undone.
    fn lost(&mut self, txn: u64) -> Out {
        if !self.losers.contains(&txn) {
            return Out::Nothing;
        }
        self.losers.retain(|loser| *loser != txn);
        self.holds.release(txn);
        Out::Lost(txn)
    }

    fn rolls_back(&self, txn: u64) -> bool {
        match self.find(txn) {
            Some(open) => matches!(open.doing, Doing::RollsBack),
            None => false,
        }
    }
}

fn packed(alloc: Global, rows: &[(Key, Value)]) -> Result<Rows, Refusal> {
    let mut packed = Rows::new(alloc);
    for (key, value) in rows {
        packed.push(key, &value.lent())?;
    }
    Ok(packed)
}
