//! One list of operations, with the undone ones crossed out.
use crate::span::Span;
use record_key::{Answer, Key, Op, PlainTable, Value};
use std::alloc::{AllocError, Global};

#[derive(Drop)]
struct Line {
    /// That of the record.
    number: u64,
    txn: u64,
    op: Op,
    answered: bool,
    crossed: bool,
}

/// The operations in the order in which they were logged.
#[derive(Drop)]
pub struct Lines {
    lines: Vec<Line>,
}

impl Lines {
    pub fn new(alloc: Global) -> Lines {
        Lines {
            lines: Vec::new(alloc),
        }
    }

    /// How many were logged.
    pub fn len(&self) -> usize {
        self.lines.len()
    }

    /// The transaction's operation was logged under this number.
    pub fn add(&mut self, number: u64, txn: u64, op: &Op) -> Result<(), AllocError> {
        self.lines.push(Line {
            number,
            txn,
            op: op.copied(),
            answered: false,
            crossed: false,
        })?;
        Ok(())
    }

    /// The transaction and the operation that were logged last.
    pub fn last(&self) -> Option<(u64, &Op)> {
        let line = self.lines.last()?;
        Some((line.txn, &line.op))
    }

    /// The operation that the transaction waits for was done before an earlier one on its key.
    pub fn overtakes(&self, txn: u64) -> bool {
        let mut earlier = false;
        for line in self.lines.iter().rev() {
            if line.answered {
                continue;
            }
            if line.txn == txn {
                earlier = self.has_earlier(line);
            }
        }
        earlier
    }

    fn has_earlier(&self, later: &Line) -> bool {
        for line in &self.lines {
            if !line.answered && line.number < later.number && line.op.key() == later.op.key() {
                return true;
            }
        }
        false
    }

    /// How many above this number were answered.
    pub fn answered_above(&self, above: u64) -> usize {
        let mut count = 0usize;
        for line in &self.lines {
            if line.answered && line.number > above {
                count = count.saturating_add(1);
            }
        }
        count
    }

    /// The operations above this number are lost, whether they were answered or not.
    pub fn forget(&mut self, above: u64) {
        self.lines.retain(|line| line.number <= above);
    }

    /// The transaction's operations from this place on are crossed out.
    pub fn cross(&mut self, txn: u64, from: usize) {
        for (place, line) in self.lines.iter_mut().enumerate() {
            if line.txn == txn && place >= from {
                line.crossed = true;
            }
        }
    }

    /// The answer of the operation that the transaction waits for: that of the plain table.
    pub fn answer(&mut self, alloc: Global, txn: u64) -> Result<Option<Answer>, AllocError> {
        let mut table = self.replay(alloc)?;
        for line in self.lines.iter_mut() {
            if line.txn == txn && !line.answered {
                line.answered = true;
                return Ok(Some(table.apply(&line.op)?));
            }
        }
        Ok(None)
    }

    /// The plain table's rows in the span.
    pub fn rows(&self, alloc: Global, span: &Span) -> Result<Vec<(Key, Value)>, AllocError> {
        let mut rows = Vec::new(alloc);
        let table = self.replay(alloc)?;
        for row in table.rows() {
            if span.has(&row.0) {
                rows.push((row.0.copied(), row.1.copied()))?;
            }
        }
        Ok(rows)
    }

    /// The table of the answered operations that stand, each done again.
    pub fn replay(&self, alloc: Global) -> Result<PlainTable, AllocError> {
        let mut table = PlainTable::new(alloc);
        for line in &self.lines {
            if line.answered && !line.crossed {
                table.apply(&line.op)?;
            }
        }
        Ok(table)
    }
}
