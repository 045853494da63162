//! What transactions hold.
use crate::span::Span;
use record_key::{Key, Op, Refusal};
use std::alloc::{AllocError, Global};

/// With whom a span is held: with others that read, with others that add, or with nobody.
#[derive(Clone, Copy, PartialEq, Eq)]
pub enum Beside {
    Readers,
    Adders,
    Nobody,
}

impl Beside {
    /// Those beside whom the operation's key is held.
    pub fn of(op: &Op) -> Beside {
        match op {
            Op::Add(_, _) => Beside::Adders,
            _ => Beside::Nobody,
        }
    }
}

/// A span that a transaction holds.
#[derive(Drop)]
struct Hold {
    txn: u64,
    span: Span,
    beside: Beside,
}

impl Hold {
    /// Another transaction may not take the span beside this one.
    fn bars(&self, txn: u64, span: &Span, beside: Beside) -> bool {
        let agree = self.beside == beside && beside != Beside::Nobody;
        self.txn != txn && !agree && self.span.meets(span)
    }
}

/// Every span that is held, in the order in which they were taken.
#[derive(Drop)]
pub struct Holds {
    holds: Vec<Hold>,
}

impl Holds {
    pub fn new(alloc: Global) -> Holds {
        Holds {
            holds: Vec::new(alloc),
        }
    }

    /// The transaction takes the span. Refused Busy with the least transaction that bars it.
    pub fn take(&mut self, txn: u64, span: Span, beside: Beside) -> Result<(), Refusal> {
        if let Some(holder) = self.least_bar(txn, &span, beside) {
            return Err(Refusal::Busy(holder));
        }
        self.add(txn, span, beside)?;
        Ok(())
    }

    /// The transaction holds the span, which nobody bars.
    pub fn add(&mut self, txn: u64, span: Span, beside: Beside) -> Result<(), AllocError> {
        self.holds.push(Hold { txn, span, beside })?;
        Ok(())
    }

    /// Nobody holds anything any more.
    pub fn clear(&mut self) {
        self.holds.clear();
    }

    /// Another transaction than this one has added to the key.
    pub fn has_adder(&self, txn: u64, key: &Key) -> bool {
        for hold in &self.holds {
            if hold.txn != txn && hold.beside == Beside::Adders && hold.span.has(key) {
                return true;
            }
        }
        false
    }

    fn least_bar(&self, txn: u64, span: &Span, beside: Beside) -> Option<u64> {
        let mut least = None;
        for hold in &self.holds {
            if hold.bars(txn, span, beside) {
                least = Some(lesser(least, hold.txn));
            }
        }
        least
    }

    /// The transaction gives back all that it holds.
    pub fn release(&mut self, txn: u64) {
        self.holds.retain(|hold| hold.txn != txn);
    }
}

fn lesser(least: Option<u64>, txn: u64) -> u64 {
    match least {
        Some(least) if least < txn => least,
        _ => txn,
    }
}
