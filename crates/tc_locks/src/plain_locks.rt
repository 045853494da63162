//! The lock table that looks at each lock.
ghost use Rattle.std.specs.Prelude.{◌≡◌, ◌≢◌, ◌∷◌, [], drop, IfErr, OnOk, OnErr};
ghost use Rattle.std.specs.Bool.{MatchBool};
ghost use Rattle.record_key.specs.Order.{HasKeys};
ghost use Rattle.tc_locks.specs.Locks.{spans_of, set_spans, IsGrantable, Refuses};
ghost use Rattle.tc_locks.specs.Meant.{meant, range_of};
ghost use Rattle.tc_locks.specs.Rebuilt.{IsRebuilt};

use crate::held::Held;
use crate::span::{Lock, Mode, Span};
use record_key::{Key, Refusal};
use std::alloc::Global;
use std::marker::Model;

/// By transaction its spans.
#[derive(Debug, Drop)]
pub struct PlainLocks {
    held: Held,
    alloc: Global,
}

impl Model for PlainLocks {
    ghost use Rattle.tc_locks.specs.Locks.{LocksView};
    ghost use Rattle.tc_locks.specs.Meant.{seen};

    ghost Value = { LocksView };

    ghost view = { λ p. seen p.held };
}

impl PlainLocks {
    /// The table where nothing is held. Takes no memory.
    pub fn new(alloc: Global) -> PlainLocks
        ensures { result ≡ [] }
    {
        PlainLocks {
            held: Held::new(alloc),
            alloc,
        }
    }

    /// Takes the span for the transaction. Refused BadRange where a range's `high` isn't above its `low`,
    /// Busy with the least holder where another transaction holds a conflicting span, NoMemory; unchanged
    /// then. The first of these causes is given.
    pub fn take(&mut self, txn: u64, mode: Mode, span: &Span) -> Result<(), Refusal>
        ensures range { OnOk result (HasKeys (range_of span.now)) }
        ensures free { OnOk result (IsGrantable self.old txn (meant mode span.now)) }
        ensures taken { OnOk result (self.new ≡ set_spans txn (meant mode span.now ∷ spans_of self.old txn) self.old) }
        ensures refused { IfErr result (Refuses self.old txn (meant mode span.now)) }
        ensures unchanged { OnErr result (self.new ≡ self.old) }
    {
        if !span.is_range() {
            return Err(Refusal::BadRange);
        }
        let lock = Lock {
            span: span.copied(),
            mode,
        };
        if let Some(holder) = self.held.least_holder(txn, &lock) {
            return Err(Refusal::Busy(holder));
        }
        self.held.push(self.alloc, txn, lock)
    }

    /// Takes one key for the transaction, as `take` takes its span.
    pub fn take_key(&mut self, txn: u64, mode: Mode, key: &Key) -> Result<(), Refusal>
        ensures range { OnOk result (HasKeys (range_of (Span.Key key.now))) }
        ensures free { OnOk result (IsGrantable self.old txn (meant mode (Span.Key key.now))) }
        ensures taken { OnOk result
            (self.new ≡ set_spans txn (meant mode (Span.Key key.now) ∷ spans_of self.old txn) self.old) }
        ensures refused { IfErr result (Refuses self.old txn (meant mode (Span.Key key.now))) }
        ensures unchanged { OnErr result (self.new ≡ self.old) }
    {
        self.take(txn, mode, &Span::Key(key.copied()))
    }

    /// Holds just these keys from now on, each for what is listed with it, in the order in which they are listed, a
    /// key twice where it is listed twice. Whether two transactions' keys conflict isn't asked. Refused NoMemory;
    /// unchanged then.
    pub fn rebuild(&mut self, locks: &[(u64, Key, Mode)]) -> Result<(), Refusal>
        ensures rebuilt { OnOk result (IsRebuilt locks.now self.new) }
        ensures refused { IfErr result (λ refusal. refusal ≡ Refusal.NoMemory) }
        ensures unchanged { OnErr result (self.new ≡ self.old) }
    {
        self.held = Held::of_keys(self.alloc, locks)?;
        Ok(())
    }

    /// Whether the transaction holds a span.
    pub fn holds(&self, txn: u64) -> bool
        ensures { MatchBool result (spans_of self.now txn ≢ []) (spans_of self.now txn ≡ []) }
    {
        self.held.holds(txn)
    }

    /// Gives back the transaction's newest span and nothing else. It has one. Takes no memory.
    pub fn untake(&mut self, txn: u64)
        requires { spans_of self.old txn ≢ [] }
        ensures { self.new ≡ set_spans txn (drop 1 (spans_of self.old txn)) self.old }
    {
        self.held.pop(txn);
    }

    /// Gives back all spans of the transaction and no others. Takes no memory.
    pub fn release(&mut self, txn: u64)
        ensures { self.new ≡ set_spans txn [] self.old }
    {
        self.held.drop_all(txn);
    }
}
