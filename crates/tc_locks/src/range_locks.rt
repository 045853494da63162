//! The lock table that looks only where a conflict can be. While one transaction alone asks for locks there is no index.
ghost use Rattle.std.specs.Prelude.{◌≡◌, ◌≢◌, ◌∷◌, [], drop, true, IfOk, IfErr, IfSome, IfNone, OnOk, OnErr};
ghost use Rattle.std.specs.Bool.{MatchBool};
ghost use Rattle.record_key.specs.Order.{ends_above, HasKeys};
ghost use Rattle.tc_locks.specs.Locks.{spans_of, set_spans, IsGrantable, IsLeastHolder, Refuses};
ghost use Rattle.tc_locks.specs.Meant.{low_of, high_of, meant, range_of, span_of};
ghost use Rattle.tc_locks.specs.Rebuilt.{IsRebuilt};

use crate::adding::{add, make_index};
use crate::entry::Entry;
use crate::held::Held;
use crate::index::{forget, search};
use crate::places::{first_at, keys_to, ranges_to};
use crate::span::{Lock, Mode, Span};
use record_key::{Key, Refusal};
use std::alloc::Global;
use std::collections::BTreeSet;
use std::marker::Model;
use std::ops::Bound;

/// By transaction its spans.
#[derive(Debug, Drop)]
pub struct RangeLocks {
    held: Held,
    // Each lock with its holder in one order.
    index: Option<BTreeSet<Entry>>,
    alloc: Global,
}

impl Model for RangeLocks {
    ghost use Rattle.tc_locks.specs.Locks.{LocksView};
    ghost use Rattle.tc_locks.specs.Meant.{seen};
    ghost use Rattle.tc_locks.specs.Index.{IsKept};

    ghost Value = { LocksView };

    ghost view = { λ r. seen r.held };

    ghost invariant = { λ r. IsKept r.held r.index };
}

impl RangeLocks {
    /// The table where nothing is held. Takes no memory; the allocator serves later locks.
    pub fn new(alloc: Global) -> RangeLocks
        ensures { result ≡ [] }
    {
        RangeLocks {
            held: Held::new(alloc),
            index: None,
            alloc,
        }
    }

    /// Takes the span for the transaction. Refused BadRange where a range's `high` isn't above its `low`,
    /// Busy with the least holder where another transaction holds a conflicting span, NoMemory; unchanged
    /// then. The first of these causes is given.
    pub fn take(&mut self, txn: u64, mode: Mode, span: &Span) -> Result<(), Refusal>
        ensures range { OnOk result (HasKeys (range_of span.now)) }
        ensures free { OnOk result (IsGrantable self.old txn (meant mode span.now)) }
        ensures taken { OnOk result (self.new ≡ set_spans txn (meant mode span.now ∷ spans_of self.old txn) self.old) }
        ensures refused { IfErr result (Refuses self.old txn (meant mode span.now)) }
        ensures unchanged { OnErr result (self.new ≡ self.old) }
    {
        if !span.is_range() {
            return Err(Refusal::BadRange);
        }
        let lock = Lock {
            span: span.copied(),
            mode,
        };
        if self.held.is_alone(txn) {
            return add(self.alloc, &mut self.held, &mut self.index, txn, lock);
        }
        // Busy is told before NoMemory, so a refused index waits.
        let indexed = make_index(self.alloc, &self.held, &mut self.index);
        if let Some(holder) = self.least_holder(txn, &lock) {
            return Err(Refusal::Busy(holder));
        }
        indexed?;
        add(self.alloc, &mut self.held, &mut self.index, txn, lock)
    }

    /// Takes one key for the transaction, as `take` takes its span. Without an index, where nobody else has a lock, it is
    /// added at once.
    #[tactic(auto, using(crate::proofs::KeyEnds::key_range))]
    pub fn take_key(&mut self, txn: u64, mode: Mode, key: &Key) -> Result<(), Refusal>
        ensures range { OnOk result (HasKeys (range_of (Span.Key key.now))) }
        ensures free { OnOk result (IsGrantable self.old txn (meant mode (Span.Key key.now))) }
        ensures taken { OnOk result
            (self.new ≡ set_spans txn (meant mode (Span.Key key.now) ∷ spans_of self.old txn) self.old) }
        ensures refused { IfErr result (Refuses self.old txn (meant mode (Span.Key key.now))) }
        ensures unchanged { OnErr result (self.new ≡ self.old) }
    {
        if self.index.is_none() && self.held.is_alone(txn) {
            return self.held.push(self.alloc, txn, Lock::of_key(key, mode));
        }
        self.take(txn, mode, &Span::Key(key.copied()))
    }

    /// Holds just these keys from now on, each for what is listed with it, in the order in which they are listed, a
    /// key twice where it is listed twice. Whether two transactions' keys conflict isn't asked. Refused NoMemory;
    /// unchanged then.
    pub fn rebuild(&mut self, locks: &[(u64, Key, Mode)]) -> Result<(), Refusal>
        ensures rebuilt { OnOk result (IsRebuilt locks.now self.new) }
        ensures refused { IfErr result (λ refusal. refusal ≡ Refusal.NoMemory) }
        ensures unchanged { OnErr result (self.new ≡ self.old) }
    {
        *self = RangeLocks::of_keys(self.alloc, locks)?;
        Ok(())
    }

    /// Whether the transaction holds a span.
    pub fn holds(&self, txn: u64) -> bool
        ensures { MatchBool result (spans_of self.now txn ≢ []) (spans_of self.now txn ≡ []) }
    {
        self.held.holds(txn)
    }

    /// Gives back the transaction's newest span and nothing else. It has one. Takes no memory. The index goes with the
    /// last lock.
    pub fn untake(&mut self, txn: u64)
        requires { spans_of self.old txn ≢ [] }
        ensures { self.new ≡ set_spans txn (drop 1 (spans_of self.old txn)) self.old }
    {
        let lock = self.held.pop(txn);
        if self.held.is_empty() {
            self.index = None;
        } else if let Some(index) = &mut self.index {
            let entry = Entry { lock, txn };
            if !self.held.has(&entry) {
                index.remove(&entry);
            }
        }
    }

    /// Gives back all spans of the transaction and no others. Takes no memory. The index goes with the last lock.
    pub fn release(&mut self, txn: u64)
        ensures { self.new ≡ set_spans txn [] self.old }
    {
        if let Some(locks) = self.held.drop_all(txn) {
            if self.held.is_empty() {
                self.index = None;
            } else if let Some(index) = &mut self.index {
                forget(index, txn, locks.as_slice());
            }
        }
    }

    /// Where just these keys are held. Refused NoMemory.
    fn of_keys(alloc: Global, locks: &[(u64, Key, Mode)]) -> Result<RangeLocks, Refusal>
        ensures rebuilt { IfOk result (IsRebuilt locks.now) }
        ensures refused { IfErr result (λ refusal. refusal ≡ Refusal.NoMemory) }
    {
        let mut table = RangeLocks::new(alloc);
        for (txn, key, mode) in locks {
            table.hold(*txn, Lock::of_key(key, *mode))?;
        }
        Ok(table)
    }

    /// Adds the newest lock of a transaction, whoever else holds what. Refused NoMemory.
    fn hold(&mut self, txn: u64, lock: Lock) -> Result<(), Refusal>
        ensures taken { OnOk result (self.new ≡ set_spans txn (span_of lock ∷ spans_of self.old txn) self.old) }
        ensures refused { IfErr result (λ refusal. refusal ≡ Refusal.NoMemory) }
    {
        if !self.held.is_alone(txn) {
            make_index(self.alloc, &self.held, &mut self.index)?;
        }
        add(self.alloc, &mut self.held, &mut self.index, txn, lock)
    }

    /// Of the other transactions that hold a conflicting lock, the least one. By the index it looks at the ranges that
    /// begin below the span's upper end, and at the keys in the span.
    fn least_holder(&self, txn: u64, lock: &Lock) -> Option<u64>
        requires { ends_above (high_of lock.now.span) (low_of lock.now.span) ≡ true }
        ensures free { IfNone result (IsGrantable self.now txn (span_of lock.now)) }
        ensures least { IfSome result (IsLeastHolder self.now txn (span_of lock.now)) }
    {
        let Some(index) = &self.index else {
            return self.held.least_holder(txn, lock);
        };
        let of_ranges = search(
            index,
            Bound::Unbounded,
            ranges_to(&lock.span),
            txn,
            lock,
            None,
        );
        let from = Bound::Included(first_at(lock.span.low()));
        search(index, from, keys_to(&lock.span), txn, lock, of_ranges)
    }
}
