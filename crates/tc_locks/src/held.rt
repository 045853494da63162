//! The locks of each transaction, the oldest first.
ghost use Rattle.std.specs.Prelude.{◌≡◌, ◌≢◌, ℕ, ◌∷◌, ◌++◌, [], true, drop, IfOk, IfErr, IfSome, IfNone, OnOk, OnErr};
ghost use Rattle.std.specs.Bool.{MatchBool};
ghost use Rattle.std.specs.List.{list_any};
ghost use Rattle.tc_locks.specs.Locks.{spans_of, set_spans, IsGrantable, IsLeastHolder};
ghost use Rattle.tc_locks.specs.Meant.{span_of, seen, items_of, locks_in, Lists, clashes_with, blocks};
ghost use Rattle.tc_locks.specs.Index.{stands};
ghost use Rattle.tc_locks.specs.Least.{lesser};
ghost use Rattle.tc_locks.specs.Rebuilt.{IsRebuilt};

use crate::entry::Entry;
use crate::span::{Lock, Mode};
use record_key::{Key, Refusal};
use std::alloc::Global;
use std::collections::BTreeMap;

/// By transaction its locks.
#[derive(Debug, Drop)]
pub struct Held {
    pub by_txn: BTreeMap<u64, Vec<Lock>>,
}

impl Held {
    pub fn new(alloc: Global) -> Held
        ensures { seen result ≡ [] }
    {
        Held {
            by_txn: BTreeMap::new(alloc),
        }
    }

    /// Where just these keys are held. Refused NoMemory.
    pub fn of_keys(alloc: Global, locks: &[(u64, Key, Mode)]) -> Result<Held, Refusal>
        ensures rebuilt { IfOk result (λ held. IsRebuilt locks.now (seen held)) }
        ensures refused { IfErr result (λ refusal. refusal ≡ Refusal.NoMemory) }
    {
        let mut held = Held::new(alloc);
        for (txn, key, mode) in locks {
            held.push(alloc, *txn, Lock::of_key(key, *mode))?;
        }
        Ok(held)
    }

    /// Adds the newest lock of a transaction. Refused NoMemory.
    #[inline(always)]
    pub fn push(&mut self, alloc: Global, txn: u64, lock: Lock) -> Result<(), Refusal>
        ensures listed { OnOk result (Lists self.old txn (locks_in self.old txn ++ lock ∷ []) self.new) }
        ensures taken { OnOk result
            (seen self.new ≡ set_spans txn (span_of lock ∷ spans_of (seen self.old) txn) (seen self.old)) }
        ensures refused { IfErr result (λ refusal. refusal ≡ Refusal.NoMemory) }
        ensures unchanged { OnErr result (seen self.new ≡ seen self.old) }
        ensures unlisted { OnErr result ((u : ℕ) → locks_in self.new u ≡ locks_in self.old u) }
    {
        match self.by_txn.get_mut(&txn) {
            Some(locks) => locks.push(lock)?,
            None => {
                let mut locks = Vec::new(alloc);
                locks.push(lock)?;
                self.by_txn.insert(txn, locks)?;
            }
        }
        Ok(())
    }

    /// Gives back the newest lock of a transaction that has one. Takes no memory.
    pub fn pop(&mut self, txn: u64) -> Lock
        requires { spans_of (seen self.old) txn ≢ [] }
        ensures was { locks_in self.old txn ≡ locks_in self.new txn ++ result ∷ [] }
        ensures others { (u : ℕ) → u ≢ txn → locks_in self.new u ≡ locks_in self.old u }
        ensures untaken { seen self.new ≡ set_spans txn (drop 1 (spans_of (seen self.old) txn)) (seen self.old) }
    {
        match self.by_txn.get_mut(&txn) {
            Some(locks) => match locks.pop() {
                Some(lock) => {
                    if locks.is_empty() {
                        self.by_txn.remove(&txn);
                    }
                    lock
                }
                None => unreachable!(),
            },
            None => unreachable!(),
        }
    }

    /// Gives back all locks of a transaction. Takes no memory.
    pub fn drop_all(&mut self, txn: u64) -> Option<Vec<Lock>>
        ensures was { items_of result ≡ locks_in self.old txn }
        ensures listed { Lists self.old txn [] self.new }
        ensures released { seen self.new ≡ set_spans txn [] (seen self.old) }
    {
        self.by_txn.remove(&txn)
    }

    /// Whether the transaction has a lock.
    pub fn holds(&self, txn: u64) -> bool
        ensures { MatchBool result (spans_of (seen self.now) txn ≢ []) (spans_of (seen self.now) txn ≡ []) }
    {
        match self.by_txn.get(&txn) {
            Some(locks) => !locks.is_empty(),
            None => false,
        }
    }

    /// Whether nobody has a lock. False may be said where it is so.
    pub fn is_empty(&self) -> bool
        ensures { result ≡ true → (u : ℕ) → locks_in self.now u ≡ [] }
    {
        self.by_txn.is_empty()
    }

    /// Whether no transaction but this one has a lock: then nothing is in its way. False may be said where it is so.
    pub fn is_alone(&self, txn: u64) -> bool
        ensures { result ≡ true → (u : ℕ) → u ≢ txn → spans_of (seen self.now) u ≡ [] }
    {
        match self.by_txn.len() {
            0 => true,
            1 => self.by_txn.contains_key(&txn),
            _ => false,
        }
    }

    /// Whether the entry's transaction holds the entry's lock.
    pub fn has(&self, entry: &Entry) -> bool
        ensures { result ≡ stands self.now entry.now }
    {
        match self.by_txn.get(&entry.txn) {
            Some(locks) => locks.iter().any(|held| held.cmp(&entry.lock).is_eq()),
            None => false,
        }
    }

    /// Of the other transactions that hold a conflicting lock, the least one. Looks at each lock.
    pub fn least_holder(&self, txn: u64, lock: &Lock) -> Option<u64>
        ensures free { IfNone result (IsGrantable (seen self.now) txn (span_of lock.now)) }
        ensures least { IfSome result (IsLeastHolder (seen self.now) txn (span_of lock.now)) }
    {
        let mut least = None;
        for (holder, locks) in &self.by_txn {
            if blocks(txn, lock, *holder, locks) {
                least = Some(lesser(least, *holder));
            }
        }
        least
    }
}

/// Whether the holder is another transaction, and one of its locks conflicts.
fn blocks(txn: u64, lock: &Lock, holder: u64, locks: &Vec<Lock>) -> bool
    ensures { result ≡ blocks txn lock.now (holder, locks.now) }
{
    holder != txn && any_conflicts(locks.as_slice(), lock)
}

fn any_conflicts(locks: &[Lock], lock: &Lock) -> bool
    ensures { result ≡ list_any (clashes_with lock.now) locks.now }
{
    locks.iter().any(|held| lock.conflicts(held))
}

/// The lesser of two transactions, where there are two.
pub fn lesser(least: Option<u64>, holder: u64) -> u64
    ensures { result ≡ lesser least holder }
{
    match least {
        Some(least) if least < holder => least,
        _ => holder,
    }
}
