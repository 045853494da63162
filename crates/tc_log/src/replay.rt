//! An index by transaction and by key, which tells in one pass whether each record fits those before it.
ghost use Rattle.std.specs.Prelude.{◌≡◌, ◌≤◌, ◌+◌, ◌↔◌, ◌∷◌, ◌++◌, [], IsTrue, OnOk, Some, None, List, ℕ, filter, if◌then◌else◌};
ghost use Rattle.std.specs.BTreeMap.{btree_map_len};
ghost use Rattle.std.specs.Bool.{MatchBool};
ghost use Rattle.std.specs.List.{list_all};
ghost use Rattle.record_key.specs.Table.{key_of, is_add};
ghost use Rattle.history.specs.Legal.{IsKeyFree};
ghost use Rattle.tc_log.specs.NotSession.{last_with as with_this};
ghost use Rattle.tc_log.specs.Replay.{IsIndex, IsAnalysis, TakesIn, ReadyOf, latest_in, holder_in, adders_of, agrees, agrees_if, Holds, Gains, Puts};
ghost use Rattle.tc_log.specs.Adders.{stays, PutsAdders};
ghost use Rattle.tc_log.specs.KeysKept.{keys_kept};

use crate::adders::Adders;
use crate::analysis::Analysis;
use crate::frames::Frames;
use crate::not_session::last_with;
use history::Record;
use record_key::{Key, Op};
use stable::LogDevice;
use std::alloc::{AllocError, Global};
use std::collections::BTreeMap;

#[derive(Drop)]
pub(crate) struct Index {
    pub(crate) analysis: Analysis,
    // For each key the transaction of its latest operation that is no Add: if another is open, it has none on the key.
    // A key on which no open transaction has one may be left out.
    pub(crate) holders: BTreeMap<Key, u64>,
    // For each key the transactions that added to it since, but for such as were over when the next did.
    pub(crate) adders: Adders,
    // Up to this number every request is answered.
    pub(crate) answered: u64,
    // The number of the last record that isn't a Session, 0 if there is none.
    pub(crate) last_not_session: u64,
}

impl Index {
    pub(crate) fn new(alloc: Global) -> Index
        ensures analysis { IsAnalysis [] result.analysis }
        ensures holders { (k : List ℕ) → holder_in result k ≡ None }
        ensures adders { (k : List ℕ) → adders_of result k ≡ [] }
        ensures answered { result.answered ≡ 0 }
        ensures last { result.last_not_session ≡ 0 }
    {
        Index {
            analysis: Analysis::new(alloc),
            holders: BTreeMap::new(alloc),
            adders: Adders::new(alloc),
            answered: 0,
            last_not_session: 0,
        }
    }

    /// The latest step of an open transaction, 0 if it has none.
    fn latest(&self, txn: u64) -> Option<u64>
        ensures { result ≡ latest_in self.now txn }
    {
        self.analysis.open_txns.get(&txn).copied()
    }

    /// The same of one that also has no unanswered request.
    pub(crate) fn ready<D: LogDevice>(&self, frames: &Frames<D>, txn: u64) -> Option<u64>
        requires { IsIndex frames.now.records self.now }
        ensures { ReadyOf frames.now.records txn result }
    {
        let latest = self.latest(txn)?;
        if frames.is_answered(latest) {
            Some(latest)
        } else {
            None
        }
    }

    /// The other is no hindrance to the transaction: it is the same, or isn't open.
    fn agrees(&self, txn: u64, other: u64) -> bool
        ensures { result ≡ agrees self.now txn other }
    {
        other == txn || self.latest(other).is_none()
    }

    /// Whoever may hold the key alone is no hindrance.
    fn holder_agrees(&self, txn: u64, key: &Key) -> bool
        ensures { result ≡ agrees_if self.now txn (holder_in self.now key.now) }
    {
        match self.holders.get(key).copied() {
            None => true,
            Some(holder) => self.agrees(txn, holder),
        }
    }

    /// Nor is any that may hold it for Adds.
    fn adders_agree(&self, txn: u64, key: &Key) -> bool
        ensures { result ≡ list_all (agrees self.now txn) (adders_of self.now key.now) }
    {
        match self.adders.by_key.get(key) {
            None => true,
            Some(adders) => adders.iter().all(|adder| self.agrees(txn, *adder)),
        }
    }

    /// No other open transaction has an operation on this one's key, unless both are Adds.
    pub(crate) fn is_free<D: LogDevice>(&self, frames: &Frames<D>, txn: u64, op: &Op) -> bool
        requires { IsIndex frames.now.records self.now }
        ensures { IsTrue result ↔ IsKeyFree frames.now.records txn op.now }
    {
        self.holder_agrees(txn, op.key()) && (op.is_add() || self.adders_agree(txn, op.key()))
    }

    /// Where no transaction is open, nobody holds a key, and who did is forgotten: so the index is no larger than what the
    /// open transactions did.
    pub(crate) fn forget(&mut self)
        ensures index { (log : List Record) → IsIndex log self.old → IsIndex log self.new }
        ensures forgotten { btree_map_len self.old.analysis.open_txns ≡ 0 → keys_kept self.new ≡ 0 }
        ensures no_more { keys_kept self.new ≤ keys_kept self.old }
    {
        if self.analysis.open_txns.is_empty() {
            self.holders.clear();
            self.adders.by_key.clear();
        }
    }

    /// Takes in a record of this number.
    pub(crate) fn follow(&mut self, accepted: &Record, number: u64) -> Result<(), AllocError>
        ensures analysis { OnOk result (TakesIn accepted.now number self.old.analysis self.new.analysis) }
        ensures holders { OnOk result (Holds accepted.now (holder_in self.old) (holder_in self.new)) }
        ensures adders { OnOk result
            (Gains accepted.now (latest_in self.new) (adders_of self.old) (adders_of self.new)) }
        ensures answered { self.new.answered ≡ self.old.answered }
        ensures last { OnOk result (self.new.last_not_session
            ≡ with_this accepted.now number self.old.last_not_session) }
        ensures one_more { OnOk result (keys_kept self.new ≤ keys_kept self.old + 1) }
    {
        self.analysis.follow(accepted, number)?;
        self.last_not_session = last_with(accepted, number, self.last_not_session);
        if let Record::Op { txn, op, .. } = accepted {
            self.hold(op, *txn)?;
        }
        Ok(())
    }

    /// The transaction holds the operation's key from now on, alone or for Adds.
    fn hold(&mut self, op: &Op, txn: u64) -> Result<(), AllocError>
        ensures holders { OnOk result (MatchBool (is_add op.now)
            ((k : List ℕ) → holder_in self.new k ≡ holder_in self.old k)
            (Puts (List ℕ) (holder_in self.old) (holder_in self.new) (key_of op.now) (Some txn))) }
        ensures adders { OnOk result (PutsAdders (adders_of self.old) (adders_of self.new) (key_of op.now)
            (if is_add op.now
            then filter (stays (latest_in self.new) txn) (adders_of self.old (key_of op.now)) ++ txn ∷ []
            else [])) }
        ensures analysis { self.new.analysis ≡ self.old.analysis }
        ensures answered { self.new.answered ≡ self.old.answered }
        ensures last { self.new.last_not_session ≡ self.old.last_not_session }
        ensures one_more { OnOk result (keys_kept self.new ≤ keys_kept self.old + 1) }
    {
        if op.is_add() {
            self.adders.add(op.key(), txn, &self.analysis.open_txns)
        } else {
            self.adders.clear(op.key());
            self.holders.insert(op.key().copied(), txn)?;
            Ok(())
        }
    }
}
