//! Where in the index a conflict with a lock can be.
ghost use Rattle.std.specs.Prelude.{◌≡◌, ◌&&◌, ◌||◌, not, filter, IfOk, IfErr, OnOk};
ghost use Rattle.std.specs.List.{list_any};
ghost use Rattle.std.specs.Bound.{IsForward};
ghost use Rattle.std.specs.BTreeSet.{contains};
ghost use Rattle.std.specs.BTreeMap.Range.{range_contains, IsLeBy, IsLtBy};
ghost use Rattle.tc_locks.specs.declared.entry.Entry.{Entry};
ghost use Rattle.tc_locks.specs.Order.{entry_cmp};
ghost use Rattle.tc_locks.specs.Least.{least_of};
ghost use Rattle.tc_locks.specs.Index.{txn_of, stops, is_entry_of, stands};

use crate::entry::Entry;
use crate::held::{Held, lesser};
use crate::span::Lock;
use record_key::Refusal;
use std::alloc::Global;
use std::collections::BTreeSet;
use std::ops::Bound;

/// The least of the other transactions with a conflicting lock between the two bounds, or the one before.
pub fn search(
    index: &BTreeSet<Entry>,
    from: Bound<Entry>,
    to: Bound<Entry>,
    txn: u64,
    lock: &Lock,
    before: Option<u64>,
) -> Option<u64>
    requires { IsForward (IsLeBy entry_cmp) (IsLtBy entry_cmp) from to }
    ensures { result ≡ least_of txn_of (stops txn lock.now) before
        (filter (range_contains entry_cmp from to) index.now.keys) }
{
    let mut least = before;
    for entry in index.range((from, to)) {
        if stops(txn, lock, entry) {
            least = Some(lesser(least, entry.txn));
        }
    }
    least
}

fn stops(txn: u64, lock: &Lock, entry: &Entry) -> bool
    ensures { result ≡ stops txn lock.now entry.now }
{
    entry.txn != txn && lock.conflicts(&entry.lock)
}

/// The index of all that is held. Refused NoMemory. It is apart since it is rare.
#[inline(never)]
pub fn index_of(alloc: Global, held: &Held) -> Result<BTreeSet<Entry>, Refusal>
    ensures made { IfOk result (λ index. (e : Entry) → contains entry_cmp index e ≡ stands held.now e) }
    ensures refused { IfErr result (λ refusal. refusal ≡ Refusal.NoMemory) }
{
    let mut index = BTreeSet::new(alloc);
    for (txn, locks) in &held.by_txn {
        remember(&mut index, *txn, locks.as_slice())?;
    }
    Ok(index)
}

/// Puts these locks of the transaction into the index. Refused NoMemory, with some of them in it.
fn remember(index: &mut BTreeSet<Entry>, txn: u64, locks: &[Lock]) -> Result<(), Refusal>
    ensures remembered { OnOk result ((e : Entry) → contains entry_cmp index.new e
        ≡ (contains entry_cmp index.old e || list_any (is_entry_of txn e) locks.now)) }
    ensures refused { IfErr result (λ refusal. refusal ≡ Refusal.NoMemory) }
{
    for lock in locks {
        index.insert(Entry {
            lock: lock.copied(),
            txn,
        })?;
    }
    Ok(())
}

/// Takes these locks of the transaction out of the index.
pub fn forget(index: &mut BTreeSet<Entry>, txn: u64, locks: &[Lock])
    ensures { (e : Entry) → contains entry_cmp index.new e
        ≡ (contains entry_cmp index.old e && not (list_any (is_entry_of txn e) locks.now)) }
{
    for lock in locks {
        index.remove(&Entry {
            lock: lock.copied(),
            txn,
        });
    }
}
