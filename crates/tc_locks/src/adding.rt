//! A lock that is added to what is held, and to its index. Both are lent apart, since between the two steps they differ.
ghost use Rattle.std.specs.Prelude.{◌≡◌, ◌≢◌, ℕ, ◌∷◌, [], IfErr, IfNone, OnOk, OnErr};
ghost use Rattle.tc_locks.specs.Locks.{spans_of, set_spans};
ghost use Rattle.tc_locks.specs.Meant.{span_of, seen};
ghost use Rattle.tc_locks.specs.Index.{IsIndexed, IsKept};

use crate::entry::Entry;
use crate::held::Held;
use crate::index::index_of;
use crate::span::Lock;
use record_key::Refusal;
use std::alloc::Global;
use std::collections::BTreeSet;

/// Makes the index where there is none. Refused NoMemory.
pub fn make_index(
    alloc: Global,
    held: &Held,
    index: &mut Option<BTreeSet<Entry>>,
) -> Result<(), Refusal>
    requires { IsKept held.now index.old }
    ensures kept { IsKept held.now index.new }
    ensures made { OnOk result (IfNone index.new ⊥) }
    ensures refused { IfErr result (λ refusal. refusal ≡ Refusal.NoMemory) }
{
    if index.is_none() {
        *index = Some(index_of(alloc, held)?);
    }
    Ok(())
}

/// Adds the newest lock of a transaction. Refused NoMemory.
pub fn add(
    alloc: Global,
    held: &mut Held,
    index: &mut Option<BTreeSet<Entry>>,
    txn: u64,
    lock: Lock,
) -> Result<(), Refusal>
    requires kept { IsKept held.old index.old }
    requires alone { IfNone index.old ((u : ℕ) → u ≢ txn → spans_of (seen held.old) u ≡ []) }
    ensures kept { IsKept held.new index.new }
    ensures taken { OnOk result
        (seen held.new ≡ set_spans txn (span_of lock ∷ spans_of (seen held.old) txn) (seen held.old)) }
    ensures refused { IfErr result (λ refusal. refusal ≡ Refusal.NoMemory) }
    ensures unchanged { OnErr result (seen held.new ≡ seen held.old) }
{
    match index {
        Some(index) => add_indexed(alloc, held, index, txn, lock),
        None => held.push(alloc, txn, lock),
    }
}

/// Adds the newest lock of a transaction, and its entry. Refused NoMemory; what was indexed before goes again.
fn add_indexed(
    alloc: Global,
    held: &mut Held,
    index: &mut BTreeSet<Entry>,
    txn: u64,
    lock: Lock,
) -> Result<(), Refusal>
    requires { IsIndexed held.old index.old }
    ensures kept { IsIndexed held.new index.new }
    ensures taken { OnOk result
        (seen held.new ≡ set_spans txn (span_of lock ∷ spans_of (seen held.old) txn) (seen held.old)) }
    ensures refused { IfErr result (λ refusal. refusal ≡ Refusal.NoMemory) }
    ensures unchanged { OnErr result (seen held.new ≡ seen held.old) }
{
    let entry = Entry {
        lock: lock.copied(),
        txn,
    };
    let added = index.insert(entry.copied())?;
    match held.push(alloc, txn, lock) {
        Ok(()) => Ok(()),
        Err(refusal) => {
            if added {
                index.remove(&entry);
            }
            Err(refusal)
        }
    }
}
