//! The calls that are measured, and what is made ready for them.
ghost use Rattle.std.specs.Prelude.{◌<◌, ◌≤◌};

use crate::draws::{drawn, key_of, upsert_of};
use dc_tree::{LeafSet, one_leaf, split_at};
use record_key::{Key, Op, Refusal};
use std::alloc::Global;

/// How many calls are made ready at once.
pub const ROUND: u64 = 1_000;

/// Leaves with so many records, put there in another order than their keys'. A large leaf is split when it comes to be.
pub fn filled<L: LeafSet + Drop>(alloc: Global, records: u64) -> Result<L, Refusal>
    requires few { records ≤ 1_000_000 }
{
    let mut leaves: L = one_leaf(alloc)?;
    for record in 0..records {
        let op = upsert_of(record)?;
        perform(&mut leaves, record + 1, &op)?;
        let place = leaves.place_of(op.key());
        if leaves.leaf(place).rows().len() > 8 {
            split_at(&mut leaves, op.key(), record + 2, record + 2)?;
        }
    }
    Ok(leaves)
}

/// Keys of records drawn from so many, for a round of calls.
pub fn keys_for(alloc: Global, round: u64, records: u64) -> Result<Vec<Key>, Refusal>
    requires some { 0 < records }
    requires early { round ≤ 1_000_000 }
{
    let mut keys = Vec::new(alloc);
    for call in 0..ROUND {
        keys.push(key_of(drawn(round * ROUND + call, records))?)?;
    }
    Ok(keys)
}

/// Numbered operations on records drawn from so many, for a round of calls. The numbers come after `before`.
pub fn operations_for(alloc: Global, before: u64, records: u64) -> Result<Vec<(u64, Op)>, Refusal>
    requires some { 0 < records }
    requires early { before ≤ 1_000_000_000 }
{
    let mut operations = Vec::new(alloc);
    for call in 0..ROUND {
        let number = before + call + 1;
        operations.push((number, upsert_of(drawn(number, records))?))?;
    }
    Ok(operations)
}

/// The same leaves again and again, for a round of calls. A compiler does not know that they are the same, and so makes
/// each call.
pub fn same_for<L: LeafSet>(leaves: &L) -> Result<Vec<&L>, Refusal> {
    let mut same = Vec::new(leaves.allocator());
    for _ in 0..ROUND {
        same.push(leaves)?;
    }
    Ok(same)
}

/// Reads the record at each key. Refused NotNow where there is none.
pub fn get_each<L: LeafSet>(leaves: &L, keys: &[Key]) -> Result<(), Refusal> {
    for key in keys {
        if leaves.get(key).is_none() {
            return Err(Refusal::NotNow);
        }
    }
    Ok(())
}

/// Performs one, and lets its answer go.
fn perform<L: LeafSet>(leaves: &mut L, number: u64, op: &Op) -> Result<(), Refusal> {
    let mut answer = None;
    leaves.perform(number, &op.lent(), 0, &mut answer)?;
    Ok(())
}

/// Performs each operation under its number.
pub fn perform_each<L: LeafSet>(leaves: &mut L, operations: &[(u64, Op)]) -> Result<(), Refusal> {
    for (number, op) in operations {
        perform(leaves, *number, op)?;
    }
    Ok(())
}

/// Asks each time which leaf is to be split and which two are to be joined. Refused NotNow where there are such.
pub fn tend_each<L: LeafSet>(same: &[&L]) -> Result<(), Refusal> {
    for leaves in same {
        if leaves.first_large(u64::MAX).is_some() || leaves.first_pair(u64::MAX).is_some() {
            return Err(Refusal::NotNow);
        }
    }
    Ok(())
}
