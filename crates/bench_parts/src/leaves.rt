//! One measurement: rounds of calls on the same leaves, without what is made ready for them.
ghost use Rattle.std.specs.Prelude.{◌<◌, ◌≤◌};

use crate::calls::{
    ROUND, filled, get_each, keys_for, operations_for, perform_each, same_for, tend_each,
};
use dc_tree::LeafSet;
use record_key::Refusal;
use std::alloc::Global;
use std::io;
use std::time::{Clock, Instant};

/// How many rounds of gets there are, and of operations.
const ROUNDS: u64 = 200;

/// How many rounds of searches for what is to be tended there are.
const TENDING_ROUNDS: u64 = 10;

/// How many nanoseconds a call takes.
pub struct Times {
    pub get: u64,
    pub perform: u64,
    /// The search for a large leaf and that for two to be joined, together: in tenths of a nanosecond.
    pub tend_tenths: u64,
}

/// Measures calls on leaves with so many records, of which none is to be tended.
pub fn measured<L: LeafSet + Drop, R: Clock>(
    rt: &R,
    alloc: Global,
    records: u64,
) -> io::Result<Times>
    requires some { 0 < records }
    requires few { records ≤ 1_000_000 }
{
    let mut leaves: L = done(filled(alloc, records))?;
    Ok(Times {
        get: get_time(rt, &leaves, records)?,
        tend_tenths: tend_tenths(rt, &leaves)?,
        perform: perform_time(rt, &mut leaves, records)?,
    })
}

fn get_time<L: LeafSet, R: Clock>(rt: &R, leaves: &L, records: u64) -> io::Result<u64>
    requires some { 0 < records }
{
    let mut took = 0;
    for round in 0..ROUNDS {
        let keys = done(keys_for(leaves.allocator(), round, records))?;
        let start = Instant::now(rt)?;
        done(get_each(leaves, keys.as_slice()))?;
        took = nanos_with(took, rt, start)?;
    }
    Ok(took / (ROUNDS * ROUND))
}

/// The leaves are raised after as many operations as there are records, so that none keeps many answers.
fn perform_time<L: LeafSet, R: Clock>(rt: &R, leaves: &mut L, records: u64) -> io::Result<u64>
    requires some { 0 < records }
    requires few { records ≤ 1_000_000 }
{
    let mut took = 0;
    for round in 0..ROUNDS {
        let before = records + round * ROUND;
        if before % records == 0 {
            leaves.raise(before);
        }
        let operations = done(operations_for(leaves.allocator(), before, records))?;
        let start = Instant::now(rt)?;
        done(perform_each(leaves, operations.as_slice()))?;
        took = nanos_with(took, rt, start)?;
    }
    Ok(took / (ROUNDS * ROUND))
}

fn tend_tenths<L: LeafSet, R: Clock>(rt: &R, leaves: &L) -> io::Result<u64> {
    let same = done(same_for(leaves))?;
    let mut took = 0;
    for _ in 0..TENDING_ROUNDS {
        let start = Instant::now(rt)?;
        done(tend_each(same.as_slice()))?;
        took = nanos_with(took, rt, start)?;
    }
    Ok(took.saturating_mul(10) / (TENDING_ROUNDS * ROUND))
}

/// So many nanoseconds and those since the start.
fn nanos_with<R: Clock>(nanos: u64, rt: &R, start: Instant) -> io::Result<u64> {
    let took = Instant::now(rt)?.duration_since(start);
    Ok(nanos.saturating_add(u64::try_from(took.as_nanos()).unwrap_or(u64::MAX)))
}

fn done<T: Drop>(work: Result<T, Refusal>) -> io::Result<T> {
    match work {
        Ok(done) => Ok(done),
        Err(Refusal::NoMemory) => Err(io::Error::from(io::ErrorKind::OutOfMemory)),
        Err(_) => Err(io::Error::from(io::ErrorKind::Other)),
    }
}
