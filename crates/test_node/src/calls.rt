//! The calls of a node, each in a small function without a contract: a test of several calls is cheap to check then.
use history::Record;
use node_laws::{Event, Out};
use node_store::renew;
use node_world::{World, settle};
use record_key::{Key, Refusal, Value};
use stable::{CrashLog, MemLog, MemPages};
use std::alloc::Global;

/// A new node, behind a pointer: each step of a function that has a whole node by value is dear to check.
pub fn new_world(alloc: Global) -> Result<Box<World>, Refusal> {
    Ok(Box::new(alloc, World::new(alloc)?)?)
}

pub fn step(world: &mut World, event: &Event) -> Out {
    world.step(event)
}

pub fn settle_all(
    world: &mut World,
    most: Option<u64>,
    outs: &mut Vec<Out>,
) -> Result<bool, Refusal> {
    let is_done = settle(world, most, outs)?;
    Ok(is_done)
}

pub fn stable_end(world: &World) -> Result<u64, Refusal> {
    world.stable_end()
}

pub fn records(world: &World) -> Result<u64, Refusal> {
    world.records()
}

pub fn record(world: &World, number: u64) -> Result<Option<Record>, Refusal> {
    world.record(number)
}

pub fn rows(world: &World) -> Result<Vec<(Key, Value)>, Refusal> {
    world.rows()
}

pub fn is_quiet(world: &World) -> bool {
    world.is_quiet()
}

/// The node renewed on devices in memory. The call of this number of its log's device fails, if it isn't 0.
pub fn renewed(alloc: Global, old: &World, failing: u64) -> Result<Box<World>, Refusal> {
    let mut log = MemLog::new(alloc);
    if failing > 0 {
        log.fail_at(failing);
    }
    match renew(alloc, old, log, MemLog::new(alloc), MemPages::new(alloc)) {
        Ok(world) => Ok(Box::new(alloc, world)?),
        Err(left) => Err(left.refusal),
    }
}
