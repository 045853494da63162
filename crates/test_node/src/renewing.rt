//! A settled node is renewed: just where nobody is open, and what is renewed has its records.
use crate::calls::{is_quiet, renewed, rows, settle_all};
use crate::flaw::{Flaw, check};
use node_world::World;
use record_key::Refusal;
use std::alloc::Global;

/// A node that is settled is renewed where nobody is open in it, and is refused elsewhere.
pub fn check_renewals(alloc: Global, old: &World, is_closed: bool) -> Result<(), Flaw> {
    check(
        is_quiet(old) == is_closed,
        "a settled node is quiet where somebody is open, or isn't",
    )?;
    if !is_closed {
        return check_refused(renewed(alloc, old, 0), Refusal::NotNow);
    }
    check_failing(alloc, old)?;
    let new = settled(alloc, renewed(alloc, old, 0)?)?;
    check_same(&new, old)?;
    check_same(&*settled(alloc, renewed(alloc, &new, 0)?)?, old)
}

/// The first call of the log's device fails, the last one, and one that isn't made: two for each row, one for the
/// beginning, one for the commit, one that forces and one that reads.
fn check_failing(alloc: Global, old: &World) -> Result<(), Flaw> {
    let last = (rows(old)?.len() as u64)
        .saturating_mul(2)
        .saturating_add(4);
    check_refused(renewed(alloc, old, 1), Refusal::Device)?;
    check_refused(renewed(alloc, old, last), Refusal::Device)?;
    renewed(alloc, old, last.saturating_add(1))?;
    Ok(())
}

fn check_refused(came: Result<Box<World>, Refusal>, refusal: Refusal) -> Result<(), Flaw> {
    match came {
        Ok(_) => Err(Flaw::Differs("a renewal isn't refused")),
        Err(Refusal::NoMemory) => Err(Flaw::NoMemory),
        Err(given) => check(given == refusal, "a renewal is refused otherwise"),
    }
}

fn settled(alloc: Global, mut world: Box<World>) -> Result<Box<World>, Flaw> {
    let mut outs = Vec::new(alloc);
    check(
        settle_all(&mut world, None, &mut outs)?,
        "a renewed node doesn't settle",
    )?;
    Ok(world)
}

fn check_same(new: &World, old: &World) -> Result<(), Flaw> {
    check(
        rows(new)?.as_slice() == rows(old)?.as_slice(),
        "a renewed node has other records",
    )
}
