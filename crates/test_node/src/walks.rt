//! The walks, and how many of them agree.
use crate::counts::Counts;
use crate::flaw::{Flaw, check};
use crate::tally::Tally;
use crate::walking::Walk;
use log_laws::is_legal;
use std::alloc::Global;
use std::io;

/// How long a walk is.
#[derive(Clone, Copy)]
pub enum Kind {
    /// Four thousand events; after each hundred the node is settled and compared.
    Walk,
    /// At most two hundred, from a node at its start or from one that serves clients; then the same once.
    Script,
}

/// Plays so many, the first with this seed. Prints which differ, whether walks came too short, and how many agree. Gives
/// whether all do.
pub fn play(rt: &HostRuntime, kind: Kind, first: u64, count: u64) -> io::Result<bool> {
    let mut counts = Counts::new();
    let mut tally = Tally::new();
    for place in 0..count {
        let seed = first.saturating_add(place);
        let came = played(rt.alloc(), kind, seed, &mut counts);
        tally.count(&came);
        if let Err(Flaw::Differs(what)) = came {
            println!(rt; "{} {seed}: {what}", name(kind))?;
        }
    }
    if let Kind::Walk = kind
        && let Some(lack) = counts.lack()
    {
        println!(rt; "walks: {lack}")?;
    }
    tally.print(rt, name(kind))
}

fn name(kind: Kind) -> &'static str {
    match kind {
        Kind::Walk => "walk",
        Kind::Script => "script",
    }
}

/// Plays one, and adds to the counts how far it came.
fn played(alloc: Global, kind: Kind, seed: u64, counts: &mut Counts) -> Result<(), Flaw> {
    let mut walk = Walk::new(alloc, seed, *counts)?;
    let came = match kind {
        Kind::Walk => walk_far(alloc, &mut walk),
        Kind::Script => walk_briefly(alloc, &mut walk, seed),
    };
    *counts = walk.counts();
    came
}

/// Four thousand events. Their log is legal, and so is each beginning of it.
fn walk_far(alloc: Global, walk: &mut Walk) -> Result<(), Flaw> {
    for _ in 0..40 {
        walk_in_parts(alloc, walk)?;
        settle(alloc, walk)?;
    }
    check(is_legal(&walk.log(alloc)?), "the log isn't legal")
}

/// A hundred events. Sometimes clients are served again after ten.
fn walk_in_parts(alloc: Global, walk: &mut Walk) -> Result<(), Flaw> {
    for _ in 0..10 {
        walk_on(alloc, walk, 10)?;
        walk.serve_sometimes(alloc)?;
    }
    Ok(())
}

/// As many events as the seed says, after which the node is settled, compared and renewed.
fn walk_briefly(alloc: Global, walk: &mut Walk, seed: u64) -> Result<(), Flaw> {
    if seed % 2 == 0 {
        walk.serve(alloc)?;
    }
    walk_on(alloc, walk, seed % 200)?;
    settle(alloc, walk)?;
    check(is_legal(&walk.log(alloc)?), "the log isn't legal")?;
    renew(alloc, walk)
}

/// The settled node is renewed, and once a crash has left nobody open it is again.
fn renew(alloc: Global, walk: &mut Walk) -> Result<(), Flaw> {
    walk.check_renewals(alloc)?;
    walk.crash(alloc)?;
    settle(alloc, walk)?;
    walk.check_renewals(alloc)
}

fn walk_on(alloc: Global, walk: &mut Walk, events: u64) -> Result<(), Flaw> {
    for _ in 0..events {
        walk.walk(alloc)?;
    }
    Ok(())
}

/// The node is settled and compared.
fn settle(alloc: Global, walk: &mut Walk) -> Result<(), Flaw> {
    walk.settle(alloc)?;
    walk.check_settled(alloc)?;
    walk.check_history(alloc)
}
