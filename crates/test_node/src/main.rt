//! Tests of a whole node: random walks beside a plain slow model of its clients, and lists of events.
//!
//! Usage: test_node SEED COUNT. Plays a list of events at once and one by one, four walks of four thousand events, and
//! so many scripts of up to two hundred events, the first with this seed. In walks and scripts messages are late, repeated
//! and lost, either component crashes, and devices fail. What differs from the model is printed; the last lines say how
//! many agree.
//!
//! Knows: the world's public calls, and what clients are promised.
//! Must not know: how a node keeps what it promises.
//! Promises nothing: it is run. It would find a promise that says too little.
#![tactic(auto)]

mod calls;
mod choosing;
mod counts;
mod driving;
mod failures;
mod flaw;
mod renewing;
mod tally;
mod walking;
mod walks;

use flaw::Flaw;
use std::alloc::Global;
use std::process::ExitCode;
use std::{env, io};
use walks::Kind;

fn main(rt: HostRuntime) -> io::Result<ExitCode> {
    let words: Vec<String> = env::args(&rt)?.collect(rt.alloc())?;
    match numbers(words.as_slice()) {
        Some((seed, count)) => play(&rt, seed, count),
        None => {
            eprintln!(&rt; "usage: test_node SEED COUNT")?;
            Ok(ExitCode::from(2))
        }
    }
}

/// The first seed, and how many scripts there are.
fn numbers(words: &[String]) -> Option<(u64, u64)> {
    let [_, seed, count] = words else {
        return None;
    };
    let Ok(seed) = seed.as_str().parse::<u64>() else {
        return None;
    };
    let Ok(count) = count.as_str().parse::<u64>() else {
        return None;
    };
    Some((seed, count))
}

fn play(rt: &HostRuntime, seed: u64, count: u64) -> io::Result<ExitCode> {
    let mut is_well = true;
    is_well &= listed(rt, "at once", driving::at_once(rt.alloc()))?;
    is_well &= listed(rt, "again", driving::again(rt.alloc()))?;
    is_well &= walks::play(rt, Kind::Walk, 1, 4)?;
    is_well &= walks::play(rt, Kind::Script, seed, count)?;
    Ok(ExitCode::from(if is_well { 0 } else { 1 }))
}

/// Prints whether a list of events came to what it must.
fn listed(rt: &HostRuntime, how: &str, came: Result<(), Flaw>) -> io::Result<bool> {
    match came {
        Ok(()) => println!(rt; "events {how}: agree")?,
        Err(Flaw::Differs(what)) => println!(rt; "events {how}: {what}")?,
        Err(Flaw::NoMemory) => println!(rt; "events {how}: given up")?,
    }
    Ok(!matches!(came, Err(Flaw::Differs(_))))
}
