//! Measures a node over the world's public calls, and an engine over its sessions, with no script and no text.
//!
//! Usage: bench_node NAME WORKLOAD N [FOLDER]. With a folder an engine's work is done over the store there, else, as a
//! node's always, over devices in memory. Prints one line: name, workload, n, operations, seconds, operations a second,
//! retries, store in KB, digest of the rows, server in KB, processor seconds; what isn't known is 0.
#![tactic(auto)]

mod client;
mod hot;
mod measure;
mod work;
mod workload;

use bench_crew::{Crew, Outcome};
use measure::measured;
use std::alloc::Global;
use std::fs::{File, Files};
use std::process::ExitCode;
use std::sync::Wait;
use std::thread::Threads;
use std::time::{Clock, Duration};
use std::{env, io};
use workload::Workload;

fn main(rt: HostRuntime) -> ExitCode {
    let printed = match arguments(&rt) {
        Ok(words) => print_line(rt, rt.alloc(), words.as_slice()),
        Err(error) => Err(error),
    };
    match printed {
        Ok(()) => ExitCode::from(0),
        Err(_) => ExitCode::from(2),
    }
}

/// The command line, the program's name first.
fn arguments(rt: &HostRuntime) -> io::Result<Vec<String>> {
    Ok(env::args(rt)?.collect(rt.alloc())?)
}

fn print_line<R>(rt: R, alloc: Global, words: &[String]) -> io::Result<()>
where
    R: Files<File = File>
        + Print
        + AllocGlobal
        + Clock
        + Threads
        + Wait
        + Copy
        + Send
        + Sync
        + 'static,
{
    let [_, name, workload, count, folder @ ..] = words else {
        return usage(&rt);
    };
    let Ok(operations) = count.as_str().parse::<u64>() else {
        return usage(&rt);
    };
    let (name, workload) = (name.as_str(), workload.as_str());
    if let Some(crew) = Crew::named(workload, operations) {
        let outcome = crew_outcome(rt, alloc, crew, folder)?;
        return print_outcome(&rt, name, workload, (operations, operations), &outcome);
    }
    let Some(what) = Workload::named(workload) else {
        println!(&rt; "{name},{workload},{operations},unsupported: no such work")?;
        return Ok(());
    };
    let outcome = measured(&rt, alloc, what, operations)?;
    let done = if what == Workload::Base {
        0
    } else {
        operations
    };
    print_outcome(&rt, name, workload, (operations, done), &outcome)
}

/// What a crew's work comes to: over the store of a folder, if one is named.
fn crew_outcome<R>(rt: R, alloc: Global, crew: Crew, folder: &[String]) -> io::Result<Outcome>
where
    R: Files<File = File>
        + AllocGlobal
        + Clock
        + Print
        + Threads
        + Wait
        + Copy
        + Send
        + Sync
        + 'static,
{
    match (folder, crew.is_monitored()) {
        ([folder, ..], true) => bench_crew::monitored_on(rt, alloc, folder.as_str(), crew),
        ([folder, ..], false) => bench_crew::measured_on(rt, alloc, folder.as_str(), crew),
        ([], true) => bench_crew::monitored(rt, alloc, crew),
        ([], false) => bench_crew::measured(rt, alloc, crew),
    }
}

/// Prints a run of the workload at a number, with so many operations done.
fn print_outcome<R: Print>(
    rt: &R,
    name: &str,
    workload: &str,
    (number, done): (u64, u64),
    outcome: &Outcome,
) -> io::Result<()> {
    let micros = micros_of(outcome.took).max(1);
    let rate = done.saturating_mul(1_000_000) / micros;
    let (digest, waits) = (outcome.digest, outcome.waits);
    let (whole, part) = (micros / 1_000_000, micros % 1_000_000);
    let busy = micros_of(outcome.busy);
    let (busy, rest) = (busy / 1_000_000, busy % 1_000_000);
    println!(rt;
        "{name},{workload},{number},{done},{whole}.{part:06},{rate},{waits},0,{digest:016x},0,{busy}.{rest:06}"
    )?;
    Ok(())
}

fn micros_of(time: Duration) -> u64 {
    u64::try_from(time.as_micros()).unwrap_or(u64::MAX)
}

fn usage<R: Print>(rt: &R) -> io::Result<()> {
    println!(rt; "usage: bench_node NAME WORKLOAD N [FOLDER]")?;
    Ok(())
}
