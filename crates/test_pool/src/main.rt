//! Cases of the two engines whose clients are threads: on three locks with workers, and under one lock.
//!
//! Knows: the public calls of an engine and its sessions, what each call of its data is to be answered, and the plain
//! model of a node's clients.
//! Must not know: how an engine serves its clients.
//! Promises its reader to print how many cases agree, the names of those that differ, and how many gave up since they
//! were refused memory themselves. What a client is told is compared with what is written out or with the plain model,
//! and what clients noted with the engine's history. A call that is refused memory is carried on, or made again, and has
//! to be answered like any other then.
#![tactic(auto)]

mod batches;
mod going_on;
mod monitored;
mod playing;
mod renewing;
mod running;
mod tally;
mod threads;

use batches::run_batches;
use engine_workers::Opened;
use monitored::run_monitored;
use playing::Case;
use record_key::Refusal;
use renewing::renews;
use running::run_case;
use std::alloc::Global;
use std::sync::Wait;
use std::thread::Threads;
use std::{fs, io};
use tally::Tally;
use test_pool_cases::{Hold, Many, Table, Verdict};

fn main(rt: HostRuntime) -> io::Result<()> {
    let alloc = rt.alloc();
    let tables = fs::read_to_string(&rt, "tables.txt")?;
    let plans = fs::read_to_string(&rt, "plans.txt")?;
    let mut tally = Tally::new(alloc);
    run_tables(rt, alloc, tables.as_str(), &mut tally);
    run_plans(rt, alloc, plans.as_str(), &mut tally);
    tally.count("nine_sessions", refuses_nine(alloc));
    tally.count("batches", run_batches(&rt, alloc));
    tally.count("renewed_under_one_lock", renews(&rt, alloc));
    tally.report(&rt)
}

// Whether a case is written there, and not something for the reader alone.
fn is_case(text: &str) -> bool {
    !text.is_empty() && !text.starts_with('#')
}

// The first word.
fn name_of(text: &str) -> &str {
    match text.split_once(' ') {
        Some((name, _)) => name,
        None => text,
    }
}

// Runs the cases that are written out, each a block of lines.
fn run_tables<R>(rt: R, alloc: Global, text: &str, tally: &mut Tally)
where
    R: Threads + Wait + Copy + Send + 'static,
{
    for block in text.split("\n\n") {
        let block = block.trim();
        if is_case(block) {
            count_table(rt, alloc, block, tally);
        }
    }
}

// Counts a case that is written out, on each engine that it is for.
fn count_table<R>(rt: R, alloc: Global, block: &str, tally: &mut Tally)
where
    R: Threads + Wait + Copy + Send + 'static,
{
    let name = name_of(block);
    match Table::read(alloc, block) {
        Ok(table) => run_table(rt, alloc, name, table, tally),
        Err(refusal) => tally.count(name, Err(refusal)),
    }
}

// No message waits at a gate under one lock.
fn run_table<R>(rt: R, alloc: Global, name: &str, table: Table<'_>, tally: &mut Tally)
where
    R: Threads + Wait + Copy + Send + 'static,
{
    if !name.ends_with("_under_one_lock") {
        tally.count(name, run_case(rt, alloc, Case::Table(table)));
    }
    if !name.ends_with("_on_three_locks") && table.hold == Hold::Nowhere {
        tally.count(name, run_monitored(rt, alloc, Case::Table(table)));
    }
}

// Runs the cases whose calls are drawn, each a line, on both engines.
fn run_plans<R>(rt: R, alloc: Global, text: &str, tally: &mut Tally)
where
    R: Threads + Wait + Copy + Send + 'static,
{
    for line in text.lines() {
        if is_case(line) {
            run_plan(rt, alloc, line, tally);
        }
    }
}

fn run_plan<R>(rt: R, alloc: Global, line: &str, tally: &mut Tally)
where
    R: Threads + Wait + Copy + Send + 'static,
{
    let name = name_of(line);
    match Many::read(alloc, line) {
        Ok(many) => {
            tally.count(name, run_case(rt, alloc, Case::Many(many)));
            tally.count(name, run_monitored(rt, alloc, Case::Many(many)));
        }
        Err(refusal) => tally.count(name, Err(refusal)),
    }
}

// An engine has at most eight sessions.
fn refuses_nine(alloc: Global) -> Verdict {
    match opens(alloc, 9) {
        Err(Refusal::Full) => opens(alloc, 8),
        Ok(_) => Ok(false),
        refusal => refusal,
    }
}

// Whether one of so many sessions is made.
fn opens(alloc: Global, sessions: usize) -> Verdict {
    match Opened::new(alloc, sessions) {
        Ok(_) => Ok(true),
        Err(refusal) => Err(refusal),
    }
}
