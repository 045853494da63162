//! What a restart finds in a log, beside a slow reader.
use crate::opening::opened;
use crate::plain;
use crate::questions::put_number;
use crate::undoing::{put_undone, undo_wholly};
use history::Record;
use record_key::Refusal;
use stable::MemLog;
use std::alloc::Global;
use std::fmt::Write;
use tc_log::Log;
use tc_restart::{Losers, Plan, analyse, redo_next};

/// Tells what a restart has to do.
pub fn put_plan(alloc: Global, log: &Log<MemLog>, answer: &mut String) -> Result<(), Refusal> {
    let plan = analyse(alloc, log)?;
    answer.push_str("winners")?;
    put_list(&plan.winners, answer)?;
    write!(answer, " redo {} missing", plan.redo_start)?;
    put_list(&plan.missing, answer)?;
    put_losers(&plan.losers, answer)
}

fn put_list(numbers: &[u64], answer: &mut String) -> Result<(), Refusal> {
    for number in numbers {
        write!(answer, " {number}")?;
    }
    Ok(())
}

fn put_losers(losers: &Losers, answer: &mut String) -> Result<(), Refusal> {
    write!(answer, " losers below {} ended ", losers.below())?;
    put_number(losers.ended_next(), answer)?;
    if let Some(next) = losers.lose_next() {
        write!(answer, " next {} of {}", next.left, next.txn)?;
        write!(answer, " last {} {}", next.last, next.chain().last)?;
    }
    Ok(())
}

/// In which order the losers are undone and end.
pub fn put_order(alloc: Global, log: &Log<MemLog>, answer: &mut String) -> Result<(), Refusal> {
    let mut records = Vec::new(alloc);
    for number in 0..log.len() {
        if let Some(found) = log.record(number + 1) {
            records.push(found)?;
        }
    }
    let mut undone = plain::all_answered(alloc, &records)?;
    put_undone(&mut undone, &mut analyse(alloc, log)?.losers, answer)
}

/// What a restart finds after each beginning of the log, and how it undoes the losers, as the slow reader says both.
/// Tells where it says something else, and how many beginnings there are.
pub fn compare_restarts(
    alloc: Global,
    records: &[Record],
    answer: &mut String,
) -> Result<(), Refusal> {
    for end in 0..=records.len() {
        let left = &records[..end];
        compare_restart(alloc, &opened(alloc, left)?, left, answer)?;
    }
    write!(answer, "{}", records.len().saturating_add(1))?;
    Ok(())
}

fn compare_restart(
    alloc: Global,
    log: &Log<MemLog>,
    records: &[Record],
    answer: &mut String,
) -> Result<(), Refusal> {
    let mut plan = analyse(alloc, log)?;
    compare_plan(records, &plan, answer)?;
    compare_redo(log, records, answer)?;
    let mut undone = plain::all_answered(alloc, records)?;
    undo_wholly(&mut undone, &mut plan.losers, answer)
}

/// The plan says of each number what the slow reader says.
fn compare_plan(log: &[Record], plan: &Plan, answer: &mut String) -> Result<(), Refusal> {
    let end = log.len() as u64;
    let mut winners = 0usize;
    for number in 1..=end {
        let has_commit = plain::has_commit(log, number);
        if plan.winners.contains(&number) != has_commit
            || plan.missing.contains(&number) != plain::lacks_answer(log, number)
        {
            write!(answer, "plan of {end} at {number}; ")?;
        }
        if has_commit {
            winners = winners.saturating_add(1);
        }
    }
    if plan.winners.len() != winners || plan.redo_start != plain::redo_start(log) {
        write!(answer, "plan of {end}; ")?;
    }
    Ok(())
}

/// Redo goes from request to request.
fn compare_redo(log: &Log<MemLog>, records: &[Record], answer: &mut String) -> Result<(), Refusal> {
    let end = records.len() as u64;
    for from in 0..=end {
        if redo_next(log, from, end) != plain::redo_next(records, from) {
            write!(answer, "redo of {end} from {from}; ")?;
        }
    }
    Ok(())
}
