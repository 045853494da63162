//! Refusals that no script brings about.
use crate::tally::Tally;
use record_key::Refusal;
use shell_scripts::{FAILED, refuse};
use std::alloc::Global;

/// Refusals, and the line of each.
const LINES: [(Refusal, &str); 4] = [
    (Refusal::NoMemory, "no 1 NoMemory\n"),
    (Refusal::BadBytes(0), "no 19 BadBytes 0\n"),
    (Refusal::NumbersSpent, "no 20 NumbersSpent\n"),
    (
        Refusal::BadScript(u64::MAX),
        "no 17 BadScript 18446744073709551615\n",
    ),
];

/// Writes each, and counts those that give their line and the status.
pub fn compare_refusals(alloc: Global) -> Tally {
    let mut tally = Tally::new();
    for (refusal, line) in LINES {
        tally.count(is_written(alloc, refusal, line));
    }
    tally
}

fn is_written(alloc: Global, refusal: Refusal, line: &str) -> bool {
    let mut written = Vec::new(alloc);
    let status = refuse(&mut written, refusal, FAILED);
    status == FAILED && written.as_slice() == line.as_bytes()
}
