//! Lines outside the grammar.
use crate::difference::print_difference;
use crate::tally::Tally;
use shell_scripts::{FAULT, run};
use std::{fs, io};

const REFUSED: &[u8] = b"no 17 BadScript 1\n";

/// Runs each line of the file `bad_lines` as a script, and prints a line for each that isn't refused.
pub fn compare_lines(rt: &HostRuntime) -> io::Result<Tally> {
    let lines = fs::read_to_string(rt, "bad_lines")?;
    let mut tally = Tally::new();
    for line in lines.as_str().split_terminator('\n') {
        tally.count(is_refused(rt, line)?);
    }
    Ok(tally)
}

/// Whether the line is outside the grammar. Prints what it gives where it isn't.
fn is_refused(rt: &HostRuntime, line: &str) -> io::Result<bool> {
    let mut written = Vec::new(rt.alloc());
    let status = run(rt.alloc(), false, &mut line.as_bytes(), &mut written);
    if written.as_slice() != REFUSED {
        print_difference(rt, line, REFUSED, written.as_slice())?;
        return Ok(false);
    }
    if status != FAULT {
        println!(rt; "{line}: exit status {status}, not {FAULT}")?;
    }
    Ok(status == FAULT)
}
