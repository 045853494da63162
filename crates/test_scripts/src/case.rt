//! One script with the text and the exit status that it must give.
use crate::difference::print_difference;
use crate::files::{bytes_of, text_of};
use crate::tally::Tally;
use shell_scripts::run;
use std::io;

/// Runs each of these scripts, those on behind failures that are named so, and prints a line for each that gives another
/// text or exit status than it must, or whose files can't be read.
pub fn compare_scripts(rt: &HostRuntime, names: &[String], continued: &str) -> io::Result<Tally> {
    let mut tally = Tally::new();
    for name in names {
        match agrees(rt, name.as_str(), has_line(continued, name.as_str())) {
            Ok(agrees) => tally.count(agrees),
            Err(error) => {
                println!(rt; "{name}: {error}")?;
                tally.count(false);
            }
        }
    }
    Ok(tally)
}

fn has_line(text: &str, wanted: &str) -> bool {
    for line in text.split_terminator('\n') {
        if line == wanted {
            return true;
        }
    }
    false
}

/// Whether the script gives what it must. Prints where it doesn't.
fn agrees(rt: &HostRuntime, name: &str, continues: bool) -> io::Result<bool> {
    let script = bytes_of(rt, name, "script")?;
    let mut written = Vec::new(rt.alloc());
    let given = run(rt.alloc(), continues, &mut script.as_slice(), &mut written);
    Ok(is_text(rt, name, written.as_slice())? && is_status(rt, name, given)?)
}

fn is_text(rt: &HostRuntime, name: &str, written: &[u8]) -> io::Result<bool> {
    let text = bytes_of(rt, name, "out")?;
    let agrees = written == text.as_slice();
    if !agrees {
        print_difference(rt, name, text.as_slice(), written)?;
    }
    Ok(agrees)
}

fn is_status(rt: &HostRuntime, name: &str, given: u8) -> io::Result<bool> {
    let text = text_of(rt, name, "status")?;
    let status = text.trim_end();
    let agrees = status.parse::<u8>() == Ok(given);
    if !agrees {
        println!(rt; "{name}: exit status {given}, not {status}")?;
    }
    Ok(agrees)
}
