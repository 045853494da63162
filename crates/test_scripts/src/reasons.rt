//! Why a line is outside the grammar, as it is told.
use crate::difference::print_difference;
use crate::files::bytes_of;
use crate::tally::Tally;
use shell_faults::reason;
use std::{fs, io};

/// The reasons of the lines of the file `reasons`, a line, ` => ` and its reason each; that each line of `bad_lines` has
/// one which says more than that, and each of these scripts one just where it is outside the grammar.
pub fn compare_reasons(rt: &HostRuntime, names: &[String]) -> io::Result<Tally> {
    let mut tally = Tally::new();
    compare_listed(rt, &mut tally)?;
    for line in fs::read_to_string(rt, "bad_lines")?
        .as_str()
        .split_terminator('\n')
    {
        tally.count(has_own_reason(rt, line)?);
    }
    for name in names {
        tally.count(has_reason_if_bad(rt, name.as_str())?);
    }
    Ok(tally)
}

fn compare_listed(rt: &HostRuntime, tally: &mut Tally) -> io::Result<()> {
    let cases = fs::read_to_string(rt, "reasons")?;
    for case in cases.as_str().split_terminator('\n') {
        if let Some((line, wanted)) = case.split_once(" => ") {
            tally.count(is_told(rt, line, wanted)?);
        }
    }
    Ok(())
}

/// Whether the line has this reason. `\r` and `\t` in it stand for the bytes that these write.
fn is_told(rt: &HostRuntime, line: &str, wanted: &str) -> io::Result<bool> {
    let script = line.replace(rt.alloc(), "\\r", "\r")?;
    let script = script.as_str().replace(rt.alloc(), "\\t", "\t")?;
    let found = reason(rt.alloc(), script.as_bytes())?;
    let found = match &found {
        Some(reason) => reason.as_str(),
        None => "none",
    };
    if found != wanted {
        print_difference(rt, line, wanted.as_bytes(), found.as_bytes())?;
    }
    Ok(found == wanted)
}

fn has_own_reason(rt: &HostRuntime, line: &str) -> io::Result<bool> {
    let found = reason(rt.alloc(), line.as_bytes())?;
    let is_own = match &found {
        Some(reason) => !reason.as_str().ends_with("outside the grammar"),
        None => false,
    };
    if !is_own {
        println!(rt; "{line}: no reason of its own")?;
    }
    Ok(is_own)
}

fn has_reason_if_bad(rt: &HostRuntime, name: &str) -> io::Result<bool> {
    let script = bytes_of(rt, name, "script")?;
    let is_bad = bytes_of(rt, name, "out")?.starts_with(b"no 17 BadScript ");
    let agrees = reason(rt.alloc(), &script)?.is_some() == is_bad;
    if !agrees {
        println!(rt; "{name}: a reason where there is none, or none where there is one")?;
    }
    Ok(agrees)
}
