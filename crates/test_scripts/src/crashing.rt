//! Scripts that are stopped after each of their events by a crash.
//!
//! The transaction component, the data component or both crash; none, one or all of the records are kept that weren't
//! forced. Then the node settles. It must refuse nothing, and its table must be the one that a plain reading of its log
//! gives.
use crate::files::text_of;
use crate::tally::Tally;
use shell_scripts::{DONE, run};
use std::alloc::{AllocError, Global};
use std::{fs, io};
use test_reading::fault_in;

/// The components that crash.
const CRASHED: [&str; 3] = ["tc", "dc", "tc dc"];

/// How many records are kept that weren't forced: none, one, or more than there are.
const KEPT: [u64; 3] = [0, 1, 1000];

/// A script up to one of its lines, and what it writes.
#[derive(Clone, Copy)]
struct Beginning<'a> {
    name: &'a str,
    lines: u64,
    script: &'a str,
    text: &'a str,
}

/// Crashes each script that the file `crashed_scripts` names after each of its events. Prints a line for each crash
/// after which something is wrong.
pub fn compare_crashes(rt: &HostRuntime) -> io::Result<Tally> {
    let names = fs::read_to_string(rt, "crashed_scripts")?;
    let mut tally = Tally::new();
    for name in names.as_str().split_terminator('\n') {
        crash_along(rt, name, &mut tally)?;
    }
    Ok(tally)
}

/// Crashes the script after each of its events.
fn crash_along(rt: &HostRuntime, name: &str, tally: &mut Tally) -> io::Result<()> {
    let script = text_of(rt, name, "script")?;
    let mut beginning = String::new(rt.alloc());
    let mut lines: u64 = 0;
    for line in script.as_str().split_terminator('\n') {
        beginning.push_str(line)?;
        beginning.push('\n')?;
        lines = lines.saturating_add(1);
        if is_event(line) {
            crash_after(rt, name, lines, beginning.as_str(), tally)?;
        }
    }
    Ok(())
}

/// The other lines only show what is there.
fn is_event(line: &str) -> bool {
    line != "table" && line != "log" && line != "leaves"
}

/// Crashes the script in each way at the end of this beginning.
fn crash_after(
    rt: &HostRuntime,
    name: &str,
    lines: u64,
    script: &str,
    tally: &mut Tally,
) -> io::Result<()> {
    let Some(text) = written_by(rt.alloc(), script)? else {
        tally.count(false);
        return println!(rt; "{name}: line {lines} is never reached");
    };
    let beginning = Beginning {
        name,
        lines,
        script,
        text: text.as_str(),
    };
    for crashed in CRASHED {
        for kept in KEPT {
            tally.count(is_mended(rt, &beginning, crashed, kept)?);
        }
    }
    Ok(())
}

/// Whether the crash is mended by settling. Prints what is wrong where it isn't.
fn is_mended(
    rt: &HostRuntime,
    beginning: &Beginning<'_>,
    crashed: &str,
    kept: u64,
) -> io::Result<bool> {
    let fault = fault_after(rt.alloc(), beginning, crashed, kept)?;
    if let Some(fault) = fault {
        let Beginning { name, lines, .. } = *beginning;
        println!(rt; "{name}: crash of {crashed} after line {lines}, {kept} kept: {fault}")?;
    }
    Ok(fault.is_none())
}

/// What is wrong after the crash, if anything is.
fn fault_after(
    alloc: Global,
    beginning: &Beginning<'_>,
    crashed: &str,
    kept: u64,
) -> io::Result<Option<&'static str>> {
    let script = with_crash(alloc, beginning.script, crashed, kept)?;
    let Some(text) = written_by(alloc, script.as_str())? else {
        return Ok(Some("the script doesn't end well"));
    };
    match text.as_str().strip_prefix(beginning.text) {
        Some(added) => Ok(fault_in(alloc, added)?),
        None => Ok(Some("its beginning writes something else")),
    }
}

/// The script with a crash at its end, after which the node settles and shows its log and its table.
fn with_crash(alloc: Global, script: &str, crashed: &str, kept: u64) -> Result<String, AllocError> {
    let mut script = String::from_str(alloc, script)?;
    for component in crashed.split(' ') {
        script.push_str(format!(in alloc; "crash {component} {kept} 0\n")?.as_str())?;
    }
    script.push_str("settle\nlog\ntable\n")?;
    Ok(script)
}

/// What the script writes, if it ends well.
fn written_by(alloc: Global, script: &str) -> io::Result<Option<String>> {
    let mut text = Vec::new(alloc);
    if run(alloc, false, &mut script.as_bytes(), &mut text) != DONE {
        return Ok(None);
    }
    Ok(String::from_utf8(text).ok())
}
