//! Scripts in which each call of a device fails in turn.
//!
//! The line that is refused is given again, and the script goes on. What clients are told then, and the tables that are
//! shown, must be those of the undisturbed run; only the numbers of transactions may differ, since a session that a
//! failure stopped may leave its record.
use crate::files::text_of;
use crate::tally::Tally;
use shell_scripts::run;
use std::alloc::{AllocError, Global};
use std::{fs, io};
use test_reading::{told_lines, word};

/// The devices of a node, as scripts name them.
const DEVICES: [&str; 3] = ["tclog", "dclog", "pages"];

/// More calls than any script here makes of a device.
const MOST_CALLS: u64 = 1000;

/// A script by its lines, and what it tells undisturbed.
#[derive(Clone, Copy)]
struct Undisturbed<'a> {
    name: &'a str,
    lines: &'a [&'a str],
    told: &'a str,
    /// Whether its lines name messages by their numbers. A settling that is played again sends other ones.
    names_messages: bool,
}

/// What came of a failure.
#[derive(Clone, Copy)]
enum Came {
    /// The device isn't called so often.
    Never,
    /// It failed amid a settling whose messages the script names.
    Passed,
    Agrees,
    Differs,
}

/// Fails each call of each device along each script that the file `failed_scripts` names. Prints a line for each failure
/// after which the script tells something else.
pub fn compare_device_failures(rt: &HostRuntime) -> io::Result<Tally> {
    let names = fs::read_to_string(rt, "failed_scripts")?;
    let mut tally = Tally::new();
    for name in names.as_str().split_terminator('\n') {
        fail_along(rt, name, &mut tally)?;
    }
    Ok(tally)
}

/// Fails each call of each device along this script.
fn fail_along(rt: &HostRuntime, name: &str, tally: &mut Tally) -> io::Result<()> {
    let script = text_of(rt, name, "script")?;
    let told = told_by(rt.alloc(), script.as_str())?;
    fail_script(rt, name, script.as_str(), told.as_str(), tally)
}

fn fail_script(
    rt: &HostRuntime,
    name: &str,
    script: &str,
    told: &str,
    tally: &mut Tally,
) -> io::Result<()> {
    let lines = lines_of(rt.alloc(), script)?;
    let undisturbed = Undisturbed {
        name,
        lines: lines.as_slice(),
        told,
        names_messages: names_messages(lines.as_slice()),
    };
    for device in DEVICES {
        fail_device(rt, &undisturbed, device, tally)?;
    }
    Ok(())
}

fn lines_of(alloc: Global, script: &str) -> Result<Vec<&str>, AllocError> {
    let mut lines = Vec::new(alloc);
    for line in script.split_terminator('\n') {
        lines.push(line)?;
    }
    Ok(lines)
}

fn names_messages(lines: &[&str]) -> bool {
    for line in lines {
        if word(line, 0) == "req" || word(line, 0) == "rep" {
            return true;
        }
    }
    false
}

/// Fails each call of this device along the script.
fn fail_device(
    rt: &HostRuntime,
    script: &Undisturbed<'_>,
    device: &str,
    tally: &mut Tally,
) -> io::Result<()> {
    for call in 1..=MOST_CALLS {
        match failed(rt.alloc(), script, device, call)? {
            Came::Never => return Ok(()),
            Came::Passed => {}
            Came::Agrees => tally.count(true),
            Came::Differs => {
                let name = script.name;
                println!(rt; "{name}: something else is told where call {call} of {device} fails")?;
                tally.count(false);
            }
        }
    }
    Ok(())
}

/// Runs the script with this failure, its refused line given again.
fn failed(alloc: Global, script: &Undisturbed<'_>, device: &str, call: u64) -> io::Result<Came> {
    let set = format!(in alloc; "fail {device} {call}\n")?;
    failed_by(alloc, script, set.as_str())
}

/// The same behind the line that sets it.
fn failed_by(alloc: Global, script: &Undisturbed<'_>, set: &str) -> io::Result<Came> {
    if !is_refused(alloc, set, script.lines, script.lines.len())? {
        return Ok(Came::Never);
    }
    let refused = refused_line(alloc, set, script.lines)?;
    let Some(line) = script.lines.get(refused) else {
        return Ok(Came::Differs);
    };
    if script.names_messages && word(line, 0) == "settle" {
        return Ok(Came::Passed);
    }
    if tells_again(alloc, set, script.lines, refused, script.told)? {
        Ok(Came::Agrees)
    } else {
        Ok(Came::Differs)
    }
}

/// Whether the lines tell just this where the refused one is given again.
fn tells_again(
    alloc: Global,
    set: &str,
    lines: &[&str],
    refused: usize,
    told: &str,
) -> io::Result<bool> {
    let mut text = String::from_str(alloc, set)?;
    for (place, line) in lines.iter().enumerate() {
        push_line(&mut text, line)?;
        if place == refused {
            push_line(&mut text, line)?;
        }
    }
    let again = told_by(alloc, text.as_str())?;
    Ok(again.as_str() == told)
}

/// What the script tells clients.
fn told_by(alloc: Global, script: &str) -> io::Result<String> {
    let text = written_by(alloc, script)?;
    Ok(told_lines(alloc, text.as_str())?)
}

/// The place of the line that is refused, where one is: the least so that the lines up to it are refused.
fn refused_line(alloc: Global, set: &str, lines: &[&str]) -> io::Result<usize> {
    let mut place = 0;
    for count in 0..lines.len() {
        place = count;
        if is_refused(alloc, set, lines, count.saturating_add(1))? {
            break;
        }
    }
    Ok(place)
}

/// Whether the device fails in the first lines, so many.
fn is_refused(alloc: Global, set: &str, lines: &[&str], count: usize) -> io::Result<bool> {
    let mut text = String::from_str(alloc, set)?;
    for line in lines.iter().take(count) {
        push_line(&mut text, line)?;
    }
    let text = written_by(alloc, text.as_str())?;
    for line in text.as_str().split('\n') {
        if line == "no 10 Device" {
            return Ok(true);
        }
    }
    Ok(false)
}

fn push_line(text: &mut String, line: &str) -> Result<(), AllocError> {
    text.push_str(line)?;
    text.push('\n')
}

/// What the script writes that is run on behind a failure.
fn written_by(alloc: Global, script: &str) -> io::Result<String> {
    let mut text = Vec::new(alloc);
    let _ = run(alloc, true, &mut script.as_bytes(), &mut text);
    match String::from_utf8(text) {
        Ok(text) => Ok(text),
        Err(_) => Ok(String::new(alloc)),
    }
}
