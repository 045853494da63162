//! A script from standard input, and what is said of its run on standard error.
use crate::refusals::Counting;
use record_key::Refusal;
use shell_faults::{Rebound, first_rebound, reason};
use shell_scripts::{DONE, FAILED, FAULT, refusal_of};
use std::io::Read;

/// The exit status of a strict run that came to its end, where a line was refused.
const REFUSED: u8 = 4;

/// What is told of a line that was refused NotConnected.
pub const UNCONNECTED: &str =
    "undo_shell: NotConnected: a component is down, or the two have no session yet: `settle` before the line restarts and connects them";

/// How a script is run.
#[derive(Clone, Copy)]
pub struct Manner {
    /// It goes on behind a line in which memory or a device failed.
    pub continues: bool,
    /// It is told how many lines were refused.
    pub strict: bool,
    /// Each line is answered before the next is read.
    pub is_interactive: bool,
    /// And asked for.
    pub prompts: bool,
    /// The log of its store isn't written anew where it has grown long.
    pub keeps_log: bool,
}

/// All of standard input.
pub fn read_script<R: Input + AllocGlobal>(rt: &R) -> Result<Vec<u8>, Refusal> {
    let mut script = Vec::new(rt.alloc());
    match rt.reader().read_to_end(&mut script) {
        Ok(_) => Ok(script),
        Err(error) => Err(refusal_of(&error)),
    }
}

/// Prints to standard error why a script that ended so is outside the grammar, if it is. Gives its exit status.
pub fn tell_fault<R: Eprint + AllocGlobal>(rt: &R, script: &[u8], status: u8) -> u8 {
    if status != FAULT {
        return status;
    }
    match reason(rt.alloc(), script) {
        Ok(Some(reason)) => told(eprintln!(rt; "undo_shell: {reason}"), status),
        // Without memory the refusal's line has to do.
        Ok(None) | Err(_) => status,
    }
}

/// Prints to standard error why nothing was written of the one line that was to be explained, if that is so. Gives the
/// exit status.
pub fn tell_line<R: Eprint, W>(
    rt: &R,
    script: &[u8],
    at: Option<u64>,
    text: &Counting<W>,
    status: u8,
) -> u8 {
    match at {
        Some(at) if text.is_blank() && status == DONE => tell_blank(rt, script, at),
        _ => status,
    }
}

fn tell_blank<R: Eprint>(rt: &R, script: &[u8], at: u64) -> u8 {
    let lines = count_lines(script);
    if at > lines {
        return told(
            eprintln!(rt; "undo_shell: there is no line {at}: the script has {lines}"),
            FAULT,
        );
    }
    told(
        eprintln!(rt; "undo_shell: line {at} changes nothing, so nothing is said of it"),
        DONE,
    )
}

/// How many lines a script has, the last of which may lack its end.
fn count_lines(script: &[u8]) -> u64 {
    let ends = script.iter().filter(|byte| **byte == b'\n').count() as u64;
    if script.is_empty() || script.ends_with(b"\n") {
        ends
    } else {
        ends.saturating_add(1)
    }
}

/// Prints to standard error what is to be said of a run that was written so and ended so. Gives its exit status.
pub fn tell_run<R: Eprint + AllocGlobal, W>(
    rt: &R,
    manner: Manner,
    script: &[u8],
    text: &Counting<W>,
    status: u8,
) -> u8 {
    let status = tell_unconnected(rt, text, tell_fault(rt, script, status));
    if manner.strict && status != FAULT {
        tell_refused(rt, text.refused(), tell_rebound(rt, script, status))
    } else {
        status
    }
}

/// A label may be given away, but seldom is on purpose.
fn tell_rebound<R: Eprint + AllocGlobal>(rt: &R, script: &[u8], status: u8) -> u8 {
    match first_rebound(rt.alloc(), script) {
        Ok(Some(Rebound { line, earlier })) => told(
            eprintln!(rt;
                "undo_shell: line {line} begins the label of line {earlier} again: no line behind it names the transaction that has begun there, and none between has ended it"
            ),
            status,
        ),
        Ok(None) | Err(_) => status,
    }
}

fn tell_unconnected<R: Eprint, W>(rt: &R, text: &Counting<W>, status: u8) -> u8 {
    if !text.is_unconnected() {
        return status;
    }
    told(eprintln!(rt; "{UNCONNECTED}"), status)
}

/// Prints to standard error how many lines were refused. Gives the exit status of a strict run that ended so.
pub fn tell_refused<R: Eprint>(rt: &R, refused: u64, status: u8) -> u8 {
    let ended = if status == DONE && refused > 0 {
        REFUSED
    } else {
        status
    };
    match refused {
        1 => told(eprintln!(rt; "undo_shell: 1 line was refused"), ended),
        _ => told(
            eprintln!(rt; "undo_shell: {refused} lines were refused"),
            ended,
        ),
    }
}

/// The exit status of what was told of.
pub fn told(written: std::io::Result<()>, status: u8) -> u8 {
    match written {
        Ok(()) => status,
        Err(_) => FAILED,
    }
}
