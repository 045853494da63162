//! A script from its bytes to its text.
ghost use Rattle.std.specs.Prelude.{◌≡◌, ◌⊎◌};
ghost use Rattle.shell_scripts.specs.Labels.{bindings};
ghost use Rattle.shell_scripts.specs.Script.{lines_from, commands_of, asked_by};
ghost use Rattle.shell_scripts.specs.Printed.{refusal_line};
ghost use Rattle.shell_scripts.specs.Text.{WritesText, WritesTextFrom, WritesTextOn, WritesRun, WritesLine, WritesAlone};

use crate::printed::print_refusal;
use crate::script::{cut_at, first_fault, request};
use crate::shell::Shell;
use node_world::World;
use record_key::Refusal;
use stable::{CrashLog, CrashPages};
use std::alloc::Global;
use std::io;

/// The exit status of a script that ran to its end.
pub const DONE: u8 = 0;
/// The exit status of a script or a command line outside the grammar.
pub const FAULT: u8 = 2;
/// The exit status where memory or a device failed.
pub const FAILED: u8 = 3;

/// Reads the script, runs it on a new node and writes its text. Gives the exit status. The calls in the script, with what
/// they were answered and told, are a run of the list machine, from the empty one on. Where memory or a device fails the
/// run goes on behind that line if it continues, and ends there else.
pub fn run<R: io::Read, W: io::Write>(
    alloc: Global,
    continues: bool,
    reader: &mut R,
    writer: &mut W,
) -> u8
    ensures { WritesText continues (R.remaining reader.old) (W.contents writer.old) (W.contents writer.new) result }
{
    match Shell::new(alloc) {
        Ok(mut shell) => run_in(alloc, &mut shell, continues, reader, writer),
        Err(refusal) => refuse(writer, refusal, FAILED),
    }
}

/// The same on this node, whatever its devices: from each list machine that it stands for, the calls in the script lead
/// to another.
pub fn run_on<D: CrashLog + Drop, P: CrashPages + Drop, R: io::Read, W: io::Write>(
    alloc: Global,
    world: World<D, P>,
    continues: bool,
    reader: &mut R,
    writer: &mut W,
) -> u8
    ensures { WritesTextOn continues world (R.remaining reader.old) (W.contents writer.old) (W.contents writer.new) result }
{
    run_in(
        alloc,
        &mut Shell::on(alloc, world),
        continues,
        reader,
        writer,
    )
}

/// Reads the script, checks it, runs it in the shell and writes its text.
fn run_in<D: CrashLog, P: CrashPages, R: io::Read, W: io::Write>(
    alloc: Global,
    shell: &mut Shell<D, P>,
    continues: bool,
    reader: &mut R,
    writer: &mut W,
) -> u8
    ensures { WritesTextFrom continues shell.old.world (bindings shell.old.labels) (R.remaining reader.old)
        (W.contents writer.old) (W.contents writer.new) result }
{
    shell.world.kept();
    let mut script = Vec::new(alloc);
    if let Err(error) = reader.read_to_end(&mut script) {
        return refuse(writer, refusal_of(&error), FAILED);
    }
    match first_fault(script.as_slice()) {
        Some(line) => refuse(writer, Refusal::BadScript(line), FAULT),
        None => {
            shell.world.stood();
            run_from(shell, continues, script.as_slice(), writer)
        }
    }
}

/// A read that fails counts as a device's failure, where it isn't for want of memory.
pub fn refusal_of(error: &io::Error) -> Refusal
    ensures { (result ≡ Refusal.NoMemory) ⊎ (result ≡ Refusal.Device) }
{
    if error.kind() == io::ErrorKind::OutOfMemory {
        Refusal::NoMemory
    } else {
        Refusal::Device
    }
}

/// Writes the refusal's line alone.
pub fn refuse<W: io::Write>(writer: &mut W, refusal: Refusal, status: u8) -> u8
    ensures { WritesAlone (refusal_line refusal) status (W.contents writer.old) (W.contents writer.new) result }
{
    match print_refusal(writer, refusal) {
        Ok(()) => status,
        Err(_) => FAILED,
    }
}

/// Runs the lines of a script that was checked.
fn run_from<D: CrashLog, P: CrashPages, W: io::Write>(
    shell: &mut Shell<D, P>,
    continues: bool,
    script: &[u8],
    writer: &mut W,
) -> u8
    ensures { WritesRun continues (commands_of (lines_from script.now)) shell.old.world (bindings shell.old.labels)
        (W.contents writer.old) (W.contents writer.new) result }
{
    let mut left = Some(script);
    let mut has_failed = false;
    while let Some(bytes) = left {
        let (line, rest) = cut_at(bytes, b'\n');
        let Ok(failed) = run_line(shell, line, writer) else {
            return FAILED;
        };
        has_failed |= failed;
        let ends = failed & !continues;
        if ends {
            return FAILED;
        }
        left = rest;
    }
    if has_failed { FAILED } else { DONE }
}

/// Runs a line and writes its text. Gives whether memory or a device failed in it.
pub fn run_line<D: CrashLog, P: CrashPages, W: io::Write>(
    shell: &mut Shell<D, P>,
    line: &[u8],
    writer: &mut W,
) -> io::Result<bool>
    ensures { WritesLine result (asked_by line.now) shell.old.world (bindings shell.old.labels) shell.new.world
        (bindings shell.new.labels) (W.contents writer.old) (W.contents writer.new) }
{
    let Some(line) = request(line) else {
        return Ok(false);
    };
    let came = shell.perform(&line);
    match came.print(&shell.world, &shell.labels.looks, writer) {
        Ok(()) => Ok(came.has_failed()),
        Err(error) => Err(error),
    }
}
