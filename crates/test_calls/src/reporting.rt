//! Scripts that are read, and counts that are printed.
use crate::tally::Tally;
use crate::text::Text;
use std::alloc::Global;
use std::process::ExitCode;
use std::{fs, io};

/// The script in this file. Read again where memory is refused.
pub fn script_in(rt: &HostRuntime, file: &str) -> io::Result<String<Global>> {
    match fs::read_to_string(rt, file) {
        Err(error) if error.kind() == io::ErrorKind::OutOfMemory => fs::read_to_string(rt, file),
        script => script,
    }
}

/// Prints how many lines agree. Calls that were refused for want of memory are told apart from that, since they differ
/// with what is tried.
pub fn report<R: Print + Eprint>(rt: &R, name: &str, tally: &Tally) -> io::Result<()> {
    let mut line = Text::new();
    line.put(name);
    line.push(":");
    put_count(&mut line, tally.agree, "agree");
    put_count(&mut line, tally.differ, "differ");
    if tally.devices > 0 {
        put_count(&mut line, tally.devices, "made again after a device failed");
    }
    rt.println(line.as_str())?;
    if tally.memory > 0 {
        rt.eprintln("calls were made again after memory was refused")?;
    }
    Ok(())
}

fn put_count(line: &mut Text, count: u64, what: &str) {
    line.put_number(count);
    line.put(what);
}

/// The status of a program of tests.
pub fn status(differ: u64) -> ExitCode {
    ExitCode::from(if differ == 0 { 0 } else { 1 })
}
