//! Runs every script that lies in its folder, and compares what the shell makes of it with what it must; and what no
//! script shows: a reader or a writer that fails, a crash after each event, a failure of each device call, and what
//! explains and draws a script.
//!
//! NAME.script must give exactly the text NAME.out and the exit status NAME.status. Each line of `bad_lines` is a
//! script of its own that is refused BadScript, each of `reasons` one with why it is, each of `continued_scripts` names
//! a script that is run on behind failures, each of `crashed_scripts` one that is crashed, and each of `failed_scripts`
//! one whose devices fail; each of `pictures` names a script NAME.drawn whose text and picture are NAME.txt and
//! NAME.svg. A case that differs prints a line; the last lines say how many agree.
#![tactic(auto)]

mod all_pictures;
mod bad_lines;
mod case;
mod crashing;
mod difference;
mod failing;
mod failing_devices;
mod files;
mod listing;
mod markup;
mod parts_of_pictures;
mod pictures;
mod reasons;
mod refusals;
mod tally;

use std::{fs, io};

fn main(rt: HostRuntime) -> io::Result<()> {
    let rt = &rt;
    let names = listing::names(rt)?;
    let continued = fs::read_to_string(rt, "continued_scripts")?;
    case::compare_scripts(rt, names.as_slice(), continued.as_str())?.print(rt, "scripts")?;
    bad_lines::compare_lines(rt)?.print(rt, "bad lines")?;
    reasons::compare_reasons(rt, names.as_slice())?.print(rt, "reasons")?;
    refusals::compare_refusals(rt.alloc()).print(rt, "refusals")?;
    failing::compare_failures(rt)?.print(rt, "failures")?;
    crashing::compare_crashes(rt)?.print(rt, "crashes")?;
    failing_devices::compare_device_failures(rt)?.print(rt, "failures of devices")?;
    compare_drawn(rt, names.as_slice())
}

fn compare_drawn(rt: &HostRuntime, names: &[String]) -> io::Result<()> {
    pictures::compare_pictures(rt)?.print(rt, "texts and pictures")?;
    all_pictures::compare_all(rt, names)?.print(rt, "texts and pictures of all scripts")?;
    parts_of_pictures::compare_parts(rt.alloc())?.print(rt, "parts of texts and pictures")
}
