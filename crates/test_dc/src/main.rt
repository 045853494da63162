//! Tests of the data component and of its system transactions, over their public calls: scripts of calls with what each
//! answers, devices that fail at each call in turn, crashes, damaged logs and pages, and calls beside the plain table.
//!
//! Knows: the public calls of the data component and of its system transactions, and what their devices do.
//! Must not know: anything that these keep to themselves, or how messages come and go.
//! Promises nothing: it is run. It says what no clause says: that a call succeeds, what a run of calls comes to, which
//! device call fails, and what a crash leaves.
#![tactic(auto)]

mod component;
mod component_calls;
mod devices;
mod mixed;
mod paper;
mod recovering;
mod requests;
mod system_calls;
mod systems;

use component::Component;
use std::io;
use std::process::ExitCode;
use systems::Systems;
use test_calls::{Subject, Tally, play, report, script_in, status};

fn main(rt: HostRuntime) -> io::Result<ExitCode> {
    let differ = played(&rt, "component", &mut Component::new(rt.alloc()))?;
    let differ = differ.wrapping_add(played(&rt, "systems", &mut Systems::new(rt.alloc()))?);
    let mut tally = Tally::NONE;
    mixed::calls(rt.alloc(), 300, &mut tally);
    report(&rt, "mixed", &tally)?;
    Ok(status(differ.wrapping_add(tally.differ)))
}

/// Plays the script in the file of this name. Gives how many lines differ.
fn played<S: Subject>(rt: &HostRuntime, name: &str, subject: &mut S) -> io::Result<u64> {
    let script = script_in(rt, name)?;
    let tally = play(rt, script.as_str(), subject);
    report(rt, name, &tally)?;
    Ok(tally.differ)
}
