//! Tests of the transaction component by itself, and of its locks on keys and ranges, over their public calls: scripts
//! of calls with replies that are made by hand, refusals in their order, a device that fails at each call in turn,
//! crashes and opening; and calls in a mixed order on the indexed table of locks and the plain one.
//!
//! Knows: the public calls of the transaction component and of the locks, and what its device does.
//! Must not know: anything that these keep to themselves, or how messages come and go.
//! Promises nothing: it is run. It says what no clause says: that a call succeeds, what a run of calls comes to, which
//! device call fails, what a crash leaves, and that a fast body does what a slow plain one does.
#![tactic(auto)]

mod calls;
mod client_calls;
mod component;
mod locks;
mod mixed;
mod numbers;
mod records;
mod replies;
mod shown;
mod spans;
mod table;

use component::Component;
use locks::Locks;
use mixed::mixed_calls;
use std::io;
use std::process::ExitCode;
use table::Table;
use tc_locks::{PlainLocks, RangeLocks};
use test_calls::{Subject, play, report, script_in, status};

fn main(rt: HostRuntime) -> io::Result<ExitCode> {
    let script = script_in(&rt, "component")?;
    let differ = played(
        &rt,
        "component",
        script.as_str(),
        &mut Component::new(rt.alloc()),
    )?;
    let script = script_in(&rt, "locks")?;
    let differ = differ.wrapping_add(locked::<RangeLocks>(&rt, "indexed", script.as_str())?);
    let differ = differ.wrapping_add(locked::<PlainLocks>(&rt, "plain", script.as_str())?);
    Ok(status(differ.wrapping_add(compared(&rt)?)))
}

/// Plays the script. Gives how many lines differ.
fn played<S: Subject>(
    rt: &HostRuntime,
    name: &str,
    script: &str,
    subject: &mut S,
) -> io::Result<u64> {
    let tally = play(rt, script, subject);
    report(rt, name, &tally)?;
    Ok(tally.differ)
}

/// Plays the script on a table of locks of this kind. Gives how many lines differ.
fn locked<L: Locks + Drop>(rt: &HostRuntime, name: &str, script: &str) -> io::Result<u64> {
    played(rt, name, script, &mut Table::<L>::new(rt.alloc()))
}

/// Compares both kinds of tables over calls in a mixed order. Gives how many differ.
fn compared(rt: &HostRuntime) -> io::Result<u64> {
    let mut indexed = RangeLocks::new(rt.alloc());
    let mut plain = PlainLocks::new(rt.alloc());
    let tally = mixed_calls(&mut indexed, &mut plain, 4000);
    report(rt, "mixed", &tally)?;
    Ok(tally.differ)
}
