//! Cases of the transactions' log, from its devices to what a restart finds in it.
//!
//! Knows: the public calls of these crates, and what each line of its data is to answer.
//! Must not know: anything that these crates keep to themselves.
//! Promises its reader to print each line whose answer isn't the one that stands behind it, and how many agree. What is
//! read fast is read again by a slow plain reader, and told where the two differ.
#![tactic(auto)]

mod damaged;
mod devices;
mod listed_log;
mod logs;
mod opening;
mod pages;
mod plain;
mod planned;
mod questions;
mod saved;
mod slow;
mod spelled;
mod undoing;
mod written;

use devices::Devices;
use logs::Logs;
use pages::Pages;
use saved::Saved;
use std::io;
use test_lines::compare;
use written::Writing;

fn main(rt: HostRuntime) -> io::Result<()> {
    compare(&rt, "devices.txt", &mut Devices::new(rt.alloc()))?;
    compare(&rt, "pages.txt", &mut Pages::new(rt.alloc()))?;
    compare(&rt, "legality.txt", &mut Logs::new(rt.alloc()))?;
    compare(&rt, "opening.txt", &mut Logs::new(rt.alloc()))?;
    compare(&rt, "writing.txt", &mut Writing::new(rt.alloc()))?;
    compare(&rt, "restarts.txt", &mut Logs::new(rt.alloc()))?;
    compare(&rt, "savepoints.txt", &mut Saved::new(rt.alloc()))?;
    compare(&rt, "changes.txt", &mut Logs::new(rt.alloc()))
}
