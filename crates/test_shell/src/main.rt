//! What `undo_shell` does beside scripts: the words of a command line, and clients on threads.
//!
//! Knows: which words ask for what, and the rule by which the clients play.
//! Must not know: how the words are taken, or how an engine serves its clients.
//! Promises nothing: it is run, and prints each line of its data whose answer isn't the one that is wanted, and how many
//! are.
#![tactic(auto)]

mod command_lines;
mod rounds;

use command_lines::CommandLines;
use rounds::compare_runs;
use std::{fs, io};
use test_lines::compare;

fn main(rt: HostRuntime) -> io::Result<()> {
    compare(&rt, "command_lines", &mut CommandLines::new(rt.alloc()))?;
    let text = fs::read(&rt, "eight_clients")?;
    compare_runs(rt, rt.alloc(), text.as_slice())?.print(&rt)
}
