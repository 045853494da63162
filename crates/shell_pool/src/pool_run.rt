//! Clients on threads, from an engine's opening to the last line.
ghost use Rattle.std.specs.Prelude.{◌≡◌, ◌<◌, option_map};
ghost use Rattle.shell_scripts.specs.Text.{WritesAlone};
ghost use Rattle.shell_pool.specs.PoolText.{WritesPool, pool_text};

use crate::shown::print_pool;
use crate::{monitored, pooled};
use record_key::{Key, Value};
use shell_scripts::{DONE, FAILED};
use std::alloc::Global;
use std::io;
use std::sync::Wait;
use std::thread::Threads;

/// Which engine the clients share.
#[derive(Clone, Copy, PartialEq, Eq)]
pub enum Locks {
    /// The one under one lock.
    One,
    /// The one on three locks, with workers.
    Three,
}

/// Lets so many clients play so many rounds each, beside a crash of the data component where there are two rounds or
/// more, and writes what each read and which records are left; where anything was refused, the line of that refusal
/// alone. Gives the exit status.
pub fn pool<R, W>(
    rt: R,
    alloc: Global,
    locks: Locks,
    clients: usize,
    rounds: u64,
    writer: &mut W,
) -> u8
where
    R: Threads + Wait + Copy + Send + Sync + 'static,
    W: io::Write,
    requires some { 0 < clients }
    ensures { WritesPool clients (W.contents writer.old) (W.contents writer.new) result }
{
    match locks {
        Locks::One => monitored::pool(rt, alloc, clients, rounds, writer),
        Locks::Three => pooled::pool(rt, alloc, clients, rounds, writer),
    }
}

/// Writes what the clients read and left. Gives the exit status.
pub(crate) fn show<W: io::Write>(
    writer: &mut W,
    values: &[Option<Value>],
    rows: Option<&[(Key, Value)]>,
) -> u8
    ensures { WritesAlone (pool_text values.now (option_map (λ r. r.now) rows.entry)) 0 (W.contents writer.old)
        (W.contents writer.new) result }
{
    match print_pool(writer, values, rows) {
        Ok(()) => DONE,
        Err(_) => FAILED,
    }
}
