//! Clients of an engine under one lock.
ghost use Rattle.std.specs.Prelude.{◌≡◌, ◌<◌, IfOk, length, vec_len};
ghost use Rattle.engine_monitor.specs.Opened.{IsNamed};
ghost use Rattle.shell_pool.specs.PoolText.{WritesPool};

use crate::clients::{Crash, Played, play_all};
use crate::holding::Holding;
use crate::pool_run::show;
use engine_monitor::{Closed, Engine, Naming, Opened};
use record_key::{Key, Refusal, Value};
use shell_scripts::{FAILED, refuse};
use stable::{MemLog, MemPages};
use std::alloc::Global;
use std::io;
use std::marker::Brand;
use std::sync::{Arc, Wait};
use std::thread::Threads;

/// What the clients read, and the records that they left, where the data component ran.
struct Left {
    values: Vec<Option<Value>>,
    rows: Option<Vec<(Key, Value)>>,
}

/// What `pool` says of such an engine. No request of its can be held, so the data component crashes once all clients have
/// begun.
pub fn pool<R, W>(rt: R, alloc: Global, clients: usize, rounds: u64, writer: &mut W) -> u8
where
    R: Threads + Wait + Copy + Send + Sync + 'static,
    W: io::Write,
    requires some { 0 < clients }
    ensures { WritesPool clients (W.contents writer.old) (W.contents writer.new) result }
{
    match Opened::new(alloc, clients) {
        Ok(opened) => run_opened::<Brand, R, W>(rt, alloc, opened, rounds, writer),
        Err(refusal) => refuse(writer, refusal, FAILED),
    }
}

// The same with what an engine is made of.
fn run_opened<J, R, W>(rt: R, alloc: Global, opened: Opened, rounds: u64, writer: &mut W) -> u8
where
    J: Naming + Drop + Send + Sync + 'static,
    R: Threads + Wait + Copy + Send + Sync + 'static,
    W: io::Write,
    requires named { IsNamed opened J.start J.entries J.marks J.names J.sessions }
    requires some { 0 < length opened.sessions }
    ensures { WritesPool (length opened.sessions) (W.contents writer.old) (W.contents writer.new) result }
{
    let Left { values, rows } = match play_out::<J, R>(rt, alloc, opened, rounds) {
        Ok(left) => left,
        Err(refusal) => return refuse(writer, refusal, FAILED),
    };
    let rows = match &rows {
        Some(rows) => Some(rows.as_slice()),
        None => None,
    };
    show(writer, values.as_slice(), rows)
}

// Opens an engine, lets its clients play, and closes it.
fn play_out<J, R>(rt: R, alloc: Global, opened: Opened, rounds: u64) -> Result<Left, Refusal>
where
    J: Naming + Drop + Send + Sync + 'static,
    R: Threads + Wait + Copy + Send + Sync + 'static,
    requires named { IsNamed opened J.start J.entries J.marks J.names J.sessions }
    ensures { IfOk result (λ left. vec_len left.values ≡ length opened.sessions) }
{
    let holding = Arc::new(alloc, Holding::new(false))?;
    let (mut engine, sessions) = Engine::<J>::new(&rt, opened)?;
    let crash = if rounds >= 2 {
        Crash::AtOnce
    } else {
        Crash::WhereHeld
    };
    let Played { sessions, values } = play_all(
        rt,
        alloc,
        &mut engine,
        sessions,
        &holding,
        crash,
        rounds,
    )?;
    let rows = rows_of(&engine.close(&rt, sessions)?)?;
    Ok(Left { values, rows })
}

// The records that an engine left, where the data component ran.
fn rows_of<J: Naming>(
    closed: &Closed<J, MemLog, MemPages>,
) -> Result<Option<Vec<(Key, Value)>>, Refusal> {
    match closed.world().rows() {
        Ok(rows) => Ok(Some(rows)),
        Err(Refusal::NotConnected) => Ok(None),
        Err(refusal) => Err(refusal),
    }
}
