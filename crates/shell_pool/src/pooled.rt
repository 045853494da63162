//! Clients of an engine on three locks.
ghost use Rattle.std.specs.Prelude.{◌≡◌, ◌<◌, IfOk, length, vec_len};
ghost use Rattle.shell_pool.specs.PoolText.{WritesPool};
ghost use Rattle.engine_workers.specs.Opened.{IsNamed};

use crate::clients::{Crash, Played, play_all};
use crate::holding::{Door, Holding};
use crate::pool_run::show;
use engine_workers::{Closed, Engine, Naming, Opened};
use record_key::{Refusal, Value};
use shell_scripts::{FAILED, refuse};
use std::alloc::Global;
use std::io;
use std::marker::Brand;
use std::sync::{Arc, Wait};
use std::thread::Threads;

/// How many threads serve the clients' requests.
const WORKERS: usize = 4;

/// What `pool` says of such an engine.
pub fn pool<R, W>(rt: R, alloc: Global, clients: usize, rounds: u64, writer: &mut W) -> u8
where
    R: Threads + Wait + Copy + Send + Sync + 'static,
    W: io::Write,
    requires some { 0 < clients }
    ensures { WritesPool clients (W.contents writer.old) (W.contents writer.new) result }
{
    match Opened::new(alloc, clients) {
        Ok(opened) => run_opened::<Brand, R, W>(rt, alloc, opened, rounds, writer),
        Err(refusal) => refuse(writer, refusal, FAILED),
    }
}

// The same with what an engine is made of.
fn run_opened<J, R, W>(rt: R, alloc: Global, opened: Opened, rounds: u64, writer: &mut W) -> u8
where
    J: Naming + Drop + Send + Sync + 'static,
    R: Threads + Wait + Copy + Send + Sync + 'static,
    W: io::Write,
    requires named { IsNamed opened J.start J.entries J.marks J.names J.sessions }
    requires some { 0 < length opened.sessions }
    ensures { WritesPool (length opened.sessions) (W.contents writer.old) (W.contents writer.new) result }
{
    let (values, closed) = match play_out::<J, R>(rt, alloc, opened, rounds) {
        Ok(left) => left,
        Err(refusal) => return refuse(writer, refusal, FAILED),
    };
    show(writer, values.as_slice(), closed.rows())
}

// Starts an engine, lets its clients play, and closes it. Gives what each read, and what the engine leaves.
fn play_out<J, R>(
    rt: R,
    alloc: Global,
    opened: Opened,
    rounds: u64,
) -> Result<(Vec<Option<Value>>, Closed<J>), Refusal>
where
    J: Naming + Drop + Send + Sync + 'static,
    R: Threads + Wait + Copy + Send + Sync + 'static,
    requires named { IsNamed opened J.start J.entries J.marks J.names J.sessions }
    ensures { IfOk result (λ left. vec_len left.0 ≡ length opened.sessions) }
{
    let holding = Arc::new(alloc, Holding::new(rounds >= 2))?;
    let door = Door::new(rt, Arc::try_clone(&holding)?);
    let (mut engine, sessions) = Engine::<J, Door<R>>::new(rt, opened, WORKERS, door)?;
    match play_all(
        rt,
        alloc,
        &mut engine,
        sessions,
        &holding,
        Crash::WhereHeld,
        rounds,
    ) {
        Ok(Played { sessions, values }) => Ok((values, engine.close(&rt, sessions)?)),
        Err(refusal) => {
            let _ = engine.close(&rt, Vec::new(alloc));
            Err(refusal)
        }
    }
}
