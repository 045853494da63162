//! One measurement of an engine.
ghost use Rattle.engine_workers.specs.Opened.{IsNamed};

use crate::crew::Crew;
use crate::hashing::digest;
use crate::outcome::{Outcome, done};
use crate::quiet::Quiet;
use crate::store::opened_store;
use crate::timing::timed;
use engine_workers::{Engine, Naming, Opened};
use stable::{CrashLog, CrashPages};
use std::alloc::Global;
use std::fs::{File, Files};
use std::io;
use std::marker::Brand;
use std::sync::Wait;
use std::thread::Threads;
use std::time::{Clock, Duration};

/// How many threads serve the clients' requests.
const WORKERS: usize = 4;

/// A crew's work, from an engine's opening to its end, over devices in memory.
pub fn measured<R>(rt: R, alloc: Global, crew: Crew) -> io::Result<Outcome>
where
    R: Clock + Print + Threads + Wait + Copy + Send + Sync + 'static,
{
    let opened = done(Opened::new(alloc, crew.sessions()))?;
    measured_in::<Brand, _, _, R>(rt, alloc, opened, crew)
}

/// The same over the store of a folder.
pub fn measured_on<R>(rt: R, alloc: Global, folder: &str, crew: Crew) -> io::Result<Outcome>
where
    R: Files<File = File>
        + AllocGlobal
        + Clock
        + Print
        + Threads
        + Wait
        + Copy
        + Send
        + Sync
        + 'static,
{
    let world = opened_store(&rt, alloc, folder)?;
    let opened = done(Opened::over(alloc, world, crew.sessions()))?;
    measured_in::<Brand, _, _, R>(rt, alloc, opened, crew)
}

/// The same with what an engine is made of.
fn measured_in<J, D, P, R>(
    rt: R,
    alloc: Global,
    opened: Opened<D, P>,
    crew: Crew,
) -> io::Result<Outcome>
where
    J: Naming + Drop + Send + Sync + 'static,
    D: CrashLog + Drop + Send + 'static,
    P: CrashPages + Drop + Send + 'static,
    R: Clock + Print + Threads + Wait + Copy + Send + Sync + 'static,
    requires named { IsNamed opened J.start J.entries J.marks J.names J.sessions }
{
    let (engine, sessions) = done(Engine::<J, Quiet, D, P>::new(rt, opened, WORKERS, Quiet))?;
    let took = timed(&rt, alloc, sessions, crew);
    let closed = done(engine.close(&rt, Vec::new(alloc)))?;
    Ok(Outcome {
        took: took?,
        busy: Duration::ZERO,
        waits: 0,
        digest: digest(closed.rows().unwrap_or(&[])),
    })
}
