//! One measurement of an engine under one lock.
ghost use Rattle.engine_monitor.specs.Opened.{IsNamed};

use crate::crew::Crew;
use crate::hashing::digest;
use crate::outcome::{Outcome, done};
use crate::store::opened_store;
use crate::timing::timed;
use engine_monitor::{Engine, Naming, Opened};
use stable::{CrashLog, CrashPages};
use std::alloc::Global;
use std::fs::{File, Files};
use std::io;
use std::marker::Brand;
use std::sync::Wait;
use std::thread::Threads;
use std::time::{Clock, Duration};

/// A crew's work, from an engine's opening to its end, over devices in memory.
pub fn monitored<R>(rt: R, alloc: Global, crew: Crew) -> io::Result<Outcome>
where
    R: Clock + Print + Threads + Wait + Copy + Sync,
{
    let opened = done(Opened::new(alloc, crew.sessions()))?;
    monitored_in::<Brand, _, _, R>(rt, alloc, opened, crew)
}

/// The same over the store of a folder.
pub fn monitored_on<R>(rt: R, alloc: Global, folder: &str, crew: Crew) -> io::Result<Outcome>
where
    R: Files<File = File> + AllocGlobal + Clock + Print + Threads + Wait + Copy + Sync,
{
    let world = opened_store(&rt, alloc, folder)?;
    let opened = done(Opened::over(alloc, world, crew.sessions(), true))?;
    monitored_in::<Brand, _, _, R>(rt, alloc, opened, crew)
}

/// The same with what an engine is made of.
fn monitored_in<J, D, P, R>(
    rt: R,
    alloc: Global,
    opened: Opened<D, P>,
    crew: Crew,
) -> io::Result<Outcome>
where
    J: Naming + Drop + Send + Sync + 'static,
    D: CrashLog + Drop + Send + 'static,
    P: CrashPages + Drop + Send + 'static,
    R: Clock + Print + Threads + Wait + Copy + Sync,
    requires named { IsNamed opened J.start J.entries J.marks J.names J.sessions }
{
    let (engine, sessions) = done(Engine::<J, D, P>::new(&rt, opened))?;
    let took = timed(&rt, alloc, sessions, crew);
    let closed = done(engine.close(&rt, Vec::new(alloc)))?;
    let rows = done(closed.world().rows())?;
    Ok(Outcome {
        took: took?,
        busy: Duration::ZERO,
        waits: 0,
        digest: digest(rows.as_slice()),
    })
}
