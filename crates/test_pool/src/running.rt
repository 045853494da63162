//! A case on three locks, from its engine's first thread to its verdict.
ghost use Rattle.std.specs.Prelude.{◌<◌};
ghost use Rattle.engine_workers.specs.Opened.{IsNamed};

use crate::going_on::{copied, goes_on};
use crate::playing::{Case, Played, play};
use engine_workers::{Closed, Engine, Naming, Opened, Session, Step};
use record_key::{Key, Value};
use std::alloc::Global;
use std::marker::Brand;
use std::sync::{Arc, Wait};
use std::thread::Threads;
use test_pool_cases::{Door, Leaves, Part, Stage, Verdict, both, is_history, is_played, leaves};

/// What an engine left.
#[derive(Drop)]
struct Left<'a, J: Naming> {
    closed: &'a Closed<J>,
}

impl<J: Naming> Leaves for Left<'_, J> {
    fn count(&self) -> usize {
        self.closed.len()
    }

    fn step_at(&self, place: usize) -> Option<&Step> {
        self.closed.step(place)
    }

    fn records(&self) -> Option<&[(Key, Value)]> {
        self.closed.rows()
    }
}

/// Runs a case on an engine of its own. Whether it agrees.
pub fn run_case<R>(rt: R, alloc: Global, case: Case<'_>) -> Verdict
where
    R: Threads + Wait + Copy + Send + 'static,
{
    let stage = Arc::new(alloc, Stage::new(case.hold()))?;
    let door = Door::new(Arc::try_clone(&stage)?);
    run(rt, alloc, &stage, door, &case)
}

// The same at the gate of this stage. What an engine is made of is made last, so that no early exit drops it.
fn run<R>(rt: R, alloc: Global, stage: &Arc<Stage>, door: Door, case: &Case<'_>) -> Verdict
where
    R: Threads + Wait + Copy + Send + 'static,
{
    let workers = case.workers();
    if workers == 0 {
        return Ok(false);
    }
    let opened = Opened::new(alloc, case.sessions())?;
    run_opened::<Brand, R>(rt, alloc, opened, workers, stage, door, case)
}

// The same with what an engine is made of.
fn run_opened<J, R>(
    rt: R,
    alloc: Global,
    opened: Opened,
    workers: usize,
    stage: &Arc<Stage>,
    door: Door,
    case: &Case<'_>,
) -> Verdict
where
    J: Naming + Drop + Send + Sync + 'static,
    R: Threads + Wait + Copy + Send + 'static,
    requires named { IsNamed opened J.start J.entries J.marks J.names J.sessions }
    requires some { 0 < workers }
{
    let (mut engine, sessions) = Engine::<J, Door>::new(rt, opened, workers, door)?;
    let played = play(rt, alloc, &mut engine, sessions, stage, case);
    close(rt, alloc, engine, played, case)
}

// Closes the engine, and judges what it leaves.
fn close<J, R>(
    rt: R,
    alloc: Global,
    engine: Engine<J, Door>,
    played: Played<Session<J, Door>>,
    case: &Case<'_>,
) -> Verdict
where
    J: Naming + Drop + Send + Sync + 'static,
    R: Threads + Wait + Copy + Send + 'static,
{
    let Played {
        sessions,
        parts,
        agrees,
    } = played;
    let closed = engine.close(&rt, sessions)?;
    let left = Left { closed: &closed };
    let judged = judge(alloc, &left, &parts, case, is_whole(agrees));
    both(both(agrees, judged), went_on(alloc, closed))
}

// Whether the node that is left goes on.
fn went_on<J: Naming + Drop>(alloc: Global, closed: Closed<J>) -> Verdict {
    let rows = copied(alloc, closed.rows().unwrap_or(&[]))?;
    goes_on(alloc, rows.as_slice(), closed.into_node())
}

// Whether the case was played to its end.
fn is_whole(agrees: Verdict) -> bool {
    matches!(agrees, Ok(true))
}

// What a case leaves that wasn't played to its end is judged by its history alone.
fn judge<L: Leaves>(
    alloc: Global,
    closed: &L,
    parts: &[Part],
    case: &Case<'_>,
    whole: bool,
) -> Verdict {
    if !is_history(alloc, closed, parts, whole)? {
        return Ok(false);
    }
    match case {
        _ if !whole => Ok(true),
        Case::Table(table) => leaves(alloc, closed, table.left),
        Case::Many(many) => is_played(closed, many),
    }
}
