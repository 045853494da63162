//! A case under one lock, from its engine's first call to its verdict. No list of steps is left there: judged is what each call of
//! a table is answered, and the records.
ghost use Rattle.engine_monitor.specs.Opened.{IsNamed};

use crate::going_on::{Row, goes_on};
use crate::playing::{Case, Played, play};
use engine_monitor::{Closed, Engine, Naming, Opened, Session};
use engine_workers::Step;
use record_key::{Key, Refusal, Value};
use stable::{MemLog, MemPages};
use std::alloc::Global;
use std::marker::Brand;
use std::sync::{Arc, Wait};
use std::thread::Threads;
use test_pool_cases::{Leaves, Stage, Verdict, both, leaves};

/// The value that each client writes at its own key at last.
const OWN: &[u8; 3] = b"own";

/// The records that are left, where the data component runs.
#[derive(Drop)]
struct Rows {
    rows: Option<Vec<Row>>,
}

impl Leaves for Rows {
    fn count(&self) -> usize {
        0
    }

    fn step_at(&self, _place: usize) -> Option<&Step> {
        None
    }

    fn records(&self) -> Option<&[Row]> {
        Some(self.rows.as_ref()?.as_slice())
    }
}

/// Runs a case on an engine of its own. Whether it agrees.
pub fn run_monitored<R>(rt: R, alloc: Global, case: Case<'_>) -> Verdict
where
    R: Threads + Wait + Copy + Send + 'static,
{
    let stage = Arc::new(alloc, Stage::new(case.hold()))?;
    let opened = Opened::new(alloc, case.sessions())?;
    monitor_opened::<Brand, R>(rt, alloc, opened, &stage, &case)
}

// The same with what an engine is made of.
fn monitor_opened<J, R>(
    rt: R,
    alloc: Global,
    opened: Opened,
    stage: &Arc<Stage>,
    case: &Case<'_>,
) -> Verdict
where
    J: Naming + Drop + Send + Sync + 'static,
    R: Threads + Wait + Copy + Send + 'static,
    requires named { IsNamed opened J.start J.entries J.marks J.names J.sessions }
{
    let (mut engine, sessions) = Engine::<J>::new(&rt, opened)?;
    let played = play(rt, alloc, &mut engine, sessions, stage, case);
    close(&rt, alloc, engine, played, case)
}

// Closes the engine, and judges what it leaves.
fn close<J: Naming + Drop, R: Wait>(
    rt: &R,
    alloc: Global,
    engine: Engine<J>,
    played: Played<Session<J>>,
    case: &Case<'_>,
) -> Verdict {
    let Played {
        sessions,
        agrees,
        ..
    } = played;
    let closed = engine.close(rt, sessions)?;
    both(agrees, left(alloc, closed, case))
}

// Whether what an engine leaves is as it is to be, and its node goes on.
fn left<J: Naming + Drop>(
    alloc: Global,
    closed: Closed<J, MemLog, MemPages>,
    case: &Case<'_>,
) -> Verdict {
    let rows = rows_of(&closed)?;
    if !judge(alloc, &rows, case)? {
        return Ok(false);
    }
    let rows = rows.rows.unwrap_or(Vec::new(alloc));
    goes_on(alloc, rows.as_slice(), closed.into_node())
}

// The records, where the data component runs.
fn rows_of<J: Naming + Drop>(closed: &Closed<J, MemLog, MemPages>) -> Result<Rows, Refusal> {
    match closed.world().rows() {
        Ok(rows) => Ok(Rows { rows: Some(rows) }),
        Err(Refusal::NotConnected) => Ok(Rows { rows: None }),
        Err(refusal) => Err(refusal),
    }
}

// Whether these are the records that are to be left: those of a table, or of a plan each client's own.
fn judge(alloc: Global, rows: &Rows, case: &Case<'_>) -> Verdict {
    match case {
        Case::Table(table) => leaves(alloc, rows, table.left),
        Case::Many(many) => has_own(rows, many.sessions as u64),
    }
}

// Whether each of so many clients has written its own record.
fn has_own(rows: &Rows, clients: u64) -> Verdict {
    let Some(rows) = rows.records() else {
        return Ok(false);
    };
    for client in 0..clients {
        if !is_own(rows, Key::new(&[b'A' + (client % 26) as u8])?) {
            return Ok(false);
        }
    }
    Ok(true)
}

// Whether the key has the value that is a client's own.
fn is_own(rows: &[(Key, Value)], key: Key) -> bool {
    rows.iter()
        .any(|row| row.0 == key && row.1.as_bytes() == OWN.as_slice())
}
