//! One measurement.
use crate::work::Work;
use crate::workload::Workload;
use bench_crew::{Outcome, done};
use std::alloc::Global;
use std::io;
use std::time::{Clock, Instant};

pub fn measured<R: Clock>(
    rt: &R,
    alloc: Global,
    workload: Workload,
    operations: u64,
) -> io::Result<Outcome> {
    let mut work = done(Work::new(alloc, workload, operations))?;
    timed(rt, &mut work)
}

/// Loads what stands there before, and then does the work.
fn timed<R: Clock>(rt: &R, work: &mut Work) -> io::Result<Outcome> {
    done(work.load())?;
    let start = Instant::now(rt)?;
    done(work.go())?;
    let end = Instant::now(rt)?;
    let took = end.duration_since(start);
    Ok(Outcome {
        took,
        busy: took,
        waits: work.waits(),
        digest: done(work.digest())?,
    })
}
