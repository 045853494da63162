//! What the main thread does to the engine beside its clients: crashes, and failures of the log's device.
use crate::plan::{CRASHES, Crash, FAILS, FAILURES, Many, Trouble, crash_at};
use crate::stage::Stage;
use crate::verdict::{TRIES, Verdict, both};
use engine_answers::Commands;
use record_key::Refusal;
use std::sync::Wait;

/// Makes the trouble of a case. Whether each restart was done.
pub fn trouble<E: Commands, R: Wait>(
    rt: &R,
    engine: &mut E,
    stage: &Stage,
    many: &Many,
) -> Verdict {
    let clients = many.sessions as u64;
    match many.plan.trouble {
        Trouble::Nothing => Ok(true),
        Trouble::Crashes(step) => crash_all(rt, engine, stage, clients, step),
        Trouble::Failures(step) => {
            fail_all(rt, engine, stage, clients, step);
            Ok(true)
        }
    }
}

// Lets the log's device fail its next call, the second or the third, each time after so many calls more.
fn fail_all<E: Commands, R: Wait>(rt: &R, engine: &mut E, stage: &Stage, clients: u64, step: u64) {
    let mut calls = 0u64;
    for place in 0..FAILURES {
        calls = calls.saturating_add(step);
        stage.wait_calls(calls, clients);
        engine.fail_tc(rt, place % 3 + 1);
    }
}

// Makes each crash after so many calls more, restarts what is down, and lets a device fail some calls later. Whether each
// restart was done.
fn crash_all<E: Commands, R: Wait>(
    rt: &R,
    engine: &mut E,
    stage: &Stage,
    clients: u64,
    step: u64,
) -> Verdict {
    let mut up = Ok(true);
    let mut calls = 0u64;
    for place in 0..CRASHES {
        calls = calls.saturating_add(step);
        stage.wait_calls(calls, clients);
        up = both(up, fall(rt, engine, stage, crash_at(place)));
    }
    up
}

/// Brings the components up, and answers how often that was refused memory. Where it always is the transaction component
/// crashes, so that no call waits for them.
pub fn bring_up<E: Commands, R: Wait>(rt: &R, engine: &mut E) -> Result<u64, Refusal> {
    for refused in 0..TRIES {
        match engine.restart(rt) {
            Err(Refusal::NoMemory) => {}
            Ok(()) => return Ok(refused),
            Err(refusal) => return Err(refusal),
        }
    }
    engine.crash_tc(rt, 0);
    Err(Refusal::NoMemory)
}

// Clients wait from before a crash until all is up again, if they are refused.
fn fall<E: Commands, R: Wait>(rt: &R, engine: &mut E, stage: &Stage, crash: Crash) -> Verdict {
    stage.set_down(true);
    match crash {
        Crash::Data => engine.crash_dc(rt),
        Crash::Transactions(kept) => engine.crash_tc(rt, kept),
        Crash::Both => {
            engine.crash_tc(rt, 0);
            engine.crash_dc(rt);
        }
    }
    // (what was to fail may fail here)
    let up = match bring_up(rt, engine) {
        Err(Refusal::Device) => bring_up(rt, engine),
        up => up,
    };
    engine.fail_tc(rt, FAILS);
    stage.set_down(false);
    match up {
        Ok(_) => Ok(true),
        Err(refusal) => Err(refusal),
    }
}
