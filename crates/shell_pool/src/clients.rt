//! The clients' threads, and the crash beside them.
ghost use Rattle.std.specs.Prelude.{◌≡◌, ◌≤◌, None, IfOk, vec_len, vec_capacity};

use crate::client::play;
use crate::holding::Holding;
use engine_workers::{Calls, Commands};
use record_key::{Refusal, Value};
use std::alloc::{AllocError, Global};
use std::sync::{Arc, Wait};
use std::thread;
use std::thread::{JoinHandle, Threads};

/// What a client read, or why it stopped.
type Read = Result<Option<Value>, Refusal>;

/// What a client leaves.
#[derive(Drop)]
pub struct Ended<S> {
    session: S,
    read: Read,
}

/// The clients' threads in order, and why there are no more of them.
#[derive(Drop)]
pub struct Started<S> {
    threads: Vec<JoinHandle<Ended<S>>>,
    stopped: Option<Refusal>,
}

/// The clients that have ended: their sessions, and what each of them read.
#[derive(Drop)]
pub struct Played<S> {
    pub(crate) sessions: Vec<S>,
    pub(crate) values: Vec<Option<Value>>,
}

/// When the data component crashes beside the clients.
#[derive(Clone, Copy, PartialEq, Eq)]
pub enum Crash {
    /// Once all have begun.
    AtOnce,
    /// Where a request is held for that.
    WhereHeld,
}

/// Each session's client plays its rounds on a thread of its own, while the data component crashes and is restarted.
/// Refused as the least client was, NoMemory where its thread can't be made; the sessions are gone then.
pub fn play_all<E, S, R>(
    rt: R,
    alloc: Global,
    engine: &mut E,
    sessions: Vec<S>,
    holding: &Arc<Holding>,
    crash: Crash,
    rounds: u64,
) -> Result<Played<S>, Refusal>
where
    E: Commands,
    S: Calls + Drop + Send + 'static,
    R: Threads + Wait + Copy + Send + 'static,
    ensures { IfOk result (λ played. vec_len played.values ≡ vec_len sessions) }
{
    let count = sessions.len();
    let played = Played {
        sessions: Vec::with_capacity(alloc, count)?,
        values: Vec::with_capacity(alloc, count)?,
    };
    let threads = Vec::with_capacity(alloc, count)?;
    let started = start_all(rt, sessions, holding, rounds, threads);
    if crash == Crash::AtOnce || holding.wait_held(&rt) {
        engine.crash_dc(&rt);
        restart(&rt, engine);
        holding.open(&rt);
    }
    join_all(&rt, started, played)
}

// Starts a thread for each client, up to the first for which none can be made. A thread that was started is joined
// later: so there is room for its handle before.
fn start_all<S, R>(
    rt: R,
    sessions: Vec<S>,
    holding: &Arc<Holding>,
    rounds: u64,
    threads: Vec<JoinHandle<Ended<S>>>,
) -> Started<S>
where
    S: Calls + Drop + Send + 'static,
    R: Threads + Wait + Copy + Send + 'static,
    requires none { vec_len threads ≡ 0 }
    requires room { vec_len sessions ≤ vec_capacity threads }
    ensures within { vec_len result.threads ≤ vec_len sessions }
    ensures all { result.stopped ≡ None → vec_len result.threads ≡ vec_len sessions }
{
    let mut threads = threads;
    let mut client = 0;
    for session in sessions {
        client += 1;
        let Ok(thread) = start(rt, session, holding, client, rounds) else {
            holding.leave(&rt, client);
            return Started {
                threads,
                stopped: Some(Refusal::NoMemory),
            };
        };
        threads.push_reserved(thread);
    }
    Started {
        threads,
        stopped: None,
    }
}

fn start<S, R>(
    rt: R,
    session: S,
    holding: &Arc<Holding>,
    client: u64,
    rounds: u64,
) -> Result<JoinHandle<Ended<S>>, AllocError>
where
    S: Calls + Drop + Send + 'static,
    R: Threads + Wait + Copy + Send + 'static,
{
    let holding = Arc::try_clone(holding)?;
    Ok(thread::spawn(&rt, move || follow(&rt, session, &*holding, client, rounds))?)
}

// A client's thread, from its first round to its end.
fn follow<S: Calls, R: Wait>(
    rt: &R,
    session: S,
    holding: &Holding,
    client: u64,
    rounds: u64,
) -> Ended<S> {
    let mut session = session;
    let read = play(rt, &mut session, client, rounds);
    holding.leave(rt, client);
    Ended { session, read }
}

// Brings the components up, and again where that is refused.
fn restart<E: Commands, R: Wait>(rt: &R, engine: &mut E) {
    for _ in rt.forever() {
        if engine.restart(rt).is_ok() {
            break;
        }
        thread::yield_now();
    }
}

// Waits for each thread, and gathers what the clients leave, in order. Refused as the least one was. There is room for
// all of it: a thread that isn't joined would keep the engine open.
fn join_all<S, R: Threads>(
    rt: &R,
    started: Started<S>,
    played: Played<S>,
) -> Result<Played<S>, Refusal>
where
    S: Drop,
    requires none { (vec_len played.sessions ≡ 0) × (vec_len played.values ≡ 0) }
    requires sessions { vec_len started.threads ≤ vec_capacity played.sessions }
    requires values { vec_len started.threads ≤ vec_capacity played.values }
    ensures { IfOk result (λ all. (started.stopped ≡ None) × (vec_len all.values ≡ vec_len started.threads)) }
{
    let Started { threads, stopped } = started;
    let Played { sessions, values } = played;
    let mut sessions = sessions;
    let mut values = values;
    let mut refused = None;
    for thread in threads {
        let Ended { session, read } = thread.join(rt);
        sessions.push_reserved(session);
        match read {
            Ok(value) => values.push_reserved(value),
            Err(refusal) => refused = refused.or(Some(refusal)),
        }
    }
    match refused.or(stopped) {
        Some(refusal) => Err(refusal),
        None => Ok(Played { sessions, values }),
    }
}
