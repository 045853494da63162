//! Clients on threads, and what is done beside them.
use engine_workers::{Calls, Commands};
use record_key::Refusal;
use std::alloc::{AllocError, Global};
use std::sync::{Arc, Wait};
use std::thread;
use std::thread::{JoinHandle, Threads};
use test_pool_cases::{
    Client, Many, Plan, Stage, Table, Verdict, both, follow, follow_all, play, trouble,
};

/// What a client does on its thread.
#[derive(Drop)]
enum Task {
    Lines(String),
    Drawn(Plan),
}

/// A client whose thread is over, and whether all was as it is to be.
#[derive(Drop)]
pub struct Ended<S> {
    client: Client<S>,
    agrees: Verdict,
}

// A client's thread. Refused where none can be made; the client is gone then.
fn start<S, R>(
    rt: R,
    alloc: Global,
    client: Client<S>,
    stage: Arc<Stage>,
    task: Task,
) -> Result<JoinHandle<Ended<S>>, AllocError>
where
    S: Calls + Drop + Send + 'static,
    R: Threads + Wait + Copy + Send + 'static,
{
    Ok(thread::spawn(&rt, move || follow_task(&rt, alloc, client, &*stage, task))?)
}

// From a client's first call to its last.
fn follow_task<S: Calls + Drop, R: Wait>(
    rt: &R,
    alloc: Global,
    client: Client<S>,
    stage: &Stage,
    task: Task,
) -> Ended<S> {
    let mut client = client;
    let agrees = perform(rt, alloc, &mut client, stage, &task);
    stage.count_over();
    Ended { client, agrees }
}

// Whether all was as it is to be.
fn perform<S: Calls + Drop, R: Wait>(
    rt: &R,
    alloc: Global,
    client: &mut Client<S>,
    stage: &Stage,
    task: &Task,
) -> Verdict {
    match task {
        Task::Lines(text) => follow(rt, alloc, client, text.as_str()),
        Task::Drawn(plan) => {
            play(rt, client, stage, *plan)?;
            Ok(true)
        }
    }
}

/// Does what a table says. Whether all is answered so.
pub fn play_table<E, S, R>(
    rt: R,
    alloc: Global,
    engine: &mut E,
    clients: &mut Vec<Client<S>>,
    stage: &Arc<Stage>,
    table: &Table<'_>,
) -> Verdict
where
    E: Commands,
    S: Calls + Drop + Send + 'static,
    R: Threads + Wait + Copy + Send + 'static,
{
    if !table.there.is_empty() && !play_beside(rt, alloc, engine, clients, stage, table)? {
        return Ok(false);
    }
    follow_all(&rt, alloc, engine, clients, table.after)
}

// The last client makes its calls on a thread, and what is to be done beside it is done while its message is held.
fn play_beside<E, S, R>(
    rt: R,
    alloc: Global,
    engine: &mut E,
    clients: &mut Vec<Client<S>>,
    stage: &Arc<Stage>,
    table: &Table<'_>,
) -> Verdict
where
    E: Commands,
    S: Calls + Drop + Send + 'static,
    R: Threads + Wait + Copy + Send + 'static,
{
    let task = Task::Lines(String::from_str(alloc, table.there)?);
    let own = Arc::try_clone(stage)?;
    let Some(client) = clients.pop() else {
        return Ok(false);
    };
    let thread = start(rt, alloc, client, own, task)?;
    let held = stage.wait_held();
    let beside = if held {
        follow_all(&rt, alloc, engine, clients, table.beside)
    } else {
        Ok(true)
    };
    stage.open();
    match join(&rt, thread, clients) {
        Ok(_) if !held || stage.is_late() => Ok(false),
        there => both(there, beside),
    }
}

// Waits for a client's thread. Whether all was as it is to be.
fn join<S: Calls + Drop, R: Threads>(
    rt: &R,
    thread: JoinHandle<Ended<S>>,
    clients: &mut Vec<Client<S>>,
) -> Verdict {
    let Ended { client, agrees } = thread.join(rt);
    clients.push(client)?;
    agrees
}

/// Each client follows the plan on a thread of its own, beside its trouble. Whether the components were brought up after
/// each crash.
pub fn play_many<E, S, R>(
    rt: R,
    alloc: Global,
    engine: &mut E,
    clients: &mut Vec<Client<S>>,
    stage: &Arc<Stage>,
    many: &Many,
) -> Verdict
where
    E: Commands,
    S: Calls + Drop + Send + 'static,
    R: Threads + Wait + Copy + Send + 'static,
{
    let mut threads = Vec::with_capacity(alloc, clients.len())?;
    let started = start_all(rt, alloc, clients, stage, many.plan, &mut threads);
    let up = match started {
        Ok(()) => trouble(&rt, engine, stage, many),
        Err(refusal) => Err(refusal),
    };
    both(up, join_all(&rt, threads, clients))
}

fn start_all<S, R>(
    rt: R,
    alloc: Global,
    clients: &mut Vec<Client<S>>,
    stage: &Arc<Stage>,
    plan: Plan,
    threads: &mut Vec<JoinHandle<Ended<S>>>,
) -> Result<(), Refusal>
where
    S: Calls + Drop + Send + 'static,
    R: Threads + Wait + Copy + Send + 'static,
{
    for _ in 0..clients.len() {
        let own = Arc::try_clone(stage)?;
        if let Some(client) = clients.pop() {
            threads.push(start(rt, alloc, client, own, Task::Drawn(plan))?)?;
        }
    }
    Ok(())
}

fn join_all<S: Calls + Drop, R: Threads>(
    rt: &R,
    threads: Vec<JoinHandle<Ended<S>>>,
    clients: &mut Vec<Client<S>>,
) -> Verdict {
    let mut agree = Ok(true);
    for thread in threads {
        agree = both(agree, join(rt, thread, clients));
    }
    agree
}
