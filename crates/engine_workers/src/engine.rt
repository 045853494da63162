//! An engine: the workers over what the threads share.
ghost use Rattle.std.specs.Prelude.{◌≡◌, ◌<◌, [], IfOk, IfErr, OnOk, length};
ghost use Rattle.std.specs.List.{AllByRecursion};
ghost use Rattle.node_world.specs.node_laws.specs.Node.{dc_side};
ghost use Rattle.engine_sessions.specs.engine_history.specs.Commands.{commands};
ghost use Rattle.engine_sessions.specs.engine_history.specs.Ending.{IsRowsOf, LeavesNode};
ghost use Rattle.engine_sessions.specs.engine_history.specs.Witnessed.{WereUp};
ghost use Rattle.engine_sessions.specs.engine_shared.specs.Outages.{IsOutage};
ghost use Rattle.engine_sessions.specs.engine_history.specs.Closing.{IsFresh, IsKeptBy, below, numbers_named};
ghost use Rattle.engine_workers.specs.Opened.{IsNamed};

use crate::assembly::share;
use crate::closed::Closed;
use crate::opened::Opened;
use crate::session_states::{cover, sessions_of, states_of};
use boxcar::Vec as Entries;
use crossbeam_channel::{Receiver, Sender};
use engine_sessions::Session;
use engine_sessions::engine_history::{
    Entry, EventHistory, Gate, LatchedDc, LatchedTc, Naming, Operator,
};
use engine_sessions::engine_shared::{Job, Shared, work};
use node_world::World;
use record_key::{Key, Refusal, Value};
use stable::{CrashLog, CrashPages, MemLog, MemPages};
use std::alloc::{AllocError, Global};
use std::marker::Model;
use std::sync::{Arc, Wait};
use std::thread;
use std::thread::{JoinHandle, Threads};

/// Workers that serve the sessions' requests. What its sessions are called with is given out with it. Contracts see its
/// commands, in order: the crashes that it made, and the failures that it set.
pub struct Engine<J: Naming, G, D: CrashLog = MemLog, P: CrashPages = MemPages> {
    alloc: Global,
    pub(crate) shared: Arc<Shared<J, G, D, P>>,
    work: Sender<Job>,
    workers: Vec<JoinHandle<()>>,
    pub(crate) operator: Operator<J>,
}

impl<J: Naming, G, D: CrashLog, P: CrashPages> Model for Engine<J, G, D, P> {
    ghost use Rattle.std.specs.Prelude.{List};
    ghost use Rattle.std.specs.Coded.{codes};
    ghost use Rattle.node_world.specs.node_laws.specs.declared.event.Event.{Event};

    ghost Value = { List Event };

    ghost coded = { Prim.hlevel codes };

    ghost view = { λ e. e.operator };
}

// A thread that serves requests over what is shared, until nobody sends any more. Refused where no thread can be made.
fn start<J, G, D, P, R>(
    rt: R,
    shared: Arc<Shared<J, G, D, P>>,
    jobs: Receiver<Job>,
) -> Result<JoinHandle<()>, AllocError>
where
    J: Naming + Drop + Send + Sync + 'static,
    G: Gate + Drop + Send + Sync + 'static,
    D: CrashLog + Drop + Send + 'static,
    P: CrashPages + Drop + Send + 'static,
    R: Threads + Wait + Copy + Send + 'static,
{
    Ok(thread::spawn(&rt, move || work(&rt, &*shared, &jobs))?)
}

// Waits for every thread to end.
fn join_all<R: Threads + Wait>(rt: &R, workers: Vec<JoinHandle<()>>) {
    for worker in workers {
        worker.join(rt);
    }
}

// What is shared, once nobody else holds it.
fn alone<T, R: Wait>(rt: &R, shared: Arc<T>) -> T {
    let mut shared = shared;
    for _ in rt.forever() {
        match Arc::try_unwrap(shared) {
            Ok(all) => return all,
            Err(back) => shared = back,
        }
        thread::yield_now();
    }
    unreachable!()
}

// The node that both components leave, behind a pointer, since whoever has it by value is dear to check.
fn node_of_latched<J: Naming, D: CrashLog + Drop, P: CrashPages + Drop>(
    alloc: Global,
    tc: LatchedTc<J, D>,
    dc: LatchedDc<J, D, P>,
    entries: &Entries<Entry>,
    history: &mut EventHistory<J>,
) -> Result<Box<World<D, P>>, AllocError>
    requires entries { entries.now ≡ J.entries }
    ensures same { history.new ≡ history.old }
    ensures leaves { IfOk result (λ node. LeavesNode J.start history.old node.value) }
    ensures stable { IfOk result (λ node. node.value.tc.stable ≡ tc.state.side.tc.stable) }
{
    let transactions = tc.into_side(entries, history);
    let data = dc.into_side(entries, history);
    history.leaves(&transactions, &data);
    Ok(Box::new(alloc, World::of(alloc, transactions, data))?)
}

// Its records, where its data component runs.
fn rows_of<D: CrashLog, P: CrashPages>(
    node: &World<D, P>,
) -> Result<Option<Vec<(Key, Value)>>, Refusal>
    ensures rows { IfOk result (λ rows. IsRowsOf (dc_side node.now) rows) }
    ensures refused { IfErr result (λ refusal. refusal ≡ Refusal.NoMemory) }
{
    match node.rows() {
        Ok(rows) => Ok(Some(rows)),
        Err(Refusal::NotConnected) => Ok(None),
        Err(refusal) => Err(refusal),
    }
}

impl<J, G, D, P> Engine<J, G, D, P>
where
    J: Naming + Drop + Send + Sync + 'static,
    G: Gate + Drop + Send + Sync + 'static,
    D: CrashLog + Drop + Send + 'static,
    P: CrashPages + Drop + Send + 'static,
{
    /// An engine of what was opened, with so many workers, and its sessions. Both components are brought up. Refused
    /// NoMemory, also where a thread can't be made; Device and NumbersSpent, as `restart` is. No thread is left then.
    pub fn new<R: Threads + Wait + Copy + Send + 'static>(
        rt: R,
        opened: Opened<D, P>,
        workers: usize,
        gate: G,
    ) -> Result<(Engine<J, G, D, P>, Vec<Session<J, G, D, P>>), Refusal>
        requires named { IsNamed opened J.start J.entries J.marks J.names J.sessions }
        requires some { 0 < workers }
        ensures refused { IfErr result IsOutage }
        ensures up { OnOk result (WereUp J.start J.entries []) }
        ensures commands { IfOk result (λ made. made.0 ≡ []) }
        ensures fresh { IfOk result (λ made. AllByRecursion (IsFresh J.marks) made.1.items) }
        ensures numbers { IfOk result (λ made. numbers_named made.1.items ≡ below (length opened.sessions)) }
    {
        let alloc = opened.start.alloc;
        let (shared, states, operator) = share(opened, gate)?;
        let (work, jobs) = crossbeam_channel::unbounded(alloc)?;
        let sessions = sessions_of(alloc, states, &shared, &work)?;
        let mut engine = Engine {
            alloc,
            shared,
            work,
            workers: Vec::with_capacity(alloc, workers)?,
            operator,
        };
        match engine.begin(rt, jobs, workers) {
            Ok(()) => Ok((engine, sessions)),
            Err(refusal) => {
                drop(sessions);
                engine.leave(&rt);
                Err(refusal)
            }
        }
    }

    // Starts the workers, and brings both components up.
    fn begin<R: Threads + Wait + Copy + Send + 'static>(
        &mut self,
        rt: R,
        jobs: Receiver<Job>,
        count: usize,
    ) -> Result<(), Refusal>
        ensures same { self.new ≡ self.old }
        ensures refused { IfErr result IsOutage }
        ensures up { OnOk result (WereUp J.start J.entries self.old) }
    {
        let Engine {
            alloc: _,
            shared,
            work: _,
            workers,
            operator,
        } = self;
        for _ in 0..count {
            let worker = start(rt, Arc::try_clone(&*shared)?, jobs.clone()?)?;
            workers.push(worker)?;
        }
        shared.bring_up(&rt, operator)
    }

    // Ends the workers. Every session is gone.
    fn leave<R: Threads + Wait>(self, rt: &R) {
        let Engine {
            alloc: _,
            shared: _,
            work,
            workers,
            operator: _,
        } = self;
        drop(work);
        join_all(rt, workers);
    }

    /// Ends the engine with all of its sessions, and joins every thread: the history, the node, and where its data component
    /// runs its records. What is unfinished of a session's transaction stays so. Refused NoMemory; the engine is gone then
    /// too. Of crashes and of failures that were set the history has just the engine's commands.
    pub fn close<R: Threads + Wait>(
        self,
        rt: &R,
        sessions: Vec<Session<J, G, D, P>>,
    ) -> Result<Closed<J, D, P>, Refusal>
        ensures kept { IfOk result (λ closed.
            AllByRecursion (IsKeptBy closed.steps closed.node.tc.stable) sessions.items) }
        ensures commands { IfOk result (λ closed. commands closed.steps ≡ self) }
        ensures refused { IfErr result (λ refusal. refusal ≡ Refusal.NoMemory) }
    {
        let Engine {
            alloc,
            shared,
            work,
            workers,
            mut operator,
        } = self;
        drop(work);
        let states = states_of(alloc, sessions);
        join_all(rt, workers);
        let states = states?;
        let (published, mut history, mut tc, dc) = alone(rt, shared).into_parts();
        cover(&published, &mut history, &mut tc, states);
        history.review(published.entries(), &mut operator);
        let node = node_of_latched(alloc, tc, dc, published.entries(), &mut history)?;
        let rows = rows_of(&node)?;
        Closed::new(alloc, published, history, rows, node)
    }
}
