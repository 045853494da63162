//! An engine over a store: two clients, each on a thread of its own, add to one number.
//!
//! Neither waits until the other commits, since increments go beside one another. Which engine it is (`J`) is known to
//! the proof alone: who opens it says `Brand`. It has to be closed: who owns it lends what a function that may stop needs.
ghost use Rattle.engine_monitor.specs.Opened.{IsNamed};

use engine_monitor::{Engine, Naming, Opened, Session};
use file_devices::{FileLog, NoPages, open_store};
use node_store::open;
use node_world::bring_up;
use record_key::{Key, Op, Refusal, Value};
use std::alloc::{AllocError, Global};
use std::fs::{File, Files};
use std::marker::Brand;
use std::sync::Wait;
use std::thread::{JoinHandle, Threads, spawn};

type Client<J> = Session<J, FileLog, NoPages>;

/// A client's session again, or why the client stopped.
type Left<J> = Result<Client<J>, Refusal>;

/// How many apples two clients leave in the store of a folder, which is made where it isn't there. Refused Device where
/// it can't be opened; `StoreError` and `Unopened` say more.
pub fn run<R>(rt: R, alloc: Global, folder: &str) -> Result<u64, Refusal>
where
    R: Files<File = File> + AllocGlobal + Threads + Wait + Copy + Send + 'static,
{
    let Ok(log) = open_store(&rt, folder) else {
        return Err(Refusal::Device);
    };
    let Ok(mut world) = open(alloc, log, FileLog::volatile(alloc), NoPages::new()) else {
        return Err(Refusal::Device);
    };
    // Before the engine is made, which would keep an entry of each round.
    bring_up(&mut world, &mut Vec::new(alloc))?;
    // On a file forces are dear, so commits share them.
    let opened = Opened::over(alloc, world, 2, true)?;
    count::<Brand, R>(rt, opened)
}

/// The same with what an engine is made of.
fn count<J, R>(rt: R, opened: Opened<FileLog, NoPages>) -> Result<u64, Refusal>
where
    J: Naming + Drop + Send + Sync + 'static,
    R: Threads + Wait + Copy + Send + 'static,
    requires named { IsNamed opened J.start J.entries J.marks J.names J.sessions }
{
    let (engine, mut clients) = Engine::<J, FileLog, NoPages>::new(&rt, opened)?;
    let apples = work(rt, &mut clients);
    engine.close(&rt, clients)?;
    apples
}

/// The work of two clients. Sessions are lost where it is refused.
fn work<J, R>(rt: R, clients: &mut Vec<Client<J>>) -> Result<u64, Refusal>
where
    J: Naming + Drop + Send + Sync + 'static,
    R: Threads + Wait + Copy + Send + 'static,
{
    begin_to_count(&rt, first(clients)?)?;
    let (one, two) = (start_next(rt, clients, 10), start_next(rt, clients, 9));
    // Both, before either is looked at: a thread that isn't joined keeps its session.
    let (one, two) = (take_back(&rt, clients, one), take_back(&rt, clients, two));
    one?;
    two?;
    read(&rt, first(clients)?)
}

fn first<J: Naming>(clients: &mut Vec<Client<J>>) -> Result<&mut Client<J>, Refusal> {
    clients.first_mut().ok_or(Refusal::Full)
}

/// The thread of the next client.
fn start_next<J, R>(
    rt: R,
    clients: &mut Vec<Client<J>>,
    apples: u64,
) -> Result<JoinHandle<Left<J>>, Refusal>
where
    J: Naming + Drop + Send + Sync + 'static,
    R: Threads + Wait + Copy + Send + 'static,
{
    match clients.pop() {
        Some(client) => Ok(start(rt, client, apples)?),
        None => Err(Refusal::Full),
    }
}

/// The session of a client whose thread was started, once that has ended.
fn take_back<J, R>(
    rt: &R,
    clients: &mut Vec<Client<J>>,
    started: Result<JoinHandle<Left<J>>, Refusal>,
) -> Result<(), Refusal>
where
    J: Naming + Drop,
    R: Threads,
{
    clients.push(started?.join(rt)?)?;
    Ok(())
}

/// A client's thread.
fn start<J, R>(rt: R, client: Client<J>, apples: u64) -> Result<JoinHandle<Left<J>>, AllocError>
where
    J: Naming + Drop + Send + Sync + 'static,
    R: Threads + Wait + Copy + Send + 'static,
{
    Ok(spawn(&rt, move || trade(&rt, client, apples))?)
}

fn trade<J: Naming, R: Wait>(rt: &R, client: Client<J>, apples: u64) -> Left<J> {
    let mut client = client;
    add_twice(rt, &mut client, &Op::Add(key()?, apples))?;
    Ok(client)
}

/// Two transactions: the first is committed, the second is rolled back.
fn add_twice<J: Naming, R: Wait>(rt: &R, client: &mut Client<J>, op: &Op) -> Result<(), Refusal> {
    client.begin(rt)?;
    client.act(rt, op)?;
    client.commit(rt)?;
    client.begin(rt)?;
    client.act(rt, op)?;
    client.rollback(rt)
}

/// No apples, where none were counted before: an insert is answered Exists where a record is there.
fn begin_to_count<J: Naming, R: Wait>(rt: &R, client: &mut Client<J>) -> Result<(), Refusal> {
    client.begin(rt)?;
    client.act(rt, &Op::Insert(key()?, Value::new(&[0; 8])?))?;
    client.commit(rt)?;
    Ok(())
}

fn read<J: Naming, R: Wait>(rt: &R, client: &mut Client<J>) -> Result<u64, Refusal> {
    client.begin(rt)?;
    let value = client.get(rt, &key()?)?;
    client.commit(rt)?;
    number(value.as_ref()).ok_or(Refusal::BadBytes(0))
}

fn key() -> Result<Key, Refusal> {
    Key::new(b"apples")
}

/// The number that a value of 8 bytes is.
fn number(value: Option<&Value>) -> Option<u64> {
    let bytes = <[u8; 8]>::try_from(value?.as_bytes()).ok()?;
    Some(u64::from_be_bytes(bytes))
}
