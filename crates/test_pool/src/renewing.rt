//! Engines under one lock, each the renewal of the one before.
ghost use Rattle.engine_monitor.specs.Opened.{IsNamed};

use engine_monitor::{Engine, Naming, Opened, Session};
use node_world::World;
use record_key::Refusal;
use stable::{MemLog, MemPages};
use std::alloc::{AllocError, Global};
use std::marker::Brand;
use std::sync::Wait;
use test_pool_cases::{Client, Verdict, follow_all};

/// What the client of the first engine calls.
const FIRST: &str = "0 begin => begun 2
    0 insert a 1 => inserted
    0 insert b 2 => inserted
    0 commit => committed 7
    0 begin => begun 8
    0 delete a => deleted 1
    0 rollback => rolled back";

/// What the next one calls. It ends amid a transaction.
const SECOND: &str = "0 begin => begun 8
    0 scan a => rows a=1 b=2
    0 insert c 3 => inserted";

/// What is called of the node that this one leaves, once its transaction is cut off.
const THIRD: &str = "crash tc 0
    restart => up
    0 begin => begun 15
    0 scan a => rows a=1 b=2
    0 commit => committed 16";

/// What the client of the last engine calls.
const LAST: &str = "0 begin => begun 8
    0 scan a => rows a=1 b=2
    0 commit => committed 9";

/// Which of the engines it is.
#[derive(Clone, Copy)]
enum Place {
    First,
    Second,
    Third,
    Last,
}

impl Place {
    // What is called of it.
    fn lines(self) -> &'static str {
        match self {
            Place::First => FIRST,
            Place::Second => SECOND,
            Place::Third => THIRD,
            Place::Last => LAST,
        }
    }
}

/// What takes an engine's place.
#[derive(Drop)]
enum Next {
    /// What its node's records were opened as.
    Renewed(Opened),
    /// Its node, since a transaction is open.
    Open(Box<World>),
    /// Nothing, since something differs.
    Nothing,
}

/// Whether an engine's renewal has the records that were committed, and one whose client is amid a transaction isn't
/// renewed, but goes on.
pub fn renews<R: Wait>(rt: &R, alloc: Global) -> Verdict {
    let Next::Renewed(opened) = successor(rt, alloc, Opened::new(alloc, 1)?, Place::First)? else {
        return Ok(false);
    };
    let Next::Open(node) = successor(rt, alloc, opened, Place::Second)? else {
        return Ok(false);
    };
    let opened = Opened::over(alloc, Box::into_inner(node), 1, false)?;
    let Next::Renewed(opened) = successor(rt, alloc, opened, Place::Third)? else {
        return Ok(false);
    };
    let last = successor(rt, alloc, opened, Place::Last)?;
    Ok(matches!(last, Next::Renewed(_)))
}

// What takes the place of an engine that is made of this, once its lines are followed.
fn successor<R: Wait>(
    rt: &R,
    alloc: Global,
    opened: Opened,
    place: Place,
) -> Result<Next, Refusal> {
    successor_of::<Brand, R>(rt, alloc, opened, place)
}

// The same of an engine of this name.
fn successor_of<J, R>(rt: &R, alloc: Global, opened: Opened, place: Place) -> Result<Next, Refusal>
where
    J: Naming + Drop,
    R: Wait,
    requires named { IsNamed opened J.start J.entries J.marks J.names J.sessions }
{
    let (mut engine, sessions) = Engine::<J>::new(rt, opened)?;
    let mut clients = clients_of(alloc, sessions)?;
    if !follow_all(rt, alloc, &mut engine, &mut clients, place.lines())? {
        return Ok(Next::Nothing);
    }
    renewed(rt, alloc, engine, sessions_of(alloc, clients)?)
}

// What takes the engine's place.
fn renewed<J: Naming + Drop, R: Wait>(
    rt: &R,
    alloc: Global,
    engine: Engine<J>,
    sessions: Vec<Session<J>>,
) -> Result<Next, Refusal> {
    let (log, tree) = (MemLog::new(alloc), MemLog::new(alloc));
    let left = match engine.renew(rt, sessions, log, tree, MemPages::new(alloc), false) {
        Ok(opened) => return Ok(Next::Renewed(opened)),
        Err(left) => left,
    };
    match (left.refusal, left.node) {
        (Refusal::NotNow, Some(node)) => Ok(Next::Open(node)),
        (refusal, _) => Err(refusal),
    }
}

// A client of each session.
fn clients_of<J: Naming + Drop>(
    alloc: Global,
    sessions: Vec<Session<J>>,
) -> Result<Vec<Client<Session<J>>>, AllocError> {
    let mut clients = Vec::new(alloc);
    for session in sessions {
        let number = clients.len() as u64;
        clients.push(Client::new(alloc, number, session))?;
    }
    Ok(clients)
}

// The clients' sessions.
fn sessions_of<J: Naming + Drop>(
    alloc: Global,
    clients: Vec<Client<Session<J>>>,
) -> Result<Vec<Session<J>>, AllocError> {
    let mut sessions = Vec::new(alloc);
    for client in clients {
        let (session, _) = client.parted();
        sessions.push(session)?;
    }
    Ok(sessions)
}
