//! A case, and what its clients do.
use crate::threads::{play_many, play_table};
use engine_workers::{Calls, Commands};
use record_key::Refusal;
use std::alloc::{AllocError, Global};
use std::sync::{Arc, Wait};
use std::thread::Threads;
use test_pool_cases::{Client, Hold, Many, Part, Stage, Table, Verdict, both};

/// A case.
#[derive(Clone, Copy)]
pub enum Case<'a> {
    Table(Table<'a>),
    Many(Many),
}

impl Case<'_> {
    pub fn sessions(&self) -> usize {
        match self {
            Case::Table(table) => table.sessions,
            Case::Many(many) => many.sessions,
        }
    }

    pub fn workers(&self) -> usize {
        match self {
            Case::Table(table) => table.workers,
            Case::Many(many) => many.workers,
        }
    }

    pub fn hold(&self) -> Hold {
        match self {
            Case::Table(table) => table.hold,
            Case::Many(_) => Hold::Briefly,
        }
    }
}

/// What the clients leave: their sessions, what each noted, and whether all was as it is to be so far.
#[derive(Drop)]
pub struct Played<S> {
    pub sessions: Vec<S>,
    pub parts: Vec<Part>,
    pub agrees: Verdict,
}

impl<S: Calls + Drop> Played<S> {
    // Takes a client's session and notes.
    fn take(&mut self, client: Client<S>) -> Result<(), AllocError> {
        let number = client.number();
        let (session, notes) = client.parted();
        self.sessions.push(session)?;
        self.parts.push(Part {
            session: number,
            notes,
        })?;
        Ok(())
    }
}

/// A client of each session plays. Where there isn't memory for all of them none does.
pub fn play<E, S, R>(
    rt: R,
    alloc: Global,
    engine: &mut E,
    sessions: Vec<S>,
    stage: &Arc<Stage>,
    case: &Case<'_>,
) -> Played<S>
where
    E: Commands,
    S: Calls + Drop + Send + 'static,
    R: Threads + Wait + Copy + Send + 'static,
{
    let mut clients = Vec::new(alloc);
    let all = add_clients(alloc, &mut clients, sessions);
    let agrees = match case {
        _ if !all => Err(Refusal::NoMemory),
        Case::Table(table) => play_table(rt, alloc, engine, &mut clients, stage, table),
        Case::Many(many) => play_many(rt, alloc, engine, &mut clients, stage, many),
    };
    parted(alloc, clients, agrees)
}

// A client of each session. Whether there is memory for all.
fn add_clients<S: Calls + Drop>(
    alloc: Global,
    clients: &mut Vec<Client<S>>,
    sessions: Vec<S>,
) -> bool {
    let mut all = true;
    for session in sessions {
        let number = clients.len() as u64;
        all = clients.push(Client::new(alloc, number, session)).is_ok() && all;
    }
    all
}

// The clients' sessions and notes.
fn parted<S: Calls + Drop>(alloc: Global, clients: Vec<Client<S>>, agrees: Verdict) -> Played<S> {
    let mut played = Played {
        sessions: Vec::new(alloc),
        parts: Vec::new(alloc),
        agrees,
    };
    for client in clients {
        if played.take(client).is_err() {
            played.agrees = both(played.agrees, Err(Refusal::NoMemory));
        }
    }
    played
}
