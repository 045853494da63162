//! A client: its session, and what it notes of its own calls.
use crate::call::Call;
use crate::verdict::{TRIES, Verdict};
use codec::Rows;
use engine_answers::{Calls, Told};
use record_key::{Answer, Key, Op, Refusal, Value};
use std::alloc::Global;
use std::sync::Wait;
use test_model::node_laws::{Event, Out};

/// A call, and what the client was answered, as the output that says it.
#[derive(Drop)]
pub struct Note {
    pub event: Event,
    pub out: Out,
}

/// A client with its session, from 0.
#[derive(Drop)]
pub struct Client<S> {
    number: u64,
    session: S,
    txn: u64,
    notes: Vec<Note>,
}

impl<S: Calls + Drop> Client<S> {
    /// A client that has made no call.
    pub fn new(alloc: Global, number: u64, session: S) -> Client<S> {
        Client {
            number,
            session,
            txn: 0,
            notes: Vec::new(alloc),
        }
    }

    pub fn number(&self) -> u64 {
        self.number
    }

    /// Its session, and its notes.
    pub fn parted(self) -> (S, Vec<Note>) {
        let Client {
            number: _,
            session,
            txn: _,
            notes,
        } = self;
        (session, notes)
    }

    /// What the latest call was answered, if one was made.
    pub fn heard(&self) -> Option<&Out> {
        Some(&self.notes.last()?.out)
    }

    pub fn marks(&mut self) -> (u64, u64) {
        self.session.marks()
    }

    /// Makes a call, and notes what it is answered. Where that is NoMemory it is carried on, or made again if nothing of
    /// it stands. Refused NoMemory where this comes to nothing.
    pub fn make<R: Wait>(&mut self, rt: &R, call: &Call) -> Result<(), Refusal> {
        for _ in 0..TRIES {
            if self.make_once(rt, call).is_ok() && self.is_made(rt)? {
                return Ok(());
            }
        }
        Err(Refusal::NoMemory)
    }

    // Makes a call. Refused NoMemory where it couldn't be noted; it isn't made then.
    fn make_once<R: Wait>(&mut self, rt: &R, call: &Call) -> Result<(), Refusal> {
        self.notes.reserve(1)?;
        let event = call.event(self.txn);
        let out = match self.answer(rt, call) {
            Ok(out) => out,
            Err(refusal) => Out::Refused(refusal),
        };
        if let Out::Begun(txn) = &out {
            self.txn = *txn;
        }
        self.notes.push(Note { event, out })?;
        Ok(())
    }

    // Whether the latest call has another answer than NoMemory, once it was carried on; it hasn't where nothing of it
    // stands. Refused NoMemory where it stays unfinished.
    fn is_made<R: Wait>(&mut self, rt: &R) -> Verdict {
        let Some(Out::Refused(Refusal::NoMemory)) = self.heard() else {
            return Ok(true);
        };
        match self.again(rt) {
            Ok(Out::Refused(Refusal::NoMemory)) => Err(Refusal::NoMemory),
            Ok(_) => Ok(true),
            Err(_) => Ok(false),
        }
    }

    /// Carries its unfinished call on, for as long as memory is refused, and notes what that is answered. Refused Unsent
    /// where none is unfinished.
    pub fn again<R: Wait>(&mut self, rt: &R) -> Result<&Out, Refusal> {
        let told = self.carried_on(rt);
        if let Err(Refusal::Unsent) = told {
            return Err(Refusal::Unsent);
        }
        let note = self.unfinished().ok_or(Refusal::Unsent)?;
        note.out = match told {
            Ok(told) => out_of(&note.event, told),
            Err(refusal) => Out::Refused(refusal),
        };
        Ok(&note.out)
    }

    // What its unfinished call comes to.
    fn carried_on<R: Wait>(&mut self, rt: &R) -> Result<Told, Refusal> {
        for _ in 0..TRIES {
            match self.session.again(rt) {
                Err(Refusal::NoMemory) => {}
                told => return told,
            }
        }
        Err(Refusal::NoMemory)
    }

    // The latest call that a failure left unfinished.
    fn unfinished(&mut self) -> Option<&mut Note> {
        let place = self.notes.iter().rposition(|note| is_failure(&note.out))?;
        self.notes.get_mut(place)
    }

    fn answer<R: Wait>(&mut self, rt: &R, call: &Call) -> Result<Out, Refusal> {
        match call {
            Call::Begin => Ok(Out::Begun(self.begin(rt)?)),
            Call::Act(op) => Ok(answered(self.txn, self.act(rt, op)?)),
            Call::Get(key) => Ok(row(self.txn, self.get(rt, key)?)),
            Call::Scan(low, high) => Ok(rows(self.txn, self.scan(rt, low, high)?)),
            _ => self.turn(rt, call),
        }
    }

    // A savepoint, a rollback or a commit.
    fn turn<R: Wait>(&mut self, rt: &R, call: &Call) -> Result<Out, Refusal> {
        match call {
            Call::BackTo(savepoint) => self.back_to(rt, *savepoint),
            Call::Rollback => self.roll_back(rt),
            Call::Commit => Ok(Out::CommitLogged(self.commit(rt)?)),
            _ => Ok(Out::Saved(self.save(rt)?)),
        }
    }

    fn begin<R: Wait>(&mut self, rt: &R) -> Result<u64, Refusal> {
        self.session.begin(rt)
    }

    fn act<R: Wait>(&mut self, rt: &R, op: &Op) -> Result<Answer, Refusal> {
        self.session.act(rt, op)
    }

    fn get<R: Wait>(&mut self, rt: &R, key: &Key) -> Result<Option<Value>, Refusal> {
        self.session.get(rt, key)
    }

    fn scan<R: Wait>(&mut self, rt: &R, low: &Key, high: &Option<Key>) -> Result<Rows, Refusal> {
        self.session.scan(rt, low, high)
    }

    fn save<R: Wait>(&mut self, rt: &R) -> Result<u64, Refusal> {
        self.session.save(rt)
    }

    fn back_to<R: Wait>(&mut self, rt: &R, savepoint: u64) -> Result<Out, Refusal> {
        self.session.back_to(rt, savepoint)?;
        Ok(Out::Back {
            txn: self.txn,
            savepoint,
        })
    }

    fn roll_back<R: Wait>(&mut self, rt: &R) -> Result<Out, Refusal> {
        self.session.rollback(rt)?;
        Ok(Out::RolledBack(self.txn))
    }

    fn commit<R: Wait>(&mut self, rt: &R) -> Result<u64, Refusal> {
        self.session.commit(rt)
    }
}

/// Whether memory was refused or a device failed.
pub fn is_failure(out: &Out) -> bool {
    matches!(out, Out::Refused(Refusal::NoMemory | Refusal::Device))
}

// What a call was told, as the output that says it.
fn out_of(event: &Event, told: Told) -> Out {
    let txn = txn_of(event);
    match told {
        Told::Answer(answer) => answered(txn, answer),
        Told::Row(value) => row(txn, value),
        Told::Rows(all) => rows(txn, all),
        Told::Back => Out::Back {
            txn,
            savepoint: savepoint_of(event),
        },
        Told::RolledBack => Out::RolledBack(txn),
        Told::Committed(number) => Out::CommitLogged(number),
    }
}

// The savepoint to which a call goes back, 0 where it doesn't.
fn savepoint_of(event: &Event) -> u64 {
    match event {
        Event::GoBack { savepoint, .. } => *savepoint,
        _ => 0,
    }
}

/// Whose call it is, 0 where it is no transaction's.
pub fn txn_of(event: &Event) -> u64 {
    match event {
        Event::Act { txn, .. }
        | Event::Get { txn, .. }
        | Event::Scan { txn, .. }
        | Event::GoBack { txn, .. }
        | Event::Rollback { txn }
        | Event::Commit { txn } => *txn,
        _ => 0,
    }
}

fn answered(txn: u64, answer: Answer) -> Out {
    Out::Answered { txn, answer }
}

fn row(txn: u64, value: Option<Value>) -> Out {
    Out::Row { txn, value }
}

fn rows(txn: u64, rows: Rows) -> Out {
    Out::Rows { txn, rows }
}
