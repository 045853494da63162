//! What each call of a client answers.
use crate::holds::Beside;
use crate::model::Model;
use crate::open::{Doing, Open};
use crate::span::Span;
use node_laws::{Event, Out};
use record_key::{Op, Refusal};
use std::alloc::Global;

const MOST_OPEN: usize = 64;

const MOST_SAVES: usize = 16;

impl Model {
    /// A client's call, where the next record has this number: what it answers. None for another event.
    pub fn call(&mut self, alloc: Global, event: &Event, next: u64) -> Option<Out> {
        match event {
            Event::Begin => Some(answer_of(self.begin(alloc, next))),
            Event::Act { txn, op } => Some(answer_of(self.act(*txn, op, next))),
            Event::Get { .. } | Event::Scan { .. } => self.ask(event),
            _ => self.turn(event, next),
        }
    }

    /// A read.
    fn ask(&mut self, event: &Event) -> Option<Out> {
        match event {
            Event::Get { txn, key } => {
                let span = Span::Key(key.copied());
                Some(answer_of(self.read(*txn, span)))
            }
            Event::Scan { txn, low, high } => {
                let span = Span::range(low, high);
                Some(answer_of(self.read(*txn, span)))
            }
            _ => None,
        }
    }

    /// A savepoint, a rollback or a commit.
    fn turn(&mut self, event: &Event, next: u64) -> Option<Out> {
        match event {
            Event::Save { txn } => Some(answer_of(self.save(*txn))),
            Event::GoBack { txn, savepoint } => Some(answer_of(self.go_back(*txn, *savepoint))),
            Event::Rollback { txn } => Some(answer_of(self.roll_back(*txn))),
            Event::Commit { txn } => Some(answer_of(self.commit(*txn, next))),
            _ => None,
        }
    }

    fn begin(&mut self, alloc: Global, next: u64) -> Result<Out, Refusal> {
        self.served()?;
        if self.open.len() >= MOST_OPEN {
            return Err(Refusal::Full);
        }
        self.open.push(Open {
            txn: next,
            doing: Doing::Nothing,
            saves: Vec::new(alloc),
        })?;
        Ok(Out::Begun(next))
    }

    /// A transaction holds the key of each operation, whatever is answered: alone, or with others that add.
    fn act(&mut self, txn: u64, op: &Op, next: u64) -> Result<Out, Refusal> {
        self.idle(txn)?;
        self.holds
            .take(txn, Span::Key(op.key().copied()), Beside::of(op))?;
        self.lines.add(next, txn, op)?;
        self.goes_on(txn, Doing::WaitsForAnswer);
        Ok(Out::Logged(next))
    }

    fn read(&mut self, txn: u64, span: Span) -> Result<Out, Refusal> {
        if span.is_empty() {
            return Err(Refusal::BadRange);
        }
        self.idle(txn)?;
        self.holds.take(txn, span.copied(), Beside::Readers)?;
        self.goes_on(txn, Doing::Reads(span));
        self.reads = self.reads.saturating_add(1);
        Ok(Out::Asked(self.reads))
    }

    fn save(&mut self, txn: u64) -> Result<Out, Refusal> {
        let place = self.idle(txn)?;
        let end = self.lines.len();
        let Some(open) = self.open.get_mut(place) else {
            return Err(Refusal::NotOpen);
        };
        if open.saves.len() >= MOST_SAVES {
            return Err(Refusal::Full);
        }
        open.saves.push(end)?;
        Ok(Out::Saved(open.saves.len() as u64))
    }

    /// What the transaction did since the savepoint is crossed out at once. The savepoint stays.
    fn go_back(&mut self, txn: u64, savepoint: u64) -> Result<Out, Refusal> {
        let place = self.idle(txn)?;
        let Some(open) = self.open.get_mut(place) else {
            return Err(Refusal::NotOpen);
        };
        if savepoint == 0 || savepoint > open.saves.len() as u64 {
            return Err(Refusal::BadSavepoint);
        }
        open.saves.truncate(savepoint as usize);
        open.doing = Doing::GoesBack(savepoint);
        if let Some(end) = open.saves.last() {
            self.lines.cross(txn, *end);
        }
        Ok(Out::RollingBack)
    }

    /// All that the transaction did is crossed out at once.
    fn roll_back(&mut self, txn: u64) -> Result<Out, Refusal> {
        self.idle(txn)?;
        self.lines.cross(txn, 0);
        self.goes_on(txn, Doing::RollsBack);
        Ok(Out::RollingBack)
    }

    /// The transaction isn't open any more. What it holds stays until it is told.
    fn commit(&mut self, txn: u64, next: u64) -> Result<Out, Refusal> {
        self.idle(txn)?;
        self.committing.push(txn)?;
        self.close(txn);
        Ok(Out::CommitLogged(next))
    }
}

fn answer_of(call: Result<Out, Refusal>) -> Out {
    match call {
        Ok(out) => out,
        Err(refusal) => Out::Refused(refusal),
    }
}
