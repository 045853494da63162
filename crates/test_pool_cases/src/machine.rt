//! The history of an engine beside the plain slow model of its clients, step by step.
//!
//! The model has one list of operations, with those crossed out that were rolled back, and reads and answers by a plain
//! table of the others. Of a restart the history tells how many records the log had then, and who is lost.
use crate::client::is_failure;
use crate::left::Leaves;
use crate::verdict::Verdict;
use engine_answers::engine_history::Step;
use record_key::{Op, Refusal};
use std::alloc::{AllocError, Global};
use test_model::node_laws::{Event, Out};
use test_model::{Beside, Model, Span};

/// An operation that was logged.
#[derive(Drop)]
struct Act {
    number: u64,
    txn: u64,
    op: Op,
}

/// The model, and what the records of the log are known to be.
#[derive(Drop)]
struct Machine {
    model: Model,
    down: bool,
    /// The greatest number that a record was told to have.
    last: u64,
    begun: Vec<u64>,
    acts: Vec<Act>,
    /// Transactions, each with the number of its Commit record.
    commits: Vec<(u64, u64)>,
    ended: Vec<u64>,
}

/// Whether each step is what the model says; and where the case is whole, the records at the end are its table's.
pub fn agrees<L: Leaves>(alloc: Global, closed: &L, whole: bool) -> Verdict {
    let mut machine = Machine::new(alloc);
    follows(&mut machine, alloc, closed, whole)
}

fn follows<L: Leaves>(machine: &mut Machine, alloc: Global, closed: &L, whole: bool) -> Verdict {
    for place in 0..closed.count() {
        if !machine.follow(alloc, closed, place)? {
            return Ok(false);
        }
    }
    Ok(!whole || machine.has_rows(alloc, closed)?)
}

// The number of the record that an output tells of.
fn number_of(out: &Out) -> Option<u64> {
    match out {
        Out::Begun(number)
        | Out::Logged(number)
        | Out::CommitLogged(number)
        | Out::Compensated(number) => Some(*number),
        _ => None,
    }
}

// Whether the transaction is told to be lost before the next crash.
fn is_lost<L: Leaves>(closed: &L, from: usize, txn: u64) -> bool {
    for place in from..closed.count() {
        if let Some(step) = closed.step_at(place) {
            if let Event::CrashTc { .. } = step.event.lent().get() {
                return false;
            }
            if *step.out.lent().get() == Out::Lost(txn) {
                return true;
            }
        }
    }
    false
}

impl Machine {
    fn new(alloc: Global) -> Machine {
        Machine {
            model: Model::new(alloc),
            down: false,
            last: 0,
            begun: Vec::new(alloc),
            acts: Vec::new(alloc),
            commits: Vec::new(alloc),
            ended: Vec::new(alloc),
        }
    }

    // Takes a step. Whether it is what the model says.
    fn follow<L: Leaves>(&mut self, alloc: Global, closed: &L, place: usize) -> Verdict {
        let Some(step) = closed.step_at(place) else {
            return Ok(false);
        };
        self.turn(alloc, closed, place, step)?;
        let out = step.out.lent();
        if !self.counts(out.get()) || !self.calls(alloc, step)? {
            return Ok(false);
        }
        self.keep(step)?;
        self.tells(alloc, out.get())
    }

    // The transaction component crashes or is opened again.
    fn turn<L: Leaves>(
        &mut self,
        alloc: Global,
        closed: &L,
        place: usize,
        step: &Step,
    ) -> Result<(), Refusal> {
        let event = step.event.lent();
        let out = step.out.lent();
        match (event.get(), out.get()) {
            (Event::CrashTc { .. }, _) => {
                self.down = true;
                self.model.crash();
            }
            (Event::RestartTc, Out::Up(count)) => {
                self.down = false;
                self.forget(*count);
                self.reopen(alloc, closed, place)?;
            }
            _ => {}
        }
        Ok(())
    }

    // Whether a new record has a greater number than those before it.
    fn counts(&mut self, out: &Out) -> bool {
        let Some(number) = number_of(out) else {
            return true;
        };
        let rises = number > self.last;
        self.last = number;
        rises
    }

    // Whether a client's call came to what the model says, to which nothing fails.
    fn calls(&mut self, alloc: Global, step: &Step) -> Verdict {
        let out = step.out.lent();
        if is_failure(out.get()) {
            return Ok(true);
        }
        let next = number_of(out.get()).unwrap_or(0);
        match self.model.call(alloc, step.event.lent().get(), next) {
            Some(Out::Refused(Refusal::NoMemory)) => Err(Refusal::NoMemory),
            Some(wanted) => Ok(wanted == *out.get()),
            None => Ok(true),
        }
    }

    // Whether what is told is what the model says.
    fn tells(&mut self, alloc: Global, out: &Out) -> Verdict {
        match self.model.tell(alloc, out)? {
            Some(wanted) => Ok(wanted == *out),
            None => Ok(true),
        }
    }

    // Notes which record a step has logged, and whose End it has.
    fn keep(&mut self, step: &Step) -> Result<(), AllocError> {
        let event = step.event.lent();
        let out = step.out.lent();
        match (event.get(), out.get()) {
            (_, Out::Begun(txn)) => self.begun.push(*txn)?,
            (Event::Act { txn, op }, Out::Logged(number)) => self.acts.push(Act {
                number: *number,
                txn: *txn,
                op: op.copied(),
            })?,
            (Event::Commit { txn }, Out::CommitLogged(number)) => {
                self.commits.push((*txn, *number))?;
            }
            (_, Out::RolledBack(txn) | Out::Lost(txn)) => self.ended.push(*txn)?,
            _ => {}
        }
        Ok(())
    }

    // The log has just its first records, so many.
    fn forget(&mut self, count: u64) {
        self.last = count;
        self.model.lines.forget(count);
        self.begun.retain(|txn| *txn <= count);
        self.acts.retain(|act| act.number <= count);
        self.commits.retain(|commit| commit.1 <= count);
        self.ended.retain(|txn| *txn <= count);
    }

    // Who is lost: what they did is crossed out, and they hold the keys of their operations.
    fn reopen<L: Leaves>(
        &mut self,
        alloc: Global,
        closed: &L,
        place: usize,
    ) -> Result<(), AllocError> {
        let losers = self.losers(alloc, closed, place)?;
        for txn in &losers {
            self.lose(*txn)?;
        }
        self.ended.retain(|txn| !losers.contains(txn));
        self.model.losers = losers;
        Ok(())
    }

    // Who began and hasn't committed, but for who has ended. Whose End was lost is told so again.
    fn losers<L: Leaves>(
        &self,
        alloc: Global,
        closed: &L,
        place: usize,
    ) -> Result<Vec<u64>, AllocError> {
        let mut losers = Vec::new(alloc);
        for txn in &self.begun {
            let ended = self.ended.contains(txn) && !is_lost(closed, place, *txn);
            if !ended && !self.has_committed(*txn) {
                losers.push(*txn)?;
            }
        }
        Ok(losers)
    }

    fn has_committed(&self, txn: u64) -> bool {
        for commit in &self.commits {
            if commit.0 == txn {
                return true;
            }
        }
        false
    }

    // What the transaction did is crossed out, and it holds the keys again.
    fn lose(&mut self, txn: u64) -> Result<(), AllocError> {
        self.model.lines.cross(txn, 0);
        for act in &self.acts {
            if act.txn == txn {
                let span = Span::Key(act.op.key().copied());
                self.model.holds.add(txn, span, Beside::of(&act.op))?;
            }
        }
        Ok(())
    }

    // Whether the records at the end are the table's, where both components are up.
    fn has_rows<L: Leaves>(&self, alloc: Global, closed: &L) -> Verdict {
        match closed.records() {
            Some(rows) if !self.down => Ok(self.model.table(alloc)?.rows() == rows),
            _ => Ok(true),
        }
    }
}
