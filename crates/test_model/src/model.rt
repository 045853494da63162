//! The plain slow model of a node's clients: what each call answers and what each client is told. It has one list of
//! operations with the undone ones crossed out, and neither messages nor anything to undo. Of a crash of the
//! transaction component it knows what the log that was kept says.
use crate::holds::Holds;
use crate::lines::Lines;
use crate::open::{Doing, Open};
use record_key::{PlainTable, Refusal};
use std::alloc::{AllocError, Global};

/// Whether clients are served.
#[derive(Drop)]
pub enum Service {
    NotConnected,
    Redoing,
    Running,
}

#[derive(Drop)]
pub struct Model {
    pub service: Service,
    /// The open transactions, the earliest first.
    pub open: Vec<Open>,
    /// Those that have committed and aren't told so yet, the earliest first.
    pub committing: Vec<u64>,
    /// Those that were told that they have committed.
    pub committed: Vec<u64>,
    /// Those whom a crash found open and who aren't told so yet, the earliest first.
    pub losers: Vec<u64>,
    pub lines: Lines,
    pub holds: Holds,
    /// How many reads were asked for.
    pub reads: u64,
}

impl Model {
    pub fn new(alloc: Global) -> Model {
        Model {
            service: Service::NotConnected,
            open: Vec::new(alloc),
            committing: Vec::new(alloc),
            committed: Vec::new(alloc),
            losers: Vec::new(alloc),
            lines: Lines::new(alloc),
            holds: Holds::new(alloc),
            reads: 0,
        }
    }

    /// The open transaction of this number.
    pub fn find(&self, txn: u64) -> Option<&Open> {
        for open in &self.open {
            if open.txn == txn {
                return Some(open);
            }
        }
        None
    }

    /// Where it stands among the open ones. Refused NotConnected, Redoing, NotOpen, RollingBack, Unanswered.
    pub fn idle(&self, txn: u64) -> Result<usize, Refusal> {
        self.served()?;
        for (place, open) in self.open.iter().enumerate() {
            if open.txn == txn {
                open.is_idle()?;
                return Ok(place);
            }
        }
        Err(Refusal::NotOpen)
    }

    /// Refused NotConnected, Redoing.
    pub fn served(&self) -> Result<(), Refusal> {
        match self.service {
            Service::NotConnected => Err(Refusal::NotConnected),
            Service::Redoing => Err(Refusal::Redoing),
            Service::Running => Ok(()),
        }
    }

    /// What the open transaction does from now on.
    pub fn goes_on(&mut self, txn: u64, doing: Doing) {
        for open in self.open.iter_mut() {
            if open.txn == txn {
                open.doing = doing;
                return;
            }
        }
    }

    /// The transaction isn't open any more. What it holds stays.
    pub fn close(&mut self, txn: u64) {
        self.open.retain(|open| open.txn != txn);
    }

    /// The number of the open transaction at this place, 0 if there is none.
    pub fn txn_at(&self, place: u64) -> u64 {
        match self.open.get(place as usize) {
            Some(open) => open.txn,
            None => 0,
        }
    }

    /// How many savepoints the transaction has.
    pub fn saves(&self, txn: u64) -> u64 {
        match self.find(txn) {
            Some(open) => open.saves.len() as u64,
            None => 0,
        }
    }

    /// No client waits for anything, and each that was lost is told so.
    pub fn is_at_rest(&self) -> bool {
        for open in &self.open {
            if open.is_idle().is_err() {
                return false;
            }
        }
        self.committing.is_empty() && self.losers.is_empty()
    }

    /// The table of the operations that stand.
    pub fn table(&self, alloc: Global) -> Result<PlainTable, AllocError> {
        self.lines.replay(alloc)
    }
}
