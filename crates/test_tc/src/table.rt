//! The calls that lines spell, on a table of locks.
use crate::locks::Locks;
use crate::spans::{mode_of, span_of};
use record_key::Refusal;
use std::alloc::Global;
use tc_locks::{Mode, Span};
use test_calls::{Digest, Fault, Subject, Text, UNREADABLE, Words};

#[derive(Drop)]
pub struct Table<L> {
    alloc: Global,
    locks: L,
}

impl<L: Locks + Drop> Table<L> {
    pub fn new(alloc: Global) -> Table<L> {
        Table {
            alloc,
            locks: L::made(alloc),
        }
    }

    /// `rebuild TXN KEY MODE ..`, as many as there are.
    fn rebuild(&mut self, words: &mut Words) -> Result<(), Refusal> {
        let mut listed = Vec::new(self.alloc);
        for _ in 0..16 {
            if words.are_read() {
                break;
            }
            listed.push((words.number()?, words.key()?, mode_of(words)?))?;
        }
        self.locks.rebuild(listed.as_slice())
    }

    /// `pair MODE SPAN MODE SPAN`: what transaction 2 is told of the second where transaction 1 holds the first in a new
    /// table, which has to be what it is told of the first where that one holds the second.
    fn pair(&mut self, words: &mut Words) -> Result<(), Refusal> {
        let one = (mode_of(words)?, span_of(words)?);
        let other = (mode_of(words)?, span_of(words)?);
        let told = self.told((one.0, &one.1), (other.0, &other.1))?;
        let back = self.told((other.0, &other.1), (one.0, &one.1))?;
        if told == back {
            told
        } else {
            Err(Refusal::NotNow)
        }
    }

    fn told(
        &mut self,
        held: (Mode, &Span),
        wanted: (Mode, &Span),
    ) -> Result<Result<(), Refusal>, Refusal> {
        self.locks = L::made(self.alloc);
        self.locks.take(1, held.0, held.1)?;
        match self.locks.take(2, wanted.0, wanted.1) {
            Err(Refusal::NoMemory) => Err(Refusal::NoMemory),
            told => Ok(told),
        }
    }
}

/// Transactions that scripts name are below this.
const TXNS: u64 = 16;

impl<L: Locks + Drop> Subject for Table<L> {
    fn renew(&mut self, _fault: Fault) -> Result<(), Refusal> {
        self.locks = L::made(self.alloc);
        Ok(())
    }

    fn call(&mut self, words: &mut Words, answer: &mut Text) -> Result<(), Refusal> {
        match words.word() {
            "pair" => self.pair(words),
            "rebuild" => self.rebuild(words),
            "take" => {
                let txn = words.number()?;
                self.locks.take(txn, mode_of(words)?, &span_of(words)?)
            }
            "untake" => {
                answer.put(yes(self.locks.untake(words.number()?)));
                Ok(())
            }
            "holds" => {
                answer.put(yes(self.locks.holds(words.number()?)));
                Ok(())
            }
            "release" => {
                self.locks.release(words.number()?);
                Ok(())
            }
            _ => Err(UNREADABLE),
        }
    }

    fn digest(&self) -> u64 {
        let mut digest = Digest::new();
        for txn in 0..TXNS {
            digest.add_number(u64::from(self.locks.holds(txn)));
        }
        digest.number()
    }

    fn may_leave(&self, name: &str, _refusal: Refusal) -> bool {
        name == "pair"
    }
}

fn yes(holds: bool) -> &'static str {
    if holds { "yes" } else { "no" }
}
