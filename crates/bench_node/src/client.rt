//! One client of a node, and the messages for it.
use node_world::{Event, Out, World, bring_up, settle};
use record_key::{Key, Op, Refusal, Value};
use std::alloc::Global;

/// How many rounds are settled at a time.
const ROUNDS: u64 = 100;

/// A node and the transaction of its one client, who hands on the messages. After each call nothing waits.
#[derive(Drop)]
pub struct Client {
    /// Behind a pointer, since a node is large: each step of a function that has one by value is dear to check.
    world: Box<World>,
    /// What the last event came to.
    out: Out,
    outs: Vec<Out>,
    txn: u64,
    /// Whether operations are sent before they are stable.
    is_early: bool,
}

impl Client {
    /// A node whose session runs.
    pub fn new(alloc: Global) -> Result<Client, Refusal> {
        let mut client = Client {
            world: Box::new(alloc, World::new(alloc)?)?,
            out: Out::Nothing,
            outs: Vec::new(alloc),
            txn: 0,
            is_early: false,
        };
        client.settle()?;
        Ok(client)
    }

    /// From now on operations are sent before they are stable.
    pub fn send_early(&mut self) {
        self.is_early = true;
    }

    pub fn begin(&mut self) -> Result<(), Refusal> {
        self.step(&Event::Begin)?;
        if let Out::Begun(txn) = &self.out {
            self.txn = *txn;
        }
        Ok(())
    }

    /// The transaction of the next calls, which was begun last or is gone on with.
    pub fn txn(&self) -> u64 {
        self.txn
    }

    /// The next calls are of this transaction.
    pub fn go_on(&mut self, txn: u64) {
        self.txn = txn;
    }

    pub fn upsert(&mut self, key: Key, value: Value) -> Result<(), Refusal> {
        let (txn, op) = (self.txn, Op::Upsert(key, value));
        self.step(&Event::Act { txn, op })?;
        self.perform()
    }

    /// Does the operation, unless another transaction is in its way.
    pub fn try_op(&mut self, op: Op) -> Result<bool, Refusal> {
        let txn = self.txn;
        match self.step(&Event::Act { txn, op }) {
            Err(Refusal::Busy(_)) => Ok(false),
            Err(refusal) => Err(refusal),
            Ok(()) => {
                self.perform()?;
                Ok(true)
            }
        }
    }

    /// Whether the key has a value.
    pub fn get(&mut self, key: Key) -> Result<bool, Refusal> {
        let txn = self.txn;
        self.step(&Event::Get { txn, key })?;
        self.exchange(&Event::Send { txn })?;
        match &self.out {
            Out::Row { value, .. } => Ok(value.is_some()),
            _ => Err(Refusal::Unanswered),
        }
    }

    /// How many rows stand from `low` on and below `high`.
    pub fn scan(&mut self, low: Key, high: Key) -> Result<usize, Refusal> {
        let (txn, high) = (self.txn, Some(high));
        self.step(&Event::Scan { txn, low, high })?;
        self.exchange(&Event::Send { txn })?;
        match &self.out {
            Out::Rows { rows, .. } => Ok(rows.len()),
            _ => Err(Refusal::Unanswered),
        }
    }

    pub fn save(&mut self) -> Result<(), Refusal> {
        self.step(&Event::Save { txn: self.txn })
    }

    pub fn go_back(&mut self, savepoint: u64) -> Result<(), Refusal> {
        let txn = self.txn;
        self.step(&Event::GoBack { txn, savepoint })?;
        self.undo()
    }

    /// Rolls back. Then no message is on its way, so all are let go.
    pub fn roll_back(&mut self) -> Result<(), Refusal> {
        self.step(&Event::Rollback { txn: self.txn })?;
        self.undo()?;
        self.world.forget();
        Ok(())
    }

    /// Commits. Then no message is on its way, so all are let go.
    pub fn commit(&mut self) -> Result<(), Refusal> {
        self.step(&Event::Commit { txn: self.txn })?;
        self.step(&Event::Force)?;
        if self.is_early {
            self.step(&Event::Tell)?;
            self.deliver()?;
            self.tend_all()?;
        }
        self.world.forget();
        Ok(())
    }

    /// The rows, in key order.
    pub fn rows(&self) -> Result<Vec<(Key, Value)>, Refusal> {
        self.world.rows()
    }

    /// How many leaves there are.
    pub fn leaves(&self) -> Result<u64, Refusal> {
        Ok(self.world.leaves()? as u64)
    }

    /// A leaf that is large is split, or two that are small are joined. Where operations are sent early that is left to
    /// the commit, since a leaf that was just changed has to wait for it.
    pub fn tend(&mut self) -> Result<(), Refusal> {
        if !self.is_early {
            self.step(&Event::Tend)?;
        }
        Ok(())
    }

    fn tend_all(&mut self) -> Result<(), Refusal> {
        for _ in 0..u64::MAX {
            self.step(&Event::Tend)?;
            if self.out == Out::Nothing {
                break;
            }
        }
        Ok(())
    }

    /// The compensations of a rollback, each answered before the next.
    fn undo(&mut self) -> Result<(), Refusal> {
        let txn = self.txn;
        for _ in 0..u64::MAX {
            self.step(&Event::Undo { txn })?;
            let Out::Compensated(_) = &self.out else {
                break;
            };
            self.perform()?;
        }
        Ok(())
    }

    /// What the transaction has logged last is made stable, unless it is sent before, and sent, performed and answered.
    /// The answer is forced with the next record.
    fn perform(&mut self) -> Result<(), Refusal> {
        if !self.is_early {
            self.step(&Event::Force)?;
        }
        self.exchange(&Event::Send { txn: self.txn })
    }

    /// The data component may forget the answers up to the stable end: nothing is sent again.
    pub fn lower(&mut self) -> Result<(), Refusal> {
        self.step(&Event::Force)?;
        let low = self.world.stable_end()?;
        self.step(&Event::LowWater { low })?;
        self.deliver()
    }

    /// All that is answered is written, and redo begins after it.
    pub fn checkpoint(&mut self) -> Result<(), Refusal> {
        self.lower()?;
        self.exchange(&Event::Checkpoint)?;
        self.settle()
    }

    /// The transaction component is lost, with what isn't stable.
    pub fn crash_transactions(&mut self) -> Result<(), Refusal> {
        self.step(&Event::CrashTc {
            frames: 0,
            bytes: 0,
        })
    }

    /// Both components are lost. All that they have logged is found.
    pub fn crash(&mut self) -> Result<(), Refusal> {
        let (frames, bytes) = (u64::MAX, u64::MAX);
        self.step(&Event::CrashTc { frames, bytes })?;
        self.step(&Event::CrashDc { frames, bytes })
    }

    /// Rounds until nobody is left whom a crash found open, and all is stable; some at a time, so that what they come to
    /// isn't kept for all of them.
    pub fn settle(&mut self) -> Result<(), Refusal> {
        for _ in 0..u64::MAX {
            self.outs.clear();
            if settle(&mut self.world, Some(ROUNDS), &mut self.outs)? {
                break;
            }
        }
        Ok(())
    }

    /// The same after a crash: leaves that redo fills are split, and nothing is kept of what it takes.
    pub fn bring_up(&mut self) -> Result<(), Refusal> {
        self.outs.clear();
        bring_up(&mut self.world, &mut self.outs)
    }

    /// Rounds until clients are served; then a transaction inserts, and is answered.
    pub fn insert_first(&mut self, key: Key, value: Value) -> Result<(), Refusal> {
        for _ in 0..u64::MAX {
            if self.world.can_begin().is_ok() {
                break;
            }
            self.outs.clear();
            settle(&mut self.world, Some(1), &mut self.outs)?;
        }
        self.begin()?;
        let (txn, op) = (self.txn, Op::Insert(key, value));
        self.step(&Event::Act { txn, op })?;
        self.perform()
    }

    /// An event that sends a request, the request's delivery, and that of its reply, which says what came of it.
    fn exchange(&mut self, event: &Event) -> Result<(), Refusal> {
        self.step(event)?;
        self.deliver()?;
        let number = self.world.replies();
        self.step(&Event::Reply { number })
    }

    /// The last request is delivered.
    fn deliver(&mut self) -> Result<(), Refusal> {
        let number = self.world.requests();
        self.step(&Event::Request { number })
    }

    /// One event, which leaves what it came to.
    fn step(&mut self, event: &Event) -> Result<(), Refusal> {
        self.world.step_into(event, &mut self.out);
        match &self.out {
            Out::Refused(refusal) => Err(*refusal),
            _ => Ok(()),
        }
    }
}
