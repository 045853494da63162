//! The random choice of a walk's next event.
use dc_core::Device;
use node_laws::{Event, Out};
use node_world::World;
use rand_pcg::Pcg32;
use rand_pcg::rand_core::Rng;
use record_key::{Key, Op, Refusal, Value};
use test_model::Model;

/// About how many transactions are open at a time.
const OPEN: u64 = 8;

/// What a choice goes by.
#[derive(Drop)]
pub struct Chooser {
    random: Pcg32,
    /// The transaction that goes on.
    txn: u64,
    /// What the event came to that the next useful one goes on from.
    last: Out,
}

impl Chooser {
    pub fn new(seed: u64) -> Chooser {
        Chooser {
            random: Pcg32::new(seed, 7),
            txn: 0,
            last: Out::Nothing,
        }
    }

    /// A number below this one, 0 below 0.
    pub fn below(&mut self, bound: u64) -> u64 {
        self.random.next_u64() % bound.max(1)
    }

    /// The number of a message: of any earlier one, or of one of the latest three.
    fn earlier(&mut self, count: u64) -> u64 {
        let span = if self.below(2) == 0 { 3 } else { count };
        let back = self.below(span);
        count.saturating_sub(back)
    }

    /// One of twelve keys.
    fn key(&mut self) -> Result<Key, Refusal> {
        Key::new(&[b'a' + (self.below(12) % 12) as u8])
    }

    /// A value of one digit, or a number.
    fn value(&mut self) -> Result<Value, Refusal> {
        let drawn = self.below(10);
        if self.below(3) == 0 {
            Value::new(&[b'0' + (drawn % 10) as u8])
        } else {
            Value::new(&drawn.to_be_bytes())
        }
    }

    fn op(&mut self) -> Result<Op, Refusal> {
        let key = self.key()?;
        Ok(match self.below(14) {
            0 => Op::Insert(key, self.value()?),
            1 => Op::Update(key, self.value()?),
            2 | 3 => Op::Upsert(key, self.value()?),
            4 => Op::Delete(key),
            5 => Op::Add(key, u64::MAX - self.below(3)),
            _ => Op::Add(key, self.below(1000)),
        })
    }

    /// The rows between two keys, seldom to the end.
    fn scan(&mut self, txn: u64) -> Result<Event, Refusal> {
        let low = self.key()?;
        let high = if self.below(4) == 0 {
            None
        } else {
            Some(self.key()?)
        };
        Ok(Event::Scan { txn, low, high })
    }

    /// A call of one of the open transactions, seldom of another, or a beginning.
    fn call(&mut self, model: &Model) -> Result<Event, Refusal> {
        let place = self.below(OPEN);
        self.txn = model.txn_at(place);
        if self.txn == 0 {
            return Ok(Event::Begin);
        }
        let txn = match self.below(40) {
            0 => self.below(self.txn),
            _ => self.txn,
        };
        self.call_of(txn, model.saves(txn))
    }

    /// A call of a transaction with so many savepoints. Some transactions do little else than set them.
    fn call_of(&mut self, txn: u64, saves: u64) -> Result<Event, Refusal> {
        let kinds = if txn % 4 == 0 { 80 } else { 23 };
        match self.below(kinds) {
            0 => Ok(Event::Rollback { txn }),
            1 | 2 => Ok(Event::Commit { txn }),
            3 | 4 => {
                let savepoint = self.below(saves.saturating_add(2));
                Ok(Event::GoBack { txn, savepoint })
            }
            5..=7 => {
                let key = self.key()?;
                Ok(Event::Get { txn, key })
            }
            8 | 9 => self.scan(txn),
            10..=20 => {
                let op = self.op()?;
                Ok(Event::Act { txn, op })
            }
            _ => Ok(Event::Save { txn }),
        }
    }

    /// Something that happens to the leaves.
    fn tree(&mut self) -> Result<Event, Refusal> {
        let key = self.key()?;
        Ok(match self.below(5) {
            0 | 1 => Event::Split { key },
            2 => Event::Merge { key },
            3 => Event::Tend,
            _ => Event::Flush { key },
        })
    }

    /// A component crashes. Of the records of its log that aren't stable none stays, one or all.
    fn crash(&mut self) -> Event {
        let frames = match self.below(3) {
            0 => 0,
            1 => 1,
            _ => u64::MAX,
        };
        let bytes = self.below(40);
        if self.below(2) == 0 {
            Event::CrashTc { frames, bytes }
        } else {
            Event::CrashDc { frames, bytes }
        }
    }

    /// One of the next calls of a device fails.
    fn failure(&mut self) -> Event {
        let call = self.below(3).saturating_add(1);
        match self.below(3) {
            0 => Event::FailTc { call },
            1 => Event::FailDc {
                device: Device::Log,
                call,
            },
            _ => Event::FailDc {
                device: Device::Pages,
                call,
            },
        }
    }

    /// Whether the transaction component crashes now that a client was answered, perhaps of what isn't stable.
    fn loses(&mut self) -> bool {
        matches!(self.last, Out::Answered { .. }) && self.below(24) == 0
    }

    /// Whether those whom a crash found open are to be undone further.
    fn undoes(&mut self, model: &Model) -> bool {
        !model.losers.is_empty() && !is_amid(&self.last) && self.below(10) == 0
    }

    /// What was logged is sent at once, or once it is stable.
    fn send_or_force(&mut self, txn: u64) -> Event {
        if self.below(2) == 0 {
            Event::Send { txn }
        } else {
            Event::Force
        }
    }

    /// What would go on from the last event.
    pub fn useful(&mut self, model: &Model, world: &World) -> Result<Event, Refusal> {
        if self.undoes(model) {
            return Ok(Event::Recover);
        }
        if self.loses() {
            let bytes = self.below(40);
            return Ok(Event::CrashTc { frames: 0, bytes });
        }
        let txn = self.txn;
        Ok(match &self.last {
            Out::Logged(_) | Out::Compensated(_) => self.send_or_force(txn),
            Out::Stable { .. } | Out::Asked(_) => Event::Send { txn },
            Out::Sent(number) => Event::Request { number: *number },
            Out::Replied(number) => Event::Reply { number: *number },
            Out::RollingBack | Out::Undone(_) => Event::Undo { txn },
            Out::Refused(Refusal::RollingBack) => Event::Undo { txn },
            Out::Connects { request, .. } => Event::Request { number: *request },
            Out::Connected(_) | Out::Refused(Refusal::Redoing) => Event::Recover,
            Out::Refused(Refusal::NotConnected) | Out::Up(_) => connecting(world),
            Out::Refused(Refusal::Unanswered) => Event::Force,
            _ => self.call(model)?,
        })
    }

    /// Any event.
    pub fn any(&mut self, model: &Model, world: &World) -> Result<Event, Refusal> {
        let txn = self.txn;
        Ok(match self.below(240) {
            0..=79 => Event::Request {
                number: self.earlier(world.requests()),
            },
            80..=149 => Event::Reply {
                number: self.earlier(world.replies()),
            },
            150..=159 => Event::Force,
            160..=169 => Event::Send { txn },
            170..=175 => Event::Undo { txn },
            176..=179 => Event::LowWater {
                low: self.earlier(world.stable_end().unwrap_or(0)),
            },
            180..=183 => Event::Recover,
            184 | 185 => Event::Reconnect,
            186 => Event::Begin,
            187 => Event::Send { txn: txn / 2 },
            188..=207 => self.tree()?,
            208..=210 => self.crash(),
            211 => Event::RestartDc,
            212 => Event::RestartTc,
            213..=222 => Event::Checkpoint,
            223 | 224 => Event::Tell,
            225..=230 => self.failure(),
            _ => self.call(model)?,
        })
    }

    /// The next useful event goes on from here.
    pub fn go_on_from(&mut self, out: Out) {
        self.last = out;
    }
}

/// What leads to a session: components that are down are restarted first.
fn connecting(world: &World) -> Event {
    if is_dc_down(world) {
        Event::RestartDc
    } else if is_tc_down(world) {
        Event::RestartTc
    } else {
        Event::Reconnect
    }
}

/// A message was sent and not taken yet, or is to be sent once the log is stable.
fn is_amid(last: &Out) -> bool {
    matches!(
        last,
        Out::Sent(_) | Out::Replied(_) | Out::Connects { .. } | Out::Compensated(_)
    )
}

/// The data component doesn't run.
pub fn is_dc_down(world: &World) -> bool {
    world.leaves().is_err()
}

/// The transaction component doesn't run.
pub fn is_tc_down(world: &World) -> bool {
    world.records().is_err()
}
