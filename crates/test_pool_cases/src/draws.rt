//! Calls that are drawn.
use crate::call::Call;
use crate::plan::Plan;
use rand_pcg::Pcg32;
use rand_pcg::rand_core::Rng;
use record_key::{Key, Op, Refusal, Value};

/// What the calls of one transaction are drawn from: the same each time for the same client and transaction.
#[derive(Drop)]
pub struct Draws {
    random: Pcg32,
    keys: u64,
    /// How many savepoints there are, if no call is refused.
    saves: u64,
}

impl Draws {
    pub fn new(plan: Plan, client: u64, txn: u64) -> Draws {
        Draws {
            random: Pcg32::new(plan.seed.wrapping_mul(1000).wrapping_add(txn), client),
            keys: plan.keys,
            saves: 0,
        }
    }

    /// A number below this one, 0 below 0.
    pub fn below(&mut self, bound: u64) -> u64 {
        self.random.next_u64() % bound.max(1)
    }

    // One of the keys, a letter each.
    fn key(&mut self) -> Result<Key, Refusal> {
        let keys = self.keys;
        Key::new(&[b'a' + (self.below(keys) % 26) as u8])
    }

    // A digit, or a number.
    fn value(&mut self) -> Result<Value, Refusal> {
        let drawn = self.below(10);
        if self.below(2) == 0 {
            Value::new(&[b'0' + (drawn % 10) as u8])
        } else {
            Value::new(&drawn.to_be_bytes())
        }
    }

    fn op(&mut self) -> Result<Op, Refusal> {
        let key = self.key()?;
        Ok(match self.below(10) {
            0 | 1 => Op::Insert(key, self.value()?),
            2 => Op::Update(key, self.value()?),
            3 | 4 => Op::Upsert(key, self.value()?),
            5 => Op::Delete(key),
            6 => Op::Add(key, u64::MAX - self.below(3)),
            _ => Op::Add(key, self.below(1000)),
        })
    }

    // The rows between two keys, seldom to the end.
    fn scan(&mut self) -> Result<Call, Refusal> {
        let low = self.key()?;
        if self.below(4) == 0 {
            return Ok(Call::Scan(low, None));
        }
        Ok(Call::Scan(low, Some(self.key()?)))
    }

    // A savepoint is set.
    fn save(&mut self) -> Call {
        self.saves = self.saves.saturating_add(1);
        Call::Save
    }

    // Back to one of the savepoints, seldom to one that isn't there; where there is none yet, one is set.
    fn back(&mut self) -> Call {
        let saves = self.saves;
        if saves == 0 {
            return self.save();
        }
        if self.below(8) == 0 {
            return Call::BackTo(saves.saturating_add(1));
        }
        self.saves = self.below(saves).saturating_add(1);
        Call::BackTo(self.saves)
    }

    /// A call within a transaction.
    pub fn call(&mut self) -> Result<Call, Refusal> {
        match self.below(16) {
            0 | 1 => Ok(Call::Get(self.key()?)),
            2 => self.scan(),
            3..=5 => Ok(self.save()),
            6 | 7 => Ok(self.back()),
            _ => Ok(Call::Act(self.op()?)),
        }
    }

    /// How many calls a transaction has before it ends.
    pub fn length(&mut self) -> u64 {
        self.below(8).saturating_add(1)
    }

    /// How a transaction ends: one of three is rolled back.
    pub fn end(&mut self) -> Call {
        if self.below(3) == 0 {
            Call::Rollback
        } else {
            Call::Commit
        }
    }
}
