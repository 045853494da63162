//! The work of each workload.
use crate::client::Client;
use crate::hot;
use crate::workload::Workload;
use bench_crew::{KEYS, Values, digest, draw, key_of, mix};
use record_key::{Key, Refusal, Value};
use std::alloc::Global;

/// How many upserts the transaction has that a crash finds open.
const LOSER: u64 = 1_000;

/// After so many operations at least a low number is announced, and after as many as there are leaves where these are
/// more: it raises every leaf.
const LOWERED: u64 = 4_000;

/// A client with its draws.
#[derive(Drop)]
pub struct Work {
    alloc: Global,
    client: Client,
    values: Values,
    workload: Workload,
    operations: u64,
    waits: u64,
    // The operation after which a low number is handed over next.
    next: u64,
}

impl Work {
    pub fn new(alloc: Global, workload: Workload, operations: u64) -> Result<Work, Refusal> {
        // The client comes last: a node that is dropped where something else fails is dear to prove.
        let values = Values::new(alloc)?;
        Ok(Work {
            alloc,
            client: Client::new(alloc)?,
            values,
            workload,
            operations,
            waits: 0,
            next: LOWERED,
        })
    }

    /// What stands before the work.
    pub fn load(&mut self) -> Result<(), Refusal> {
        if self.workload.has_rows() {
            self.load_even()?;
        }
        match self.workload {
            Workload::Reopening => self.load_open(),
            Workload::CleanReopening => self.transactions(),
            Workload::CheckedReopening => {
                self.load_open()?;
                self.client.checkpoint()
            }
            Workload::FirstInsert | Workload::Undo => self.load_loser(self.operations),
            Workload::HotAdds | Workload::HotUpdates => hot::load(&mut self.client),
            _ => Ok(()),
        }
    }

    fn load_even(&mut self) -> Result<(), Refusal> {
        for place in 0..KEYS / 200 {
            self.client.begin()?;
            for key in 0..100 {
                let number = 200 * place + 2 * key;
                self.upsert(number, mix(number))?;
            }
            self.client.commit()?;
        }
        self.client.lower()
    }

    /// Committed upserts, and an open transaction.
    fn load_open(&mut self) -> Result<(), Refusal> {
        self.transactions()?;
        self.client.begin()?;
        for place in 0..LOSER {
            let key = key_of(2 * place)?;
            self.client.upsert(key, Value::new(b"loser")?)?;
        }
        Ok(())
    }

    fn load_loser(&mut self, lost: u64) -> Result<(), Refusal> {
        self.client.begin()?;
        for place in 0..lost {
            self.upsert(mix(place), mix(place))?;
        }
        self.client.checkpoint()
    }

    /// Does the work.
    pub fn go(&mut self) -> Result<(), Refusal> {
        match self.workload {
            Workload::Base => Ok(()),
            Workload::EarlyCommits => {
                self.client.send_early();
                self.transactions()
            }
            Workload::Reopening | Workload::CleanReopening | Workload::CheckedReopening => {
                self.reopen()
            }
            Workload::FirstInsert => {
                self.client.crash_transactions()?;
                let key = Key::new(b"a")?;
                self.client.insert_first(key, Value::new(b"1")?)
            }
            Workload::Undo => {
                self.client.crash_transactions()?;
                self.client.bring_up()
            }
            Workload::Scans => self.scans(),
            Workload::HotAdds | Workload::HotUpdates => self.change_one(),
            _ => self.transactions(),
        }
    }

    fn change_one(&mut self) -> Result<(), Refusal> {
        let adds = self.workload == Workload::HotAdds;
        self.waits = hot::change(&mut self.client, self.alloc, self.operations, adds)?;
        Ok(())
    }

    /// How often a client had to wait for another.
    pub fn waits(&self) -> u64 {
        self.waits
    }

    /// Until a row is read that the open transaction had changed.
    fn reopen(&mut self) -> Result<(), Refusal> {
        self.client.crash()?;
        self.client.bring_up()?;
        self.client.begin()?;
        self.read(0)?;
        self.client.commit()
    }

    fn transactions(&mut self) -> Result<(), Refusal> {
        for place in 0..self.operations {
            let at = self.workload.place_in_transaction(place);
            if at == 0 {
                self.client.begin()?;
            }
            self.one(place, at)?;
            if self.workload.place_in_transaction(place + 1) == 0 {
                self.end(place + 1)?;
            }
        }
        Ok(())
    }

    /// Ends the transaction; so many operations are done.
    fn end(&mut self, count: u64) -> Result<(), Refusal> {
        match self.workload {
            Workload::Rollbacks => self.client.roll_back()?,
            _ => self.client.commit()?,
        }
        if count >= self.next && self.workload.writes() {
            self.client.lower()?;
            self.next = count.saturating_add(LOWERED.max(self.client.leaves()?));
        }
        Ok(())
    }

    /// The operation at a place of the whole work, and at one of its transaction.
    fn one(&mut self, place: u64, at: u64) -> Result<(), Refusal> {
        let drawn = draw(self.workload.letter(), place);
        match self.workload {
            Workload::Savepoints => {
                self.save_or_go_back(at)?;
                self.upsert(drawn % (KEYS / 2) * 2, drawn >> 8)
            }
            Workload::ManySavepoints => self.saved_upsert(at, drawn),
            Workload::Reads => self.read(drawn % KEYS),
            Workload::Rising => self.upsert(place, mix(place)),
            Workload::Scattered => self.upsert(mix(place), mix(place)),
            _ => self.upsert(drawn % KEYS, drawn >> 8),
        }
    }

    fn save_or_go_back(&mut self, at: u64) -> Result<(), Refusal> {
        match at {
            0 => self.client.save(),
            5 => self.client.go_back(1),
            _ => Ok(()),
        }
    }

    fn saved_upsert(&mut self, at: u64, drawn: u64) -> Result<(), Refusal> {
        if at % 10 == 0 {
            self.client.save()?;
        }
        self.upsert(drawn % (KEYS / 2) * 2, drawn >> 8)?;
        if at % 20 == 19 {
            self.client.go_back(at / 10 + 1)?;
        }
        Ok(())
    }

    fn upsert(&mut self, key: u64, value: u64) -> Result<(), Refusal> {
        self.client.upsert(key_of(key)?, self.values.of(value)?)?;
        self.client.tend()
    }

    /// Just the even keys have values. Refused BadBytes where the node says otherwise.
    fn read(&mut self, key: u64) -> Result<(), Refusal> {
        if self.client.get(key_of(key)?)? == (key % 2 == 0) {
            Ok(())
        } else {
            Err(Refusal::BadBytes(key))
        }
    }

    fn scans(&mut self) -> Result<(), Refusal> {
        for place in 0..self.operations {
            if place % 100 == 0 {
                self.client.begin()?;
                self.scan(draw(self.workload.letter(), place))?;
                self.client.commit()?;
            }
        }
        Ok(())
    }

    /// A hundred rows from an even key on. Refused BadBytes where the node gives others.
    fn scan(&mut self, drawn: u64) -> Result<(), Refusal> {
        let low = drawn % (KEYS / 2 - 100) * 2;
        if self.client.scan(key_of(low)?, key_of(low + 200)?)? == 100 {
            Ok(())
        } else {
            Err(Refusal::BadBytes(low))
        }
    }

    /// The digest of the rows.
    pub fn digest(&self) -> Result<u64, Refusal> {
        Ok(digest(&self.client.rows()?))
    }
}
