//! What several clients of one engine do.
ghost use Rattle.std.specs.Prelude.{◌<◌};

use crate::draws::{drawn, seed};
use std::time::Duration;

/// How many clients there are. Each has keys of its own.
pub const CLIENTS: u8 = 4;

/// How many keys a client has.
const KEYS_EACH: u64 = 5_000;

/// How many upserts a transaction has.
pub const IN_TRANSACTION: u64 = 10;

/// How the clients work. All that they do are upserts.
#[derive(Clone, Copy, PartialEq, Eq)]
enum Manner {
    /// Each client commits, on a thread of its own.
    Commits,
    /// The same, where each rolls back every second transaction.
    HalfUndone,
    /// The work of `Commits` by one session.
    Alone,
    /// Eight clients commit for so many milliseconds as there are to be operations, and say how often they did.
    Turns,
    /// Each client counts in a record of its own up to so many, and says each number once it is committed.
    Tells,
}

/// Clients that have so many operations together.
#[derive(Clone, Copy)]
pub struct Crew {
    manner: Manner,
    operations: u64,
    is_monitored: bool,
}

/// A client's share of the work.
#[derive(Clone, Copy)]
pub struct Share {
    seed: u64,
    first_key: u64,
    is_half_undone: bool,
    /// How many transactions it has.
    pub transactions: u64,
}

impl Crew {
    /// The work of this name. Those of one letter are named as other programs name theirs; what is called `monitor-` and so
    /// is done by the engine under one lock.
    pub fn named(name: &str, operations: u64) -> Option<Crew> {
        let (is_monitored, name) = match name.as_bytes() {
            [b'm', b'o', b'n', b'i', b't', b'o', b'r', b'-', name @ ..] => (true, name),
            name => (false, name),
        };
        let manner = match name {
            b"g" => Manner::Commits,
            b"h" => Manner::HalfUndone,
            b"one" => Manner::Alone,
            b"turns" => Manner::Turns,
            b"tells" => Manner::Tells,
            _ => return None,
        };
        Some(Crew {
            manner,
            operations,
            is_monitored,
        })
    }

    /// Whether the engine under one lock does it.
    pub fn is_monitored(self) -> bool {
        self.is_monitored
    }

    /// How many sessions there are.
    pub fn sessions(self) -> usize
        ensures some { 0 < result }
    {
        match self.manner {
            Manner::Turns => 8,
            _ => usize::from(CLIENTS),
        }
    }

    /// Whether records stand there before the work.
    pub fn is_loaded(self) -> bool {
        self.manner != Manner::Tells
    }

    /// Whether one session does it all.
    pub fn is_alone(self) -> bool {
        self.manner == Manner::Alone
    }

    /// For how long each client commits, where it is time that ends the work.
    pub fn lasts(self) -> Option<Duration> {
        match self.manner {
            Manner::Turns => Some(Duration::from_millis(self.operations)),
            _ => None,
        }
    }

    /// Up to which number each client counts, where that is the work.
    pub fn counts(self) -> Option<u64> {
        match self.manner {
            Manner::Tells => Some(self.operations),
            _ => None,
        }
    }

    /// The share of a client.
    pub fn share(self, client: u8) -> Share {
        let is_half_undone = self.manner == Manner::HalfUndone;
        let letter = if is_half_undone { b'h' } else { b'g' };
        Share {
            seed: seed(letter, client),
            first_key: u64::from(client) * KEYS_EACH,
            is_half_undone,
            transactions: self.operations / u64::from(CLIENTS) / IN_TRANSACTION,
        }
    }
}

impl Share {
    /// Whether this transaction is rolled back.
    pub fn undoes(&self, transaction: u64) -> bool {
        self.is_half_undone && transaction % 2 == 1
    }

    /// The key's number and the value's draw of the upsert at a place.
    pub fn upsert(&self, place: u64) -> (u64, u64) {
        let drawn = drawn(self.seed, place);
        (self.first_key.wrapping_add(drawn % KEYS_EACH), drawn >> 8)
    }
}
