//! One client of an engine.
use crate::crew::{IN_TRANSACTION, Share};
use crate::draws::{KEYS, Values, key_of, mix};
use engine_workers::Calls;
use record_key::{Key, Op, Refusal, Value};
use std::sync::Wait;
use std::time::{Clock, Duration, Instant};

/// A session, and whether all that it was asked was done.
#[derive(Drop)]
pub struct Player<S> {
    session: S,
    done: Result<(), Refusal>,
}

impl<S: Calls + Drop> Player<S> {
    pub fn new(session: S) -> Player<S> {
        Player {
            session,
            done: Ok(()),
        }
    }

    /// Why it stopped, if it did.
    pub fn done(&self) -> Result<(), Refusal> {
        self.done
    }

    /// Does a share of the work, unless it has stopped.
    pub fn play<R: Wait>(&mut self, rt: &R, values: &Values, share: Share) {
        if self.done.is_ok() {
            self.done = play(rt, &mut self.session, values, share);
        }
    }

    /// Commits for so long, and says how often it did.
    pub fn take_turns<R: Clock + Print + Wait>(&mut self, rt: &R, client: u8, lasts: Duration) {
        if self.done.is_ok() {
            self.done = take_turns(rt, &mut self.session, client, lasts);
        }
    }

    /// Counts up to a number, and says each number once it is committed.
    pub fn tell<R: Print + Wait>(&mut self, rt: &R, client: u8, last: u64) {
        if self.done.is_ok() {
            self.done = tell(rt, &mut self.session, client, last);
        }
    }

    /// What stands before the work.
    pub fn load<R: Wait>(&mut self, rt: &R, values: &Values) -> Result<(), Refusal> {
        for place in 0..KEYS / 200 {
            load_hundred(rt, &mut self.session, values, 200 * place)?;
        }
        Ok(())
    }
}

fn load_hundred<S: Calls, R: Wait>(
    rt: &R,
    session: &mut S,
    values: &Values,
    first: u64,
) -> Result<(), Refusal> {
    session.begin(rt)?;
    for place in 0..100 {
        let key = first.wrapping_add(2 * place);
        upsert(rt, session, values, (key, mix(key)))?;
    }
    session.commit(rt)?;
    Ok(())
}

fn play<S: Calls, R: Wait>(
    rt: &R,
    session: &mut S,
    values: &Values,
    share: Share,
) -> Result<(), Refusal> {
    for transaction in 0..share.transactions {
        play_one(rt, session, values, share, transaction)?;
    }
    Ok(())
}

fn play_one<S: Calls, R: Wait>(
    rt: &R,
    session: &mut S,
    values: &Values,
    share: Share,
    transaction: u64,
) -> Result<(), Refusal> {
    session.begin(rt)?;
    let first = transaction.wrapping_mul(IN_TRANSACTION);
    for place in 0..IN_TRANSACTION {
        upsert(rt, session, values, share.upsert(first.wrapping_add(place)))?;
    }
    if share.undoes(transaction) {
        return session.rollback(rt);
    }
    session.commit(rt)?;
    Ok(())
}

fn upsert<S: Calls, R: Wait>(
    rt: &R,
    session: &mut S,
    values: &Values,
    (key, draw): (u64, u64),
) -> Result<(), Refusal> {
    session.act(rt, &Op::Upsert(key_of(key)?, values.of(draw)?))?;
    Ok(())
}

fn take_turns<S: Calls, R: Clock + Print + Wait>(
    rt: &R,
    session: &mut S,
    client: u8,
    lasts: Duration,
) -> Result<(), Refusal> {
    let start = now(rt)?;
    for turns in 0..u64::MAX {
        if now(rt)?.duration_since(start) >= lasts {
            return say(rt, client, turns);
        }
        count(rt, session, client, turns)?;
    }
    Ok(())
}

fn tell<S: Calls, R: Print + Wait>(
    rt: &R,
    session: &mut S,
    client: u8,
    last: u64,
) -> Result<(), Refusal> {
    for number in 1..=last {
        count(rt, session, client, number)?;
        say(rt, client, number)?;
    }
    Ok(())
}

// Commits a number in the client's own record.
fn count<S: Calls, R: Wait>(
    rt: &R,
    session: &mut S,
    client: u8,
    number: u64,
) -> Result<(), Refusal> {
    let value = Value::new(&number.to_be_bytes())?;
    session.begin(rt)?;
    session.act(rt, &Op::Upsert(Key::new(&[b'A' + client % 26])?, value))?;
    session.commit(rt)?;
    Ok(())
}

// (a clock or a reader that isn't there ends the work, as a device does that fails)
fn now<R: Clock>(rt: &R) -> Result<Instant, Refusal> {
    match Instant::now(rt) {
        Ok(now) => Ok(now),
        Err(_) => Err(Refusal::Device),
    }
}

fn say<R: Print>(rt: &R, client: u8, number: u64) -> Result<(), Refusal> {
    match println!(rt; "{client} {number}") {
        Ok(()) => Ok(()),
        Err(_) => Err(Refusal::Device),
    }
}
