//! Several clients that change one record at a time.
use crate::client::Client;
use record_key::{Key, Op, Refusal, Value};
use std::alloc::Global;

/// How many clients there are.
const CLIENTS: u64 = 8;

/// How many operations a transaction has.
const TURNS: u64 = 10;

/// A client's transaction, and how many of its operations are left.
#[derive(Drop)]
struct Turn {
    txn: u64,
    left: u64,
}

/// A record that holds a number.
pub fn load(client: &mut Client) -> Result<(), Refusal> {
    client.begin()?;
    client.upsert(counter()?, number(0)?)?;
    client.commit()
}

fn counter() -> Result<Key, Refusal> {
    Key::new(b"counter")
}

fn number(value: u64) -> Result<Value, Refusal> {
    Value::new(&value.to_be_bytes())
}

/// The clients change the record in turn, ten times each before they commit, until they have done so many operations
/// together. One that another keeps from the record waits for its next turn. Gives how often one had to.
pub fn change(
    client: &mut Client,
    alloc: Global,
    operations: u64,
    adds: bool,
) -> Result<u64, Refusal> {
    let mut waits = 0u64;
    let mut turns = Vec::new(alloc);
    for _ in 0..operations / (CLIENTS * TURNS) {
        begin_all(client, &mut turns)?;
        for _ in 0..u64::MAX {
            if turns.is_empty() {
                break;
            }
            waits = waits.saturating_add(all_in_turn(client, &mut turns, adds)?);
            turns.retain(|turn| turn.left > 0);
        }
    }
    Ok(waits)
}

fn begin_all(client: &mut Client, turns: &mut Vec<Turn>) -> Result<(), Refusal> {
    for _ in 0..CLIENTS {
        client.begin()?;
        turns.push(Turn {
            txn: client.txn(),
            left: TURNS,
        })?;
    }
    Ok(())
}

/// One turn of each client; whoever is done commits. Gives how many wait.
fn all_in_turn(client: &mut Client, turns: &mut [Turn], adds: bool) -> Result<u64, Refusal> {
    let mut waits = 0u64;
    for turn in turns {
        client.go_on(turn.txn);
        if client.try_op(one(adds)?)? {
            turn.left = turn.left.saturating_sub(1);
        } else {
            waits = waits.saturating_add(1);
        }
        if turn.left == 0 {
            client.commit()?;
        }
    }
    Ok(waits)
}

fn one(adds: bool) -> Result<Op, Refusal> {
    Ok(if adds {
        Op::Add(counter()?, 1)
    } else {
        Op::Update(counter()?, number(1)?)
    })
}
