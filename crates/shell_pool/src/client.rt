//! What a client does on its thread.
ghost use Rattle.std.specs.Prelude.{◌≡◌, false, IfErr};
ghost use Rattle.shell_pool.specs.Words.{passes};

use crate::words::{client_key, round_key, round_value};
use engine_workers::Calls;
use record_key::{Op, Refusal, Value};
use std::sync::Wait;
use std::thread;

/// A client plays its rounds, and then reads its key: gives the value there. A call that is refused Redoing or
/// NotConnected is made again; any other refusal ends it.
pub fn play<S: Calls, R: Wait>(
    rt: &R,
    session: &mut S,
    client: u64,
    rounds: u64,
) -> Result<Option<Value>, Refusal> {
    for round in 1..=rounds {
        play_round(rt, session, client, round)?;
    }
    read(rt, session, client)
}

// A transaction with two writes, rolled back in each second round.
fn play_round<S: Calls, R: Wait>(
    rt: &R,
    session: &mut S,
    client: u64,
    round: u64,
) -> Result<(), Refusal> {
    insist(rt, || session.begin(rt))?;
    act(
        rt,
        session,
        &Op::Upsert(client_key(client)?, round_value(round)?),
    )?;
    act(
        rt,
        session,
        &Op::Insert(round_key(client, round)?, round_value(round)?),
    )?;
    if round % 2 == 0 {
        insist(rt, || session.rollback(rt))
    } else {
        insist(rt, || session.commit(rt))?;
        Ok(())
    }
}

fn act<S: Calls, R: Wait>(rt: &R, session: &mut S, op: &Op) -> Result<(), Refusal> {
    insist(rt, || session.act(rt, op))?;
    Ok(())
}

// A transaction that reads the client's key.
fn read<S: Calls, R: Wait>(rt: &R, session: &mut S, client: u64) -> Result<Option<Value>, Refusal> {
    let key = client_key(client)?;
    insist(rt, || session.begin(rt))?;
    let value = insist(rt, || session.get(rt, &key))?;
    insist(rt, || session.commit(rt))?;
    Ok(value)
}

// Makes a call, and again while the components are being brought up.
fn insist<T, R: Wait, F: FnMut() -> Result<T, Refusal>>(rt: &R, call: F) -> Result<T, Refusal>
    requires { F.IsAlwaysCallable call }
    ensures { IfErr result (λ refusal. passes refusal ≡ false) }
{
    let mut call = call;
    for _ in rt.forever() {
        match call() {
            Err(Refusal::Redoing | Refusal::NotConnected) => thread::yield_now(),
            came => return came,
        }
    }
    unreachable!()
}
