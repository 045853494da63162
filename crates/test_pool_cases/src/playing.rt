//! What a client does by a plan.
use crate::call::Call;
use crate::client::Client;
use crate::draws::Draws;
use crate::plan::Plan;
use crate::stage::Stage;
use engine_answers::Calls;
use record_key::{Key, Op, Refusal, Value};
use std::sync::Wait;
use test_model::node_laws::Out;

/// No call is made more often, one after another, than there are crashes, and some more.
const MOST: u64 = 12;

/// The value that a client writes at its own key.
pub const OWN: &[u8; 3] = b"own";

/// What became of a call, or of a transaction.
#[derive(Clone, Copy, PartialEq, Eq)]
enum Heard {
    Done,
    /// Another transaction holds what it asked for.
    Barred,
    /// A component is down, or is being brought up.
    Down,
    /// The transaction is gone.
    Gone,
    /// Memory was refused or a device failed.
    Failed,
}

fn hearing(out: Option<&Out>) -> Heard {
    match out {
        Some(Out::Refused(Refusal::Busy(_))) => Heard::Barred,
        Some(Out::Refused(Refusal::NotOpen)) => Heard::Gone,
        Some(Out::Refused(Refusal::NotConnected | Refusal::Redoing)) => Heard::Down,
        Some(Out::Refused(Refusal::NoMemory | Refusal::Device)) => Heard::Failed,
        _ => Heard::Done,
    }
}

/// Plays all transactions of the plan, and at last one that writes the client's own record and commits.
pub fn play<S: Calls + Drop, R: Wait>(
    rt: &R,
    client: &mut Client<S>,
    stage: &Stage,
    plan: Plan,
) -> Result<(), Refusal> {
    for txn in 0..plan.txns {
        try_txn(rt, client, stage, plan, txn)?;
    }
    write_own(rt, client, stage)
}

// Tries a transaction until nobody bars it, so many times.
fn try_txn<S: Calls + Drop, R: Wait>(
    rt: &R,
    client: &mut Client<S>,
    stage: &Stage,
    plan: Plan,
    txn: u64,
) -> Result<(), Refusal> {
    for _ in 0..plan.tries {
        let mut draws = Draws::new(plan, client.number(), txn);
        if play_txn(rt, client, stage, &mut draws)? != Heard::Barred {
            break;
        }
    }
    Ok(())
}

// A transaction of drawn calls. Where another bars it, it is rolled back.
fn play_txn<S: Calls + Drop, R: Wait>(
    rt: &R,
    client: &mut Client<S>,
    stage: &Stage,
    draws: &mut Draws,
) -> Result<Heard, Refusal> {
    insist(rt, client, stage, &Call::Begin)?;
    for _ in 0..draws.length() {
        let call = draws.call()?;
        match insist(rt, client, stage, &call)? {
            Heard::Done => {}
            Heard::Barred => {
                insist(rt, client, stage, &Call::Rollback)?;
                return Ok(Heard::Barred);
            }
            gone => return Ok(gone),
        }
    }
    let end = draws.end();
    insist(rt, client, stage, &end)
}

// What became of a call that is carried on for as long as it is unfinished. One that failed at its entry is to be made
// again, as where a component was down.
fn carry_on<S: Calls + Drop, R: Wait>(rt: &R, client: &mut Client<S>) -> Heard {
    let mut heard = hearing(client.heard());
    for _ in 0..MOST {
        if heard != Heard::Failed {
            return heard;
        }
        heard = match client.again(rt) {
            Ok(out) => hearing(Some(out)),
            Err(_) => Heard::Down,
        };
    }
    Heard::Down
}

// Makes a call, and again where the components were down.
fn insist<S: Calls + Drop, R: Wait>(
    rt: &R,
    client: &mut Client<S>,
    stage: &Stage,
    call: &Call,
) -> Result<Heard, Refusal> {
    for _ in 0..MOST {
        client.make(rt, call)?;
        stage.count_call();
        let heard = carry_on(rt, client);
        if heard != Heard::Down {
            return Ok(heard);
        }
        stage.wait_up();
    }
    Ok(Heard::Down)
}

/// The key that a client alone writes: below all that are drawn, so that no scan has it.
pub fn own_key(client: u64) -> Result<Key, Refusal> {
    Key::new(&[b'A' + (client % 26) as u8])
}

// Writes the client's own record, until that is committed.
fn write_own<S: Calls + Drop, R: Wait>(
    rt: &R,
    client: &mut Client<S>,
    stage: &Stage,
) -> Result<(), Refusal> {
    let write = Call::Act(Op::Upsert(own_key(client.number())?, Value::new(OWN)?));
    for _ in 0..MOST {
        if play_own(rt, client, stage, &write)? == Heard::Done {
            break;
        }
        stage.wait_up();
    }
    Ok(())
}

fn play_own<S: Calls + Drop, R: Wait>(
    rt: &R,
    client: &mut Client<S>,
    stage: &Stage,
    write: &Call,
) -> Result<Heard, Refusal> {
    insist(rt, client, stage, &Call::Begin)?;
    match insist(rt, client, stage, write)? {
        Heard::Done => insist(rt, client, stage, &Call::Commit),
        _ => {
            insist(rt, client, stage, &Call::Rollback)?;
            Ok(Heard::Barred)
        }
    }
}
