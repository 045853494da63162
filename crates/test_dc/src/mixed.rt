//! A data component beside the plain table, over operations in an order that mixes them.
use crate::component_calls::{entries, served, split};
use codec::{Reply, Request};
use dc_core::Dc;
use record_key::{Answer, Key, Op, PlainTable, Refusal, Value};
use stable::{MemLog, MemPages};
use std::alloc::Global;
use test_calls::Tally;

/// So many numbered operations of both, each sent twice, compared after each. Leaves are split now and then, and the
/// last operations taken back, and answers don't tell.
pub fn calls(alloc: Global, count: u64, tally: &mut Tally) {
    match connected(alloc, tally) {
        Ok(mut dc) => calls_of(&mut dc, alloc, count, tally),
        Err(_) => tally.count(false),
    }
}

fn connected(alloc: Global, tally: &mut Tally) -> Result<Dc, Refusal> {
    match fresh(alloc) {
        Err(Refusal::NoMemory) => {
            tally.count_memory();
            fresh(alloc)
        }
        made => made,
    }
}

fn fresh(alloc: Global) -> Result<Dc, Refusal> {
    Dc::new(alloc, MemLog::new(alloc), MemPages::new(alloc))
}

fn calls_of(dc: &mut Dc, alloc: Global, count: u64, tally: &mut Tally) {
    let mut table = PlainTable::new(alloc);
    let begun = begin(dc, session_of(0), 0, tally).is_ok();
    tally.count(begun);
    for number in 1..=count {
        let agrees = step(dc, &mut table, session_of(number), number, tally) == Ok(true);
        tally.count(agrees);
        if number % 60 == 59 {
            let agrees = step_back(dc, alloc, number, tally) == Ok(true);
            tally.count(agrees);
        }
    }
    tally.count(entries(dc) == count && dc.leaves() > 1);
}

/// The session that sends this number first.
fn session_of(number: u64) -> u64 {
    4 + number / 60
}

/// What is stable once this number is sent: some of the last ones may be lost yet.
fn stable_at(number: u64) -> u64 {
    number / 25 * 25
}

fn begin(dc: &mut Dc, session: u64, end: u64, tally: &mut Tally) -> Result<(), Refusal> {
    asked_again(dc, &Request::Connect { session, end }, tally)?;
    asked_again(dc, &Request::RedoEnd { session }, tally)?;
    Ok(())
}

/// One operation, and again, with a split between now and then, where none of its leaf may be lost. Whether both answer
/// the same and have the same rows.
fn step(
    dc: &mut Dc,
    table: &mut PlainTable,
    session: u64,
    number: u64,
    tally: &mut Tally,
) -> Result<bool, Refusal> {
    let op = op_of(number)?;
    let expected = applied(table, &op)?;
    let first = answered(dc, session, number, &op, tally)?;
    if number % 5 == 0 {
        split_again(dc, op.key(), tally)?;
    }
    let second = answered(dc, session, number, &op, tally)?;
    Ok(first == Some(expected.copied()) && second == Some(expected) && has_rows_of(dc, table)?)
}

fn applied(table: &mut PlainTable, op: &Op) -> Result<Answer, Refusal> {
    match table.apply(op) {
        Ok(answer) => Ok(answer),
        Err(_) => Ok(table.apply(op)?),
    }
}

/// The next session takes back what was sent above an end, and sends it again. Whether the rows are those of a table
/// that never had it, and after each step of one that has it again.
fn step_back(dc: &mut Dc, alloc: Global, number: u64, tally: &mut Tally) -> Result<bool, Refusal> {
    let end = stable_at(number).saturating_add(2);
    let session = session_of(number.saturating_add(1));
    begin(dc, session, end, tally)?;
    let mut table = PlainTable::new(alloc);
    for older in 1..=end {
        applied(&mut table, &op_of(older)?)?;
    }
    let mut agrees = has_rows_of(dc, &table)?;
    for lost in end.saturating_add(1)..=number {
        agrees = step(dc, &mut table, session, lost, tally)? && agrees;
    }
    Ok(agrees)
}

/// Four operations and an Add on each of a few keys.
fn op_of(n: u64) -> Result<Op, Refusal> {
    let names: [&[u8]; 5] = [b"m", b"ma", b"a", b"z", b"c"];
    let key = Key::new(names[(n % 5) as usize])?;
    let value = if n / 5 % 3 == 0 {
        Value::new(names[(n / 15 % 5) as usize])?
    } else {
        Value::new(&n.to_be_bytes())?
    };
    Ok(match n / 25 % 2 + n % 4 {
        0 => Op::Insert(key, value),
        1 => Op::Update(key, value),
        2 => Op::Upsert(key, value),
        3 => Op::Add(key, n),
        _ => Op::Delete(key),
    })
}

/// What the session is answered, None where the answer is no longer kept.
fn answered(
    dc: &mut Dc,
    session: u64,
    number: u64,
    op: &Op,
    tally: &mut Tally,
) -> Result<Option<Answer>, Refusal> {
    let op = op.copied();
    let request = Request::Perform {
        session,
        number,
        stable: stable_at(number),
        op,
    };
    let Some(reply) = asked_again(dc, &request, tally)? else {
        return Err(Refusal::NotNow);
    };
    match reply {
        Reply::Answered { answer, .. } => Ok(answer),
        _other => Err(Refusal::NotNow),
    }
}

/// Asks, again where memory is refused, which has performed nothing.
fn asked_again(
    dc: &mut Dc,
    request: &Request,
    tally: &mut Tally,
) -> Result<Option<Reply>, Refusal> {
    let before = entries(dc);
    match served(dc, request) {
        Err(Refusal::NoMemory) if entries(dc) == before => {
            tally.count_memory();
            served(dc, request)
        }
        reply => reply,
    }
}

/// Splits the leaf of the key where it has two records.
fn split_again(dc: &mut Dc, key: &Key, tally: &mut Tally) -> Result<(), Refusal> {
    let refused = match split(dc, key) {
        Err(Refusal::NoMemory) => {
            tally.count_memory();
            split(dc, key).err()
        }
        done => done.err(),
    };
    match refused {
        None | Some(Refusal::NotNow) => Ok(()),
        Some(refusal) => Err(refusal),
    }
}

/// Whether the component has the table's rows.
fn has_rows_of(dc: &Dc, table: &PlainTable) -> Result<bool, Refusal> {
    let rows = match dc.rows() {
        Ok(rows) => rows,
        Err(_) => dc.rows()?,
    };
    Ok(rows.as_slice() == table.rows())
}
