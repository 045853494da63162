//! Lines of text that say what is done to an engine or by one of its clients, each with its answer.
use crate::client::Client;
use crate::crashes::bring_up;
use crate::lines::{parted, put_answer, room};
use crate::verdict::Verdict;
use engine_answers::{Calls, Commands};
use record_key::Refusal;
use std::alloc::Global;
use std::sync::Wait;
use test_lines::{Words, put_refusal};

/// Does what each line says, of a client by its number or of the engine, up to the first whose answer differs. Whether
/// none does.
pub fn follow_all<E, S, R>(
    rt: &R,
    alloc: Global,
    engine: &mut E,
    clients: &mut Vec<Client<S>>,
    lines: &str,
) -> Verdict
where
    E: Commands,
    S: Calls + Drop,
    R: Wait,
{
    let mut text = room(alloc)?;
    for line in lines.lines() {
        if !line.trim().is_empty() && !happens(rt, alloc, engine, clients, line, &mut text)? {
            return Ok(false);
        }
    }
    Ok(true)
}

// Whether what the line says is answered so.
fn happens<E, S, R>(
    rt: &R,
    alloc: Global,
    engine: &mut E,
    clients: &mut Vec<Client<S>>,
    line: &str,
    text: &mut String,
) -> Verdict
where
    E: Commands,
    S: Calls + Drop,
    R: Wait,
{
    let (call, wanted) = parted(line);
    text.clear();
    let mut words = Words::new(alloc, call);
    match words.word() {
        "crash" => crash(rt, engine, &mut words)?,
        "fail" => fail(rt, engine, &mut words)?,
        "restart" => put_restart(rt, engine, text)?,
        number => return answers(rt, clients, number, words, wanted, text),
    }
    Ok(text.as_str() == wanted)
}

// Whether the client of this number, who isn't on a thread, is answered so.
fn answers<S: Calls + Drop, R: Wait>(
    rt: &R,
    clients: &mut Vec<Client<S>>,
    number: &str,
    words: Words<'_>,
    wanted: &str,
    text: &mut String,
) -> Verdict {
    let Some(place) = place_of(clients, number) else {
        return Ok(false);
    };
    if let Some(client) = clients.get_mut(place) {
        put_answer(rt, client, words, text)?;
    }
    Ok(text.as_str() == wanted)
}

// Where the client of this number stands, if it isn't on a thread.
fn place_of<S: Calls + Drop>(clients: &Vec<Client<S>>, number: &str) -> Option<usize> {
    let number = number.parse::<u64>().ok()?;
    for (place, client) in clients.iter().enumerate() {
        if client.number() == number {
            return Some(place);
        }
    }
    None
}

// One component crashes.
fn crash<E: Commands, R: Wait>(
    rt: &R,
    engine: &mut E,
    words: &mut Words<'_>,
) -> Result<(), Refusal> {
    if words.word() == "dc" {
        engine.crash_dc(rt);
    } else {
        engine.crash_tc(rt, words.number()?);
    }
    Ok(())
}

// A call of the log's device is to fail.
fn fail<E: Commands, R: Wait>(
    rt: &R,
    engine: &mut E,
    words: &mut Words<'_>,
) -> Result<(), Refusal> {
    engine.fail_tc(rt, words.number()?);
    Ok(())
}

// Brings the components up, and appends whether they are. Refused NoMemory where that was: records have other numbers
// than the lines say once it is tried again.
fn put_restart<E: Commands, R: Wait>(
    rt: &R,
    engine: &mut E,
    text: &mut String,
) -> Result<(), Refusal> {
    match bring_up(rt, engine) {
        Ok(0) => Ok(text.push_str("up")?),
        Ok(_) | Err(Refusal::NoMemory) => Err(Refusal::NoMemory),
        Err(refusal) => put_refusal(text, refusal),
    }
}
