//! Calls of a client that are lines of text, each with its answer.
use crate::call::Call;
use crate::client::Client;
use crate::told::put_told;
use crate::verdict::Verdict;
use engine_answers::Calls;
use record_key::Refusal;
use std::alloc::{AllocError, Global};
use std::fmt::Write;
use std::sync::Wait;
use test_lines::{Words, put_refusal};

/// An answer of so many bytes takes no memory.
const ROOM: usize = 1024;

/// Room for answers, asked for once more where memory was refused.
pub fn room(alloc: Global) -> Result<String, AllocError> {
    let mut text = String::new(alloc);
    if text.reserve(ROOM).is_err() {
        text.reserve(ROOM)?;
    }
    Ok(text)
}

// The call that the words say, read once more where memory was refused.
fn read(words: Words<'_>) -> Result<Call, Refusal> {
    match Call::read(&mut { words }) {
        Err(Refusal::NoMemory) => Call::read(&mut { words }),
        call => call,
    }
}

/// A line without what stands around it: the call, and behind ` => ` the answer, which is nothing where that isn't there.
pub fn parted(line: &str) -> (&str, &str) {
    match line.trim().split_once(" => ") {
        Some(parts) => parts,
        None => (line.trim(), ""),
    }
}

/// Makes the calls of one client, up to the first line whose answer differs. Whether none does.
pub fn follow<S: Calls + Drop, R: Wait>(
    rt: &R,
    alloc: Global,
    client: &mut Client<S>,
    lines: &str,
) -> Verdict {
    let mut text = room(alloc)?;
    for line in lines.lines() {
        if !line.trim().is_empty() && !answers(rt, alloc, client, line, &mut text)? {
            return Ok(false);
        }
    }
    Ok(true)
}

// Whether a client's call is answered as the line says.
fn answers<S: Calls + Drop, R: Wait>(
    rt: &R,
    alloc: Global,
    client: &mut Client<S>,
    line: &str,
    text: &mut String,
) -> Verdict {
    let (call, wanted) = parted(line);
    text.clear();
    put_answer(rt, client, Words::new(alloc, call), text)?;
    Ok(text.as_str() == wanted)
}

/// Makes a call, and appends what it is answered.
pub fn put_answer<S: Calls + Drop, R: Wait>(
    rt: &R,
    client: &mut Client<S>,
    words: Words<'_>,
    text: &mut String,
) -> Result<(), Refusal> {
    let mut first = words;
    match first.word() {
        "marks" => return put_marks(client, text),
        "again" => return put_again(rt, client, text),
        _ => client.make(rt, &read(words)?)?,
    }
    match client.heard() {
        Some(out) => put_told(text, out),
        None => Ok(()),
    }
}

// Carries the client's unfinished call on, and appends what that is answered.
fn put_again<S: Calls + Drop, R: Wait>(
    rt: &R,
    client: &mut Client<S>,
    text: &mut String,
) -> Result<(), Refusal> {
    match client.again(rt) {
        Ok(out) => put_told(text, out),
        Err(refusal) => put_refusal(text, refusal),
    }
}

fn put_marks<S: Calls + Drop>(client: &mut Client<S>, text: &mut String) -> Result<(), Refusal> {
    let (stable, low) = client.marks();
    write!(text, "{stable} {low}")?;
    Ok(())
}
