//! The calls of a transaction component that lines spell, those of a session and of what can be read.
use crate::client_calls::client_call;
use crate::numbers::Numbers;
use crate::records::put_record;
use crate::replies::reply_of;
use crate::shown::{put_committed, put_open, put_phase, put_request, put_step, put_told};
use codec::{Reply, Request};
use record_key::Refusal;
use stable::MemLog;
use std::alloc::Global;
use tc_core::{Connecting, Forced, OpenTxn, RecoverStep, Tc, Told};
use test_calls::{Digest, Text, UNREADABLE, Words};

pub type Component = Tc<MemLog>;

pub fn call_of(
    tc: &mut Component,
    alloc: Global,
    numbers: Numbers,
    name: &str,
    words: &mut Words,
    answer: &mut Text,
) -> Result<(), Refusal> {
    match name {
        "recover" => put_step(answer, numbers, &recover(tc)?),
        "force" => {
            let forced = force(tc)?;
            numbers.put_plain(answer, forced.end);
            put_committed(answer, numbers, forced.committed.as_slice());
        }
        "tell" => put_request(answer, numbers, &tell_stable(tc)?),
        "low" => {
            let low = numbers.read(words)?;
            put_request(answer, numbers, &announce(tc, low)?);
        }
        "checkpoint" => put_request(answer, numbers, &checkpoint(tc)?),
        "connected" | "redoended" | "answered" | "row" | "rows" | "checkpointed" => {
            let reply = reply_of(alloc, numbers, name, words)?;
            put_told(answer, numbers, &take(tc, reply)?);
        }
        "begin"
        | "act"
        | "get"
        | "scan"
        | "save"
        | "back"
        | "rollback"
        | "commit"
        | "undo"
        | "send" => client_call(tc, numbers, name, words, answer)?,
        _ => read(tc, numbers, name, words, answer)?,
    }
    Ok(())
}

/// Begins a session.
pub fn reconnect(tc: &mut Component, numbers: Numbers, answer: &mut Text) -> Result<(), Refusal> {
    let begun = begin_session(tc)?;
    put_request(answer, numbers, &begun.request);
    put_committed(answer, numbers, begun.committed.as_slice());
    Ok(())
}

// Each of these drops what its call promises, so that what calls it is checked soon.

fn begin_session(tc: &mut Component) -> Result<Connecting, Refusal> {
    tc.reconnect()
}

fn recover(tc: &mut Component) -> Result<RecoverStep, Refusal> {
    tc.recover_step()
}

fn force(tc: &mut Component) -> Result<Forced, Refusal> {
    tc.force()
}

fn tell_stable(tc: &Component) -> Result<Request, Refusal> {
    tc.tell_stable()
}

fn announce(tc: &mut Component, low: u64) -> Result<Request, Refusal> {
    tc.low_water(low)
}

fn checkpoint(tc: &mut Component) -> Result<Request, Refusal> {
    tc.checkpoint()
}

fn take(tc: &mut Component, reply: Reply) -> Result<Told, Refusal> {
    tc.on_reply(reply)
}

fn read(
    tc: &Component,
    numbers: Numbers,
    name: &str,
    words: &mut Words,
    answer: &mut Text,
) -> Result<(), Refusal> {
    match name {
        "can" => return can(tc, numbers, words),
        "phase" => put_phase(answer, numbers, tc.phase()),
        "session" => numbers.put_plain(answer, tc.session()),
        "records" => numbers.put_plain(answer, tc.records()),
        "stable" => numbers.put_plain(answer, tc.stable_end()),
        "greatest" => numbers.put_plain(answer, tc.greatest_low()),
        "committing" => put_committed(answer, numbers, tc.committing()),
        "record" => put_record(answer, numbers, tc.record(numbers.read(words)?)),
        "unanswered" => put_first(answer, numbers, tc.first_unanswered()),
        "rolling" => put_first(answer, numbers, tc.first_rolling()),
        "txn" => put_open(answer, numbers, tc.open_txn(numbers.read(words)?)),
        _ => return Err(UNREADABLE),
    }
    Ok(())
}

/// Whether a call may be made, memory and the device aside.
fn can(tc: &Component, numbers: Numbers, words: &mut Words) -> Result<(), Refusal> {
    match words.word() {
        "log" => tc.can_log(),
        "begin" => tc.can_begin(),
        "low" => tc.can_announce(numbers.read(words)?),
        _ => tc.can_checkpoint(),
    }
}

fn put_first(answer: &mut Text, numbers: Numbers, txn: Option<&OpenTxn>) {
    match txn {
        Some(txn) => numbers.put_plain(answer, txn.txn),
        None => answer.put("none"),
    }
}

/// Numbers of transactions that scripts have are below this.
const TXNS: u64 = 160;

/// What a refused call leaves.
pub fn add_seen(digest: &mut Digest, tc: &Component) {
    digest.add_number(tc.records());
    digest.add_number(tc.stable_end());
    digest.add_number(tc.session());
    digest.add_number(tc.committing().len() as u64);
    for txn in 0..TXNS {
        if let Some(txn) = tc.open_txn(txn) {
            add_open(digest, &txn);
        }
    }
}

fn add_open(digest: &mut Digest, txn: &OpenTxn) {
    digest.add_number(txn.txn);
    digest.add_number(txn.last);
    digest.add_number(txn.undo);
    digest.add_number(txn.waiting.unwrap_or(0));
    digest.add_number(match &txn.reading {
        Some(read) => read.number,
        None => 0,
    });
    digest.add_number(u64::from(txn.rolling.is_some()));
    digest.add_number(txn.saves.len() as u64);
}
