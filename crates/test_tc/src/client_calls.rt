//! The calls of clients that lines spell.
use crate::calls::Component;
use crate::numbers::Numbers;
use crate::shown::{put_request, put_undone};
use codec::Request;
use record_key::{Key, Op, Refusal};
use tc_core::UndoStep;
use test_calls::{Text, Words};

pub fn client_call(
    tc: &mut Component,
    numbers: Numbers,
    name: &str,
    words: &mut Words,
    answer: &mut Text,
) -> Result<(), Refusal> {
    if name == "begin" {
        numbers.put_plain(answer, begin(tc)?);
        return Ok(());
    }
    let txn = numbers.read(words)?;
    match name {
        "act" => numbers.put_plain(answer, act(tc, txn, &words.op()?)?),
        "get" => answer.put_number(get(tc, txn, &words.key()?)?),
        "scan" => {
            let low = words.key()?;
            answer.put_number(scan(tc, txn, &low, &words.end()?)?);
        }
        "save" => answer.put_number(save(tc, txn)?),
        "back" => back(tc, txn, words.number()?)?,
        "rollback" => rollback(tc, txn)?,
        "commit" => numbers.put_plain(answer, commit(tc, txn)?),
        "undo" => put_undone(answer, numbers, undo(tc, txn)?),
        _ => put_request(answer, numbers, &send(tc, txn)?),
    }
    Ok(())
}

// Each of these drops what its call promises, so that what calls it is checked soon.

fn begin(tc: &mut Component) -> Result<u64, Refusal> {
    tc.begin()
}

fn act(tc: &mut Component, txn: u64, op: &Op) -> Result<u64, Refusal> {
    tc.act(txn, op)
}

fn get(tc: &mut Component, txn: u64, key: &Key) -> Result<u64, Refusal> {
    tc.get(txn, key)
}

fn scan(tc: &mut Component, txn: u64, low: &Key, high: &Option<Key>) -> Result<u64, Refusal> {
    tc.scan(txn, low, high)
}

fn save(tc: &mut Component, txn: u64) -> Result<u64, Refusal> {
    tc.save(txn)
}

fn back(tc: &mut Component, txn: u64, savepoint: u64) -> Result<(), Refusal> {
    tc.back_to(txn, savepoint)
}

fn rollback(tc: &mut Component, txn: u64) -> Result<(), Refusal> {
    tc.rollback(txn)
}

fn commit(tc: &mut Component, txn: u64) -> Result<u64, Refusal> {
    tc.commit(txn)
}

fn undo(tc: &mut Component, txn: u64) -> Result<UndoStep, Refusal> {
    tc.undo_step(txn)
}

fn send(tc: &Component, txn: u64) -> Result<Request, Refusal> {
    tc.resend(txn)
}
