//! What the rules of a legal log ask of a transaction, a key or a number, each read off the whole log.
ghost use Rattle.std.specs.Prelude.{◌≡◌, ℕ, ◌<◌, ◌&&◌, ◌↔◌, IsTrue, reverse};
ghost use Rattle.record_key.specs.Table.{is_add};
ghost use Rattle.history.specs.Log.{IsOpen, IsStepOf};
ghost use Rattle.history.specs.Legal.{IsIdle, IsKeyFree, Stands, IsLatest, IsLatestOrNone, Inverts, AreAnswered};
ghost use Rattle.log_laws.specs.Reading.{Waits, Blocks, LacksAnswer};

use crate::reader::{answer, is_over, is_undone, numbered, operation_at, request_at, step};
use history::Record;
use inverse::inverse;
use record_key::Op;

/// The transaction has begun and goes on.
pub fn is_open(log: &[Record], txn: u64) -> bool
    ensures { IsTrue result ↔ IsOpen (reverse log.now) txn }
{
    matches!(numbered(log, txn), Some(Record::Begin)) && !is_over(log, txn)
}

/// It is a step of the transaction.
pub fn is_step(log: &[Record], txn: u64, number: u64) -> bool
    ensures { IsTrue result ↔ IsStepOf (reverse log.now) txn number }
{
    numbered(log, number).and_then(step) == Some(txn)
}

/// It is a request of the transaction that has no answer.
pub fn waits(log: &[Record], txn: u64, number: u64) -> bool
    ensures { IsTrue result ↔ Waits (reverse log.now) txn number }
{
    is_step(log, txn, number) && request_at(log, number).is_some() && answer(log, number).is_none()
}

/// No request of the transaction waits for its answer.
pub fn is_idle(log: &[Record], txn: u64) -> bool
    ensures { IsTrue result ↔ IsIdle (reverse log.now) txn }
{
    for place in 0..log.len() {
        if waits(log, txn, place as u64 + 1) {
            return false;
        }
    }
    true
}

/// Both are increments.
fn are_adds(op: &Op, other: &Op) -> bool
    ensures { result ≡ (is_add op.now && is_add other.now) }
{
    op.is_add() && other.is_add()
}

/// It is an operation on this one's key by another transaction that is open, and they aren't both Adds.
pub fn blocks(log: &[Record], txn: u64, op: &Op, number: u64) -> bool
    ensures { IsTrue result ↔ Blocks (reverse log.now) txn op.now number }
{
    match operation_at(log, number) {
        Some((by, other)) => {
            by != txn && other.key() == op.key() && !are_adds(op, &other) && is_open(log, by)
        }
        None => false,
    }
}

/// No other open transaction has an operation on this one's key, undone or not, unless both are Adds.
pub fn is_free(log: &[Record], txn: u64, op: &Op) -> bool
    ensures { IsTrue result ↔ IsKeyFree (reverse log.now) txn op.now }
{
    for place in 0..log.len() {
        if blocks(log, txn, op, place as u64 + 1) {
            return false;
        }
    }
    true
}

/// It is a request up to this number that has no answer.
pub fn lacks_answer(log: &[Record], low: u64, number: u64) -> bool
    ensures { IsTrue result ↔ LacksAnswer (reverse log.now) low number }
{
    number <= low && request_at(log, number).is_some() && answer(log, number).is_none()
}

/// Every request up to this number has its answer.
pub fn are_answered(log: &[Record], low: u64) -> bool
    ensures { IsTrue result ↔ AreAnswered (reverse log.now) low }
{
    for place in 0..log.len() {
        if lacks_answer(log, low, place as u64 + 1) {
            return false;
        }
    }
    true
}

/// It is an operation of the transaction that no compensation names.
pub fn stands(log: &[Record], txn: u64, number: u64) -> bool
    ensures { IsTrue result ↔ Stands (reverse log.now) txn number }
{
    match operation_at(log, number) {
        Some((by, _)) => by == txn && !is_undone(log, number),
        None => false,
    }
}

/// The transaction's latest Op or Comp record, 0 if none.
pub fn latest_step(log: &[Record], txn: u64) -> u64
    ensures { IsLatestOrNone (IsStepOf (reverse log.now) txn) result }
{
    let mut latest = 0;
    for place in 0..log.len() {
        let number = place as u64 + 1;
        if is_step(log, txn, number) {
            latest = number;
        }
    }
    latest
}

/// It is an operation of the transaction, below this bound, that no compensation names.
pub fn is_left(log: &[Record], txn: u64, below: u64, number: u64) -> bool
    ensures { IsTrue result ↔ (Stands (reverse log.now) txn number × (number < below)) }
{
    number < below && stands(log, txn, number)
}

/// The transaction's latest operation below this number that no compensation names, 0 if none.
pub fn latest_left(log: &[Record], txn: u64, below: u64) -> u64
    ensures { IsLatestOrNone (λ n. Stands (reverse log.now) txn n × (n < below)) result }
{
    let mut latest = 0;
    for place in 0..log.len() {
        let number = place as u64 + 1;
        if is_left(log, txn, below, number) {
            latest = number;
        }
    }
    latest
}

/// The transaction's latest operation that no compensation names, 0 if none.
pub fn next_undo(log: &[Record], txn: u64) -> u64
    ensures { IsLatestOrNone (Stands (reverse log.now) txn) result }
{
    latest_left(log, txn, log.len() as u64 + 1)
}

/// It is the transaction's latest operation that no compensation names.
pub fn is_next_undo(log: &[Record], txn: u64, number: u64) -> bool
    ensures { IsTrue result ↔ IsLatest (Stands (reverse log.now) txn) number }
{
    number != 0 && next_undo(log, txn) == number
}

/// It is the latest one below this number, or 0 and there is none.
pub fn is_latest_left(log: &[Record], txn: u64, below: u64, number: u64) -> bool
    ensures { IsTrue result ↔ IsLatestOrNone (λ n. Stands (reverse log.now) txn n × (n < below)) number }
{
    latest_left(log, txn, below) == number
}

/// Every operation of the transaction is named by a compensation.
pub fn is_undone_wholly(log: &[Record], txn: u64) -> bool
    ensures { IsTrue result ↔ ((n : ℕ) → Stands (reverse log.now) txn n → ⊥) }
{
    next_undo(log, txn) == 0
}

/// What undoes the answered operation is this.
pub fn inverts(log: &[Record], undoes: u64, by: &Option<Op>) -> bool
    ensures { IsTrue result ↔ Inverts (reverse log.now) undoes by.now }
{
    match (operation_at(log, undoes), answer(log, undoes)) {
        (Some((_, op)), Some(answer)) => inverse(&op, &answer) == *by,
        _ => false,
    }
}
