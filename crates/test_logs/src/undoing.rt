//! Losers that are undone one record after another, beside a slow reader of the log that grows by it.
use crate::plain;
use history::Record;
use log_laws::is_legal;
use record_key::{Answer, Refusal};
use std::fmt::Write;
use tc_restart::Losers;

/// What undo appends next, with the answer that it is given.
#[derive(Clone, Copy, PartialEq, Eq)]
enum Step {
    End(u64),
    Comp { txn: u64, undoes: u64, next: u64 },
    Nothing,
}

/// What is due, as the slow reader says.
fn due(log: &[Record]) -> Step {
    let number = log.len() as u64;
    let ended = plain::least_ended(log);
    if ended != 0 {
        return Step::End(ended);
    }
    let undoes = plain::latest_left(log, number.saturating_add(1), None);
    match plain::left_of(log, undoes) {
        Some(txn) => Step::Comp {
            txn,
            undoes,
            next: plain::latest_left(log, undoes, Some(txn)),
        },
        None => Step::Nothing,
    }
}

/// The losers say of what is due what the slow reader says.
fn agree(losers: &Losers, log: &[Record], due: Step) -> bool {
    let left = plain::latest_left(log, (log.len() as u64).saturating_add(1), None);
    let ended = match due {
        Step::End(txn) => txn,
        _ => 0,
    };
    losers.is_empty() == (due == Step::Nothing)
        && losers.ended_next().unwrap_or(0) == ended
        && losers.lose_next().map_or(0, |next| next.left) == left
        && losers.lose_next().map(|next| next.txn) == plain::left_of(log, left)
}

/// Appends what is due, and has the losers take it in.
fn append(log: &mut Vec<Record>, losers: &mut Losers, due: Step) -> Result<(), Refusal> {
    log.reserve(2)?;
    match due {
        Step::End(txn) => {
            log.push(Record::End { txn })?;
            losers.ended();
        }
        Step::Comp { txn, undoes, next } => {
            log.push(plain::comp_of(log, txn, undoes, next))?;
            losers.compensated(log.len() as u64, next);
            answer_last(log)?;
        }
        Step::Nothing => {}
    }
    Ok(())
}

/// Answers the last record, if it asks for something.
fn answer_last(log: &mut Vec<Record>) -> Result<(), Refusal> {
    let of = log.len() as u64;
    if plain::lacks_answer(log, of) {
        let answer = Answer::Exists;
        log.push(Record::Answer { of, answer })?;
    }
    Ok(())
}

/// Undoes all losers, and tells where they say something else than the slow reader, or where the log that comes of it
/// isn't legal.
pub fn undo_wholly(
    log: &mut Vec<Record>,
    losers: &mut Losers,
    answer: &mut String,
) -> Result<(), Refusal> {
    for _ in 0..64 {
        let due = due(log);
        if !agree(losers, log, due) {
            write!(answer, "undo at {}; ", log.len())?;
        }
        append(log, losers, due)?;
    }
    if !losers.is_empty() || !is_legal(log) {
        answer.push_str("undo ends otherwise; ")?;
    }
    Ok(())
}

/// Undoes all losers, and tells in which order.
pub fn put_undone(
    log: &mut Vec<Record>,
    losers: &mut Losers,
    answer: &mut String,
) -> Result<(), Refusal> {
    for _ in 0..64 {
        let due = due(log);
        match due {
            Step::End(_) => put_ended(losers, answer)?,
            Step::Comp { .. } => put_next(losers, answer)?,
            Step::Nothing => {}
        }
        append(log, losers, due)?;
    }
    Ok(())
}

fn put_ended(losers: &Losers, answer: &mut String) -> Result<(), Refusal> {
    write!(answer, "end {} ", losers.ended_next().unwrap_or(0))?;
    Ok(())
}

fn put_next(losers: &Losers, answer: &mut String) -> Result<(), Refusal> {
    if let Some(next) = losers.lose_next() {
        write!(answer, "{} of {} ", next.left, next.txn)?;
    }
    Ok(())
}
