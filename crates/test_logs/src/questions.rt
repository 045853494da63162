//! What an opened log is asked.
use crate::planned::{put_order, put_plan};
use record_key::Refusal;
use stable::MemLog;
use std::alloc::Global;
use std::fmt::Write;
use tc_log::Log;
use tc_restart::redo_next;
use test_lines::{OUTSIDE, Words, put_answer, put_record};

pub fn put_question(
    alloc: Global,
    log: &Log<MemLog>,
    words: &mut Words<'_>,
    answer: &mut String,
) -> Result<(), Refusal> {
    match words.word() {
        "record" => put_record_at(log, words.number()?, answer),
        "answer" => put_answer_of(log, words.number()?, answer),
        "end" => put_end_of(log, words.number()?, answer),
        "last" => put_number(Some(log.last_not_session()), answer),
        "redo" => put_number(redo_next(log, words.number()?, words.number()?), answer),
        "plan" => put_plan(alloc, log, answer),
        "undo" => put_order(alloc, log, answer),
        _ => Err(OUTSIDE),
    }
}

/// A number, or a dash for none.
pub fn put_number(number: Option<u64>, answer: &mut String) -> Result<(), Refusal> {
    match number {
        Some(number) => write!(answer, "{number}")?,
        None => answer.push('-')?,
    }
    Ok(())
}

fn put_record_at(log: &Log<MemLog>, number: u64, answer: &mut String) -> Result<(), Refusal> {
    match log.record(number) {
        Some(found) => put_record(answer, &found),
        None => Ok(answer.push('-')?),
    }
}

fn put_answer_of(log: &Log<MemLog>, number: u64, answer: &mut String) -> Result<(), Refusal> {
    match log.answer_of(number) {
        Some(found) => put_answer(answer, &found),
        None => Ok(answer.push('-')?),
    }
}

/// Where the first records end, so many, if there are so many.
fn put_end_of(log: &Log<MemLog>, count: u64, answer: &mut String) -> Result<(), Refusal> {
    let end = if count <= log.len() {
        Some(log.end_of(count) as u64)
    } else {
        None
    };
    put_number(end, answer)
}
