//! Replies that words spell.
use crate::numbers::Numbers;
use codec::{Reply, Rows};
use record_key::{Answer, Refusal};
use std::alloc::Global;
use test_calls::{UNREADABLE, Words};

/// The reply of this name.
pub fn reply_of(
    alloc: Global,
    numbers: Numbers,
    name: &str,
    words: &mut Words,
) -> Result<Reply, Refusal> {
    let session = numbers.read(words)?;
    match name {
        "connected" => Ok(Reply::Connected { session }),
        "redoended" => Ok(Reply::RedoEnded { session }),
        "answered" => Ok(Reply::Answered {
            session,
            number: numbers.read(words)?,
            answer: answer_of(words)?,
        }),
        "row" => Ok(Reply::Row {
            session,
            read: words.number()?,
            value: words.found()?,
        }),
        "rows" => Ok(Reply::Rows {
            session,
            read: words.number()?,
            rows: rows_of(alloc, words)?,
        }),
        "checkpointed" => Ok(Reply::Checkpointed {
            session,
            low: numbers.read(words)?,
        }),
        _ => Err(UNREADABLE),
    }
}

/// An answer, or `done` where it is no longer kept.
fn answer_of(words: &mut Words) -> Result<Option<Answer>, Refusal> {
    if words.is_next("done") {
        return Ok(None);
    }
    Ok(Some(words.answer()?))
}

/// `KEY VALUE ..`.
fn rows_of(alloc: Global, words: &mut Words) -> Result<Rows, Refusal> {
    let mut rows = Rows::new(alloc);
    for _ in 0..9 {
        if words.are_read() {
            break;
        }
        let key = words.key()?;
        rows.push(&key, &words.value()?.lent())?;
    }
    Ok(rows)
}
