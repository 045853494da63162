//! The text of what a client was answered.
use codec::Rows;
use record_key::{Key, Refusal, Value};
use std::fmt::Write;
use test_lines::{put_answer, put_refusal, put_text};
use test_model::node_laws::Out;

/// Appends what a call was answered.
pub fn put_told(text: &mut String, out: &Out) -> Result<(), Refusal> {
    match out {
        Out::Answered { answer, .. } => put_answer(text, answer),
        Out::Row { value, .. } => put_row(text, value),
        Out::Rows { rows, .. } => put_packed(text, rows),
        Out::Refused(refusal) => put_refusal(text, *refusal),
        _ => put_turn(text, out),
    }
}

fn put_turn(text: &mut String, out: &Out) -> Result<(), Refusal> {
    match out {
        Out::Begun(txn) => write!(text, "begun {txn}")?,
        Out::Saved(savepoint) => write!(text, "saved {savepoint}")?,
        Out::Back { savepoint, .. } => write!(text, "back {savepoint}")?,
        Out::RolledBack(_) => text.push_str("rolled back")?,
        Out::CommitLogged(number) => write!(text, "committed {number}")?,
        _ => text.push_str("nothing")?,
    }
    Ok(())
}

fn put_row(text: &mut String, value: &Option<Value>) -> Result<(), Refusal> {
    match value {
        Some(value) => {
            text.push_str("row ")?;
            put_text(text, value.as_bytes())
        }
        None => Ok(text.push_str("no row")?),
    }
}

/// Appends the rows that a call was given.
fn put_packed(text: &mut String, rows: &Rows) -> Result<(), Refusal> {
    text.push_str("rows")?;
    let mut reader = rows.lent();
    for _ in 0..rows.len() {
        if let Some((key, value)) = reader.next() {
            put_record(text, &key, &value)?;
        }
    }
    Ok(())
}

/// Appends the rows of a table.
pub fn put_rows(text: &mut String, rows: &[(Key, Value)]) -> Result<(), Refusal> {
    text.push_str("rows")?;
    for row in rows {
        put_record(text, &row.0, &row.1)?;
    }
    Ok(())
}

/// Appends a row behind a space.
fn put_record(text: &mut String, key: &Key, value: &Value) -> Result<(), Refusal> {
    text.push(' ')?;
    put_text(text, key.as_bytes())?;
    text.push('=')?;
    put_text(text, value.as_bytes())
}
