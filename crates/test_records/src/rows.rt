//! Rows that are told, copied and compared.
use codec::Rows;
use record_key::{Key, Refusal, Value};
use std::alloc::Global;
use test_lines::{Words, put_key, put_text};

/// Tells each row.
pub fn put_rows(answer: &mut String, rows: &Rows) -> Result<(), Refusal> {
    let mut reader = rows.lent();
    for _ in 0..rows.len() {
        if let Some((key, value)) = reader.next() {
            put_row(answer, &key, &value)?;
        }
    }
    Ok(())
}

fn put_row(answer: &mut String, key: &Key, value: &Value) -> Result<(), Refusal> {
    put_key(answer, "", key)?;
    answer.push('=')?;
    put_text(answer, value.as_bytes())
}

/// So many rows, a key and a value each.
fn rows_in(alloc: Global, words: &mut Words<'_>) -> Result<Rows, Refusal> {
    let mut rows = Rows::new(alloc);
    for _ in 0..words.number()? {
        let key = words.key()?;
        rows.push(&key, &words.value()?.lent())?;
    }
    Ok(rows)
}

/// Whether rows and others are equal, and whether the rows equal their copy.
pub fn compare_rows(
    alloc: Global,
    words: &mut Words<'_>,
    answer: &mut String,
) -> Result<(), Refusal> {
    let rows = rows_in(alloc, words)?;
    compare_others(alloc, &rows, words, answer)?;
    if !is_copied(&rows)? {
        answer.push_str(", another copy")?;
    }
    Ok(())
}

fn compare_others(
    alloc: Global,
    rows: &Rows,
    words: &mut Words<'_>,
    answer: &mut String,
) -> Result<(), Refusal> {
    let others = rows_in(alloc, words)?;
    let name = match (rows == &others, &others == rows) {
        (true, true) => "equal",
        (false, false) => "differ",
        _ => "differ one way",
    };
    Ok(answer.push_str(name)?)
}

fn is_copied(rows: &Rows) -> Result<bool, Refusal> {
    let copied = rows.copied()?;
    Ok(&copied == rows)
}
