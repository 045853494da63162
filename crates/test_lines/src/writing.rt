//! The text of keys, values, operations, answers and refusals.
use crate::hex::put_hex;
use record_key::{Answer, Key, Op, Refusal, Value};
use std::fmt::Write;

/// Appends the text of a key or a value: letters and digits as they are, a dot for none, else digits after `#`.
pub fn put_text(out: &mut String, bytes: &[u8]) -> Result<(), Refusal> {
    if bytes.is_empty() {
        out.push('.')?;
        return Ok(());
    }
    if bytes.iter().all(|byte| byte.is_ascii_alphanumeric()) {
        for byte in bytes {
            out.push(char::from(*byte))?;
        }
        return Ok(());
    }
    out.push('#')?;
    put_hex(out, bytes)
}

/// Appends a word, a space and the text of a key.
pub fn put_key(out: &mut String, name: &str, key: &Key) -> Result<(), Refusal> {
    put_worded(out, name, key.as_bytes())
}

fn put_worded(out: &mut String, name: &str, bytes: &[u8]) -> Result<(), Refusal> {
    out.push_str(name)?;
    out.push(' ')?;
    put_text(out, bytes)
}

fn put_write(out: &mut String, name: &str, key: &Key, value: &Value) -> Result<(), Refusal> {
    put_key(out, name, key)?;
    put_worded(out, "", value.as_bytes())
}

/// Appends the text of an operation.
pub fn put_op(out: &mut String, op: &Op) -> Result<(), Refusal> {
    match op {
        Op::Insert(key, value) => put_write(out, "insert", key, value),
        Op::Update(key, value) => put_write(out, "update", key, value),
        Op::Upsert(key, value) => put_write(out, "upsert", key, value),
        Op::Delete(key) => put_key(out, "delete", key),
        Op::Add(key, amount) => {
            put_key(out, "add", key)?;
            write!(out, " {amount}")?;
            Ok(())
        }
    }
}

/// Appends the text of an inverse, `none` where there is none.
pub fn put_inverse(out: &mut String, inverse: &Option<Op>) -> Result<(), Refusal> {
    match inverse {
        Some(op) => put_op(out, op),
        None => Ok(out.push_str("none")?),
    }
}

/// Appends the text of an answer, in the words of the shell.
pub fn put_answer(out: &mut String, answer: &Answer) -> Result<(), Refusal> {
    match answer {
        Answer::Inserted => Ok(out.push_str("inserted")?),
        Answer::Updated(old) => put_worded(out, "updated", old.as_bytes()),
        Answer::Was(Some(old)) => put_worded(out, "was", old.as_bytes()),
        Answer::Was(None) => Ok(out.push_str("was -")?),
        Answer::Deleted(old) => put_worded(out, "deleted", old.as_bytes()),
        Answer::Exists => Ok(out.push_str("exists")?),
        Answer::NoRecord => Ok(out.push_str("missing")?),
        Answer::NotNumber => Ok(out.push_str("notnumber")?),
        Answer::Added(amount) => Ok(write!(out, "added {amount}")?),
    }
}

/// Appends `no`, the name of a refusal and the number that it tells, if any.
pub fn put_refusal(out: &mut String, refusal: Refusal) -> Result<(), Refusal> {
    let name = refusal.name();
    match refusal {
        Refusal::Busy(number) | Refusal::BadScript(number) | Refusal::BadBytes(number) => {
            write!(out, "no {name} {number}")?;
        }
        _ => write!(out, "no {name}")?,
    }
    Ok(())
}
