//! Operations on a table, one after another.
use record_key::{Op, PlainTable, Refusal, Value};
use std::alloc::Global;
use test_lines::{OUTSIDE, Subject, Words, put_answer, put_text, refused};

/// The table that the lines before have left.
#[derive(Drop)]
pub struct Tables {
    alloc: Global,
    table: PlainTable,
}

impl Tables {
    pub fn new(alloc: Global) -> Tables {
        Tables {
            alloc,
            table: PlainTable::new(alloc),
        }
    }
}

impl Subject for Tables {
    fn call(&mut self, call: &str, answer: &mut String) -> Result<(), Refusal> {
        let mut words = Words::new(self.alloc, call);
        match words.word() {
            "new" => self.table = PlainTable::new(self.alloc),
            "rows" => put_rows(&self.table, answer)?,
            "do" => read_op(&mut self.table, &mut words, answer)?,
            _ => return Err(OUTSIDE),
        }
        Ok(())
    }
}

/// Each row, in the order in which they stand.
fn put_rows(table: &PlainTable, answer: &mut String) -> Result<(), Refusal> {
    for (key, value) in table.rows() {
        put_text(answer, key.as_bytes())?;
        answer.push('=')?;
        put_text(answer, value.as_bytes())?;
        answer.push(' ')?;
    }
    Ok(())
}

fn read_op(
    table: &mut PlainTable,
    words: &mut Words<'_>,
    answer: &mut String,
) -> Result<(), Refusal> {
    let op = words.op()?;
    apply(table, &op, answer)
}

/// Does the operation. Answers what it was answered, and the value at its key from then on.
fn apply(table: &mut PlainTable, op: &Op, answer: &mut String) -> Result<(), Refusal> {
    let rows = table.rows().len();
    match table.apply(op) {
        Ok(given) => put_answer(answer, &given)?,
        Err(_) => return Err(refused(Refusal::NoMemory, table.rows().len() == rows)),
    }
    answer.push_str(", ")?;
    put_value(table.get(op.key()), answer)
}

fn put_value(value: Option<&Value>, answer: &mut String) -> Result<(), Refusal> {
    match value {
        Some(value) => put_text(answer, value.as_bytes()),
        None => Ok(answer.push('-')?),
    }
}
