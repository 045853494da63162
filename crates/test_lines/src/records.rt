//! Records of a transaction log as text.
use crate::reading::{OUTSIDE, Words};
use crate::writing::{put_answer, put_inverse, put_op};
use history::Record;
use record_key::Refusal;
use std::fmt::Write;

impl Words<'_> {
    /// A record, as the shell prints it.
    pub fn record(&mut self) -> Result<Record, Refusal> {
        match self.word() {
            "session" => Ok(Record::Session),
            "begin" => Ok(Record::Begin),
            "op" => self.op_record(),
            "answer" => Ok(Record::Answer {
                of: self.number()?,
                answer: self.answer()?,
            }),
            "comp" => self.comp_record(),
            "commit" => Ok(Record::Commit {
                txn: self.number()?,
            }),
            "end" => Ok(Record::End {
                txn: self.number()?,
            }),
            "checkpoint" => Ok(Record::Checkpoint {
                low: self.number()?,
            }),
            _ => Err(OUTSIDE),
        }
    }

    fn op_record(&mut self) -> Result<Record, Refusal> {
        Ok(Record::Op {
            txn: self.number()?,
            prev: self.named("prev")?,
            op: self.op()?,
        })
    }

    fn comp_record(&mut self) -> Result<Record, Refusal> {
        Ok(Record::Comp {
            txn: self.number()?,
            undoes: self.named("undoes")?,
            next: self.named("next")?,
            inverse: self.inverse()?,
        })
    }

    /// The number behind a word.
    pub fn named(&mut self, name: &str) -> Result<u64, Refusal> {
        if self.word() != name {
            return Err(OUTSIDE);
        }
        self.number()
    }
}

/// Appends the text of a record.
pub fn put_record(out: &mut String, found: &Record) -> Result<(), Refusal> {
    match found {
        Record::Session => out.push_str("session")?,
        Record::Begin => out.push_str("begin")?,
        Record::Op { txn, prev, op } => {
            write!(out, "op {txn} prev {prev} ")?;
            put_op(out, op)?;
        }
        Record::Answer { of, answer } => {
            write!(out, "answer {of} ")?;
            put_answer(out, answer)?;
        }
        Record::Comp {
            txn,
            undoes,
            next,
            inverse,
        } => {
            write!(out, "comp {txn} undoes {undoes} next {next} ")?;
            put_inverse(out, inverse)?;
        }
        Record::Commit { txn } => write!(out, "commit {txn}")?,
        Record::End { txn } => write!(out, "end {txn}")?,
        Record::Checkpoint { low } => write!(out, "checkpoint {low}")?,
    }
    Ok(())
}
