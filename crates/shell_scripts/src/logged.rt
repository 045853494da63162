//! The text of records of the log.
ghost use Rattle.shell_scripts.specs.Printed.{Prints};
ghost use Rattle.shell_scripts.specs.Logged.{record_line, record_text, act_text, comp_text};

use crate::answers::print_answered;
use crate::operations::{print_inverse, print_op};
use crate::pieces::{Piece, print};
use crate::printed::print_numbered;
use history::Record;
use record_key::Op;
use std::io;

/// The line of a record of the log.
pub fn print_record<W: io::Write>(writer: &mut W, lsn: u64, entry: &Record) -> io::Result<()>
    ensures { Prints (W.contents writer.old) (W.contents writer.new) result (record_line lsn entry.now) }
{
    print(writer, &[Piece::Number(lsn), Piece::Text(" ")])?;
    print_fields(writer, entry)
}

/// What a record says, and the end of its line.
fn print_fields<W: io::Write>(writer: &mut W, entry: &Record) -> io::Result<()>
    ensures { Prints (W.contents writer.old) (W.contents writer.new) result (record_text entry.now) }
{
    match entry {
        Record::Session => print(writer, &[Piece::Text("session\n")]),
        Record::Begin => print(writer, &[Piece::Text("begin\n")]),
        Record::Op { txn, prev, op } => print_act(writer, *txn, *prev, op),
        Record::Answer { of, answer } => print_answered(writer, *of, answer),
        Record::Comp {
            txn,
            undoes,
            next,
            inverse,
        } => print_comp(writer, *txn, *undoes, *next, inverse),
        Record::Commit { txn } => print_numbered(writer, "commit ", *txn),
        Record::End { txn } => print_numbered(writer, "end ", *txn),
        Record::Checkpoint { low } => print_numbered(writer, "checkpoint ", *low),
    }
}

/// An operation of a transaction, behind the transaction's one before.
fn print_act<W: io::Write>(writer: &mut W, txn: u64, prev: u64, op: &Op) -> io::Result<()>
    ensures { Prints (W.contents writer.old) (W.contents writer.new) result (act_text txn prev op.now) }
{
    print(
        writer,
        &[
            Piece::Text("op "),
            Piece::Number(txn),
            Piece::Text(" prev "),
            Piece::Number(prev),
            Piece::Text(" "),
        ],
    )?;
    print_op(writer, op)
}

/// A compensation: whose it is, what it undoes, what is undone next, and by what it undoes.
fn print_comp<W: io::Write>(
    writer: &mut W,
    txn: u64,
    undoes: u64,
    next: u64,
    inverse: &Option<Op>,
) -> io::Result<()>
    ensures { Prints (W.contents writer.old) (W.contents writer.new) result (comp_text txn undoes next inverse.now) }
{
    print(
        writer,
        &[
            Piece::Text("comp "),
            Piece::Number(txn),
            Piece::Text(" undoes "),
            Piece::Number(undoes),
            Piece::Text(" next "),
            Piece::Number(next),
            Piece::Text(" "),
        ],
    )?;
    print_inverse(writer, inverse)
}
