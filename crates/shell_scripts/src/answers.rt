//! The text of answers, values and rows that a transaction asked for.
ghost use Rattle.std.specs.Prelude.{◌≡◌};
ghost use Rattle.shell_scripts.specs.Printed.{Prints, piece_text, shown_if};
ghost use Rattle.shell_scripts.specs.Answers.{answer_text, answered_line, value_line, counted_line, found_text};

use crate::pieces::{Piece, print};
use crate::printed::{print_numbered, print_valued};
use crate::rows::print_lent;
use codec::LentRows;
use record_key::{Answer, Value};
use std::io;

/// The answer to a number: a transaction's to its client, or a record's.
pub fn print_answered<W: io::Write>(writer: &mut W, number: u64, answer: &Answer) -> io::Result<()>
    ensures { Prints (W.contents writer.old) (W.contents writer.new) result (answered_line number answer.now) }
{
    print(
        writer,
        &[
            Piece::Text("answer "),
            Piece::Number(number),
            Piece::Text(" "),
        ],
    )?;
    print_answer(writer, answer)
}

/// An answer, and the end of its line.
fn print_answer<W: io::Write>(writer: &mut W, answer: &Answer) -> io::Result<()>
    ensures { Prints (W.contents writer.old) (W.contents writer.new) result (answer_text answer.now) }
{
    match answer {
        Answer::Inserted => print(writer, &[Piece::Text("inserted\n")]),
        Answer::Updated(old) => print_valued(writer, "updated ", old),
        Answer::Was(Some(old)) => print_valued(writer, "was ", old),
        Answer::Was(None) => print(writer, &[Piece::Text("was -\n")]),
        Answer::Deleted(old) => print_valued(writer, "deleted ", old),
        Answer::Exists => print(writer, &[Piece::Text("exists\n")]),
        Answer::NoRecord => print(writer, &[Piece::Text("missing\n")]),
        Answer::NotNumber => print(writer, &[Piece::Text("notnumber\n")]),
        Answer::Added(amount) => print_numbered(writer, "added ", *amount),
    }
}

/// The line of the value at a key that a transaction asked for.
pub fn print_value<W: io::Write>(writer: &mut W, txn: u64, value: &Option<Value>) -> io::Result<()>
    ensures { Prints (W.contents writer.old) (W.contents writer.new) result (value_line txn value.now) }
{
    print(
        writer,
        &[
            Piece::Text("row "),
            Piece::Number(txn),
            Piece::Text(" "),
            value_piece(value),
            Piece::Text("\n"),
        ],
    )
}

/// A value, or a dash where there is no record.
pub fn value_piece(value: &Option<Value>) -> Piece<'_>
    ensures { piece_text result ≡ shown_if value.now }
{
    match value {
        Some(value) => Piece::Value(value),
        None => Piece::Text("-"),
    }
}

/// How many rows these are, and a line of each.
pub fn print_found<W: io::Write>(writer: &mut W, txn: u64, rows: &LentRows<'_>) -> io::Result<()>
    ensures { Prints (W.contents writer.old) (W.contents writer.new) result (found_text txn rows.now) }
{
    print_counted(writer, "rows ", txn, rows.len())?;
    print_lent(writer, rows)
}

/// A word, a transaction, and how many rows it is told of.
pub fn print_counted<W: io::Write>(
    writer: &mut W,
    word: &str,
    txn: u64,
    count: usize,
) -> io::Result<()>
    ensures { Prints (W.contents writer.old) (W.contents writer.new) result (counted_line word.now txn count) }
{
    print(
        writer,
        &[
            Piece::Text(word),
            Piece::Number(txn),
            Piece::Text(" "),
            Piece::Number(count as u64),
            Piece::Text("\n"),
        ],
    )
}
