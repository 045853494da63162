//! The text of operations.
ghost use Rattle.shell_scripts.specs.Printed.{Prints};
ghost use Rattle.shell_scripts.specs.Logged.{op_text, write_text, add_text, inverse_text};

use crate::pieces::{Piece, print};
use crate::printed::print_keyed;
use record_key::{Key, Op, Value};
use std::io;

/// An operation, and the end of its line.
pub fn print_op<W: io::Write>(writer: &mut W, op: &Op) -> io::Result<()>
    ensures { Prints (W.contents writer.old) (W.contents writer.new) result (op_text op.now) }
{
    match op {
        Op::Insert(key, value) => print_write(writer, "insert ", key, value),
        Op::Update(key, value) => print_write(writer, "update ", key, value),
        Op::Upsert(key, value) => print_write(writer, "upsert ", key, value),
        Op::Delete(key) => print_keyed(writer, "delete ", key),
        Op::Add(key, amount) => print_add(writer, key, *amount),
    }
}

fn print_write<'a, W: io::Write>(
    writer: &mut W,
    name: &'a str,
    key: &'a Key,
    value: &'a Value,
) -> io::Result<()>
    ensures { Prints (W.contents writer.old) (W.contents writer.new) result (write_text name.now key.now value.now) }
{
    print(
        writer,
        &[
            Piece::Text(name),
            Piece::Key(key),
            Piece::Text(" "),
            Piece::Value(value),
            Piece::Text("\n"),
        ],
    )
}

fn print_add<W: io::Write>(writer: &mut W, key: &Key, amount: u64) -> io::Result<()>
    ensures { Prints (W.contents writer.old) (W.contents writer.new) result (add_text key.now amount) }
{
    print(
        writer,
        &[
            Piece::Text("add "),
            Piece::Key(key),
            Piece::Text(" "),
            Piece::Number(amount),
            Piece::Text("\n"),
        ],
    )
}

/// What undoes an operation, if anything does.
pub fn print_inverse<W: io::Write>(writer: &mut W, inverse: &Option<Op>) -> io::Result<()>
    ensures { Prints (W.contents writer.old) (W.contents writer.new) result (inverse_text inverse.now) }
{
    match inverse {
        Some(op) => print_op(writer, op),
        None => print(writer, &[Piece::Text("none\n")]),
    }
}
