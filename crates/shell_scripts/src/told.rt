//! The lines that clients are told.
ghost use Rattle.std.specs.Prelude.{◌≡◌};
ghost use Rattle.shell_scripts.specs.Printed.{Prints};
ghost use Rattle.shell_scripts.specs.Told.{back_line, committed_text, told_text};

use crate::answers::{print_answered, print_found, print_value};
use crate::pieces::{Piece, print};
use crate::printed::print_numbered;
use node_world::Out;
use std::io;

/// What clients are told by an output: nothing by most.
pub fn print_told<W: io::Write>(writer: &mut W, out: &Out) -> io::Result<()>
    ensures { Prints (W.contents writer.old) (W.contents writer.new) result (told_text out.now) }
{
    match out {
        Out::Answered { txn, answer } => print_answered(writer, *txn, answer),
        Out::Row { txn, value } => print_value(writer, *txn, value),
        Out::Rows { txn, rows } => print_found(writer, *txn, &rows.lent()),
        Out::Back { txn, savepoint } => print_back(writer, *txn, *savepoint),
        Out::RolledBack(txn) => print_numbered(writer, "rolled back ", *txn),
        Out::Lost(txn) => print_numbered(writer, "lost ", *txn),
        Out::Stable { committed, .. } => print_committed(writer, committed.as_slice()),
        Out::Connects { committed, .. } => print_committed(writer, committed.as_slice()),
        _ => Ok(()),
    }
}

/// A transaction is back at its savepoint.
fn print_back<W: io::Write>(writer: &mut W, txn: u64, savepoint: u64) -> io::Result<()>
    ensures { Prints (W.contents writer.old) (W.contents writer.new) result (back_line txn savepoint) }
{
    print(
        writer,
        &[
            Piece::Text("back "),
            Piece::Number(txn),
            Piece::Text(" "),
            Piece::Number(savepoint),
            Piece::Text("\n"),
        ],
    )
}

/// A line of each of those who have committed.
pub fn print_committed<W: io::Write>(writer: &mut W, committed: &[u64]) -> io::Result<()>
    ensures { Prints (W.contents writer.old) (W.contents writer.new) result (committed_text committed.now) }
{
    for txn in committed {
        print_numbered(writer, "committed ", *txn)?;
    }
    Ok(())
}
