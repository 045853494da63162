//! The text of rows, one after another.
ghost use Rattle.std.specs.Prelude.{◌≡◌, flat_map};
ghost use Rattle.shell_scripts.specs.Printed.{Prints};
ghost use Rattle.shell_scripts.specs.Stored.{row_line, table_text};

use crate::pieces::{Piece, print};
use crate::printed::print_numbered;
use codec::LentRows;
use record_key::{Key, Value};
use std::io;

/// The lines of a table: its rows, and how many they are.
pub fn print_table<W: io::Write>(writer: &mut W, rows: &[(Key, Value)]) -> io::Result<()>
    ensures { Prints (W.contents writer.old) (W.contents writer.new) result (table_text rows.now) }
{
    print_rows(writer, rows)?;
    print_numbered(writer, "rows ", rows.len() as u64)
}

/// The lines of the rows that a transaction asked for.
pub fn print_lent<W: io::Write>(writer: &mut W, rows: &LentRows<'_>) -> io::Result<()>
    ensures { Prints (W.contents writer.old) (W.contents writer.new) result (flat_map row_line rows.now) }
{
    let mut reader = rows.again();
    while let Some(row) = reader.next() {
        print_row(writer, &row.0, &row.1)?;
    }
    Ok(())
}

/// The lines of the rows.
fn print_rows<W: io::Write>(writer: &mut W, rows: &[(Key, Value)]) -> io::Result<()>
    ensures { Prints (W.contents writer.old) (W.contents writer.new) result (flat_map row_line rows.now) }
{
    for row in rows {
        print_row(writer, &row.0, &row.1)?;
    }
    Ok(())
}

/// The line of a row.
pub fn print_row<'a, W: io::Write>(writer: &mut W, key: &'a Key, value: &'a Value) -> io::Result<()>
    ensures { Prints (W.contents writer.old) (W.contents writer.new) result (row_line (key.now, value.now)) }
{
    print(
        writer,
        &[
            Piece::Key(key),
            Piece::Text("="),
            Piece::Value(value),
            Piece::Text("\n"),
        ],
    )
}
