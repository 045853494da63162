//! The text of rows, as their scan wants them to be told.
ghost use Rattle.std.specs.Prelude.{◌≡◌, ◌≤◌, ◌-◌, flat_map, length, take, reverse};
ghost use Rattle.row_ranges.specs.Backward.{left};
ghost use Rattle.shell_scripts.specs.Printed.{Prints};
ghost use Rattle.shell_scripts.specs.Answers.{found_text};
ghost use Rattle.shell_scripts.specs.Stored.{row_line};
ghost use Rattle.shell_scripts.specs.Looked.{looked_text, told_so, out_so};

use crate::answers::{print_counted, print_found};
use crate::line::Look;
use crate::looks::Looks;
use crate::outcome::print_out;
use crate::rows::print_row;
use crate::told::print_told;
use codec::LentRows;
use node_world::Out;
use row_ranges::Backward;
use std::io;

/// The lines of one event's output, rows as their scans want it.
pub fn print_out_so<W: io::Write>(writer: &mut W, looks: &Looks, out: &Out) -> io::Result<()>
    ensures { Prints (W.contents writer.old) (W.contents writer.new) result (out_so looks.now.scans.items out.now) }
{
    match out {
        Out::Rows { txn, rows } => print_looked(writer, looks.look(*txn), *txn, &rows.lent()),
        _ => print_out(writer, out),
    }
}

/// What clients are told by an output, rows as their scans want it.
pub fn print_told_so<W: io::Write>(writer: &mut W, looks: &Looks, out: &Out) -> io::Result<()>
    ensures { Prints (W.contents writer.old) (W.contents writer.new) result (told_so looks.now.scans.items out.now) }
{
    match out {
        Out::Rows { txn, rows } => print_looked(writer, looks.look(*txn), *txn, &rows.lent()),
        _ => print_told(writer, out),
    }
}

/// The rows that a transaction asked for, told so.
fn print_looked<W: io::Write>(
    writer: &mut W,
    look: Look,
    txn: u64,
    rows: &LentRows<'_>,
) -> io::Result<()>
    ensures { Prints (W.contents writer.old) (W.contents writer.new) result (looked_text look txn rows.now) }
{
    match look {
        Look::All => print_found(writer, txn, rows),
        Look::Back => print_back(writer, txn, rows),
        Look::First { most } => print_found(writer, txn, &rows.before(few(rows, most))),
        Look::Last { most } => print_back(writer, txn, &rows.from(rows.len() - few(rows, most))),
        Look::Count => print_counted(writer, "count ", txn, rows.len()),
    }
}

/// So many rows, or all where there are fewer.
fn few(rows: &LentRows<'_>, most: u64) -> usize
    ensures within { result ≤ length rows.now }
    ensures first { take result rows.now ≡ take most rows.now }
    ensures last { length rows.now - result ≡ length rows.now - most }
{
    let count = rows.len();
    if most < count as u64 {
        most as usize
    } else {
        count
    }
}

/// How many rows these are, and a line of each, the last one first.
fn print_back<W: io::Write>(writer: &mut W, txn: u64, rows: &LentRows<'_>) -> io::Result<()>
    ensures { Prints (W.contents writer.old) (W.contents writer.new) result (found_text txn (reverse rows.now)) }
{
    print_counted(writer, "rows ", txn, rows.len())?;
    print_backward(writer, &mut Backward::new(rows.again()))
}

/// The lines of the rows that are left.
fn print_backward<W: io::Write>(writer: &mut W, rows: &mut Backward<'_>) -> io::Result<()>
    ensures { Prints (W.contents writer.old) (W.contents writer.new) result (flat_map row_line (left rows.old)) }
{
    while let Some(row) = rows.next() {
        print_row(writer, &row.0, &row.1)?;
    }
    Ok(())
}
