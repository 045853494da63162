//! The text of what clients read and left.
ghost use Rattle.std.specs.Prelude.{◌≡◌, option_map};
ghost use Rattle.shell_scripts.specs.Printed.{Prints};
ghost use Rattle.shell_pool.specs.PoolText.{read_line, reads_text, records_text, pool_text};

use record_key::{Key, Refusal, Value};
use shell_scripts::{Piece, print, print_refusal, print_table, value_piece};
use std::io;

/// A line of each client, and then the records.
pub fn print_pool<W: io::Write>(
    writer: &mut W,
    values: &[Option<Value>],
    rows: Option<&[(Key, Value)]>,
) -> io::Result<()>
    ensures { Prints (W.contents writer.old) (W.contents writer.new) result
        (pool_text values.now (option_map (λ r. r.now) rows.entry)) }
{
    print_reads(writer, values)?;
    print_records(writer, rows)
}

fn print_reads<W: io::Write>(writer: &mut W, values: &[Option<Value>]) -> io::Result<()>
    ensures { Prints (W.contents writer.old) (W.contents writer.new) result (reads_text 0 values.now) }
{
    let mut client = 0;
    for value in values {
        client += 1;
        print_read(writer, client, value)?;
    }
    Ok(())
}

fn print_read<W: io::Write>(writer: &mut W, client: u64, value: &Option<Value>) -> io::Result<()>
    ensures { Prints (W.contents writer.old) (W.contents writer.new) result (read_line client value.now) }
{
    print(
        writer,
        &[
            Piece::Text("session "),
            Piece::Number(client),
            Piece::Text(" read "),
            value_piece(value),
            Piece::Text("\n"),
        ],
    )
}

// The records of a data component that runs, or that it is down.
fn print_records<W: io::Write>(writer: &mut W, rows: Option<&[(Key, Value)]>) -> io::Result<()>
    ensures { Prints (W.contents writer.old) (W.contents writer.new) result
        (records_text (option_map (λ r. r.now) rows.entry)) }
{
    match rows {
        Some(rows) => print_table(writer, rows),
        None => print_refusal(writer, Refusal::NotConnected),
    }
}
