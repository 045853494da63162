//! The text of refusals, and of a line with one number, key or value.
ghost use Rattle.std.specs.Prelude.{◌≡◌};
ghost use Rattle.shell_scripts.specs.Printed.{Prints, number_behind, number_text, refusal_text, refusal_line, numbered, worded};

use crate::pieces::{Piece, print};
use record_key::{Key, Refusal, Value};
use std::io;

/// The line of a refusal.
pub fn print_refusal<W: io::Write>(writer: &mut W, refusal: Refusal) -> io::Result<()>
    ensures { Prints (W.contents writer.old) (W.contents writer.new) result (refusal_line refusal) }
{
    print_name(writer, refusal)?;
    print_detail(writer, number_behind(refusal))
}

fn print_name<W: io::Write>(writer: &mut W, refusal: Refusal) -> io::Result<()>
    ensures { Prints (W.contents writer.old) (W.contents writer.new) result (refusal_text refusal) }
{
    let number = u64::from(refusal.number());
    print(
        writer,
        &[
            Piece::Text("no "),
            Piece::Number(number),
            Piece::Text(" "),
            Piece::Text(refusal.name()),
        ],
    )
}

fn print_detail<W: io::Write>(writer: &mut W, detail: Option<u64>) -> io::Result<()>
    ensures { Prints (W.contents writer.old) (W.contents writer.new) result (number_text detail) }
{
    match detail {
        Some(number) => print_numbered(writer, " ", number),
        None => print(writer, &[Piece::Text("\n")]),
    }
}

/// The number that is printed behind a refusal's name.
fn number_behind(refusal: Refusal) -> Option<u64>
    ensures { result ≡ number_behind refusal }
{
    match refusal {
        Refusal::Busy(holder) => Some(holder),
        Refusal::BadScript(line) => Some(line),
        Refusal::BadBytes(place) => Some(place),
        _ => None,
    }
}

/// A line of a text and a number.
pub fn print_numbered<W: io::Write>(writer: &mut W, text: &str, number: u64) -> io::Result<()>
    ensures { Prints (W.contents writer.old) (W.contents writer.new) result (numbered text.now number) }
{
    print(
        writer,
        &[Piece::Text(text), Piece::Number(number), Piece::Text("\n")],
    )
}

/// A line of a text and a key.
pub fn print_keyed<'a, W: io::Write>(writer: &mut W, text: &'a str, key: &'a Key) -> io::Result<()>
    ensures { Prints (W.contents writer.old) (W.contents writer.new) result (worded text.now key.now) }
{
    print(
        writer,
        &[Piece::Text(text), Piece::Key(key), Piece::Text("\n")],
    )
}

/// A line of a text and a value.
pub fn print_valued<'a, W: io::Write>(
    writer: &mut W,
    text: &'a str,
    value: &'a Value,
) -> io::Result<()>
    ensures { Prints (W.contents writer.old) (W.contents writer.new) result (worded text.now value.now) }
{
    print(
        writer,
        &[Piece::Text(text), Piece::Value(value), Piece::Text("\n")],
    )
}
