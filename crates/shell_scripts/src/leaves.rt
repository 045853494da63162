//! The text of a leaf: its number, its fences, how much it has, and which requests it has captured.
ghost use Rattle.std.specs.Prelude.{◌≡◌, ◌++◌, drop, flat_map};
ghost use Rattle.std.specs.Option.{option_copied};
ghost use Rattle.shell_scripts.specs.Printed.{Prints, piece_text, shown_if};
ghost use Rattle.shell_scripts.specs.Stored.{leaf_line, fences_text, counts_text, set_line, more_line, further_number};

use crate::pieces::{Piece, print};
use dc_leaf::Leaf;
use record_key::{Entries, Entry, Key};
use std::io;

/// The line of a leaf.
pub fn print_leaf<W: io::Write>(writer: &mut W, leaf: &Leaf) -> io::Result<()>
    ensures { Prints (W.contents writer.old) (W.contents writer.new) result (leaf_line leaf.now) }
{
    print_fences(writer, leaf)?;
    print_rest(writer, leaf)
}

/// The leaf's number, and its fences.
fn print_fences<W: io::Write>(writer: &mut W, leaf: &Leaf) -> io::Result<()>
    ensures { Prints (W.contents writer.old) (W.contents writer.new) result (fences_text leaf.now) }
{
    print(
        writer,
        &[
            Piece::Text("leaf "),
            Piece::Number(leaf.id()),
            Piece::Text(" "),
            fence(leaf.low_fence()),
            Piece::Text(" "),
            fence(leaf.high_fence()),
        ],
    )
}

/// A fence, or a dash where there is no bound.
fn fence(key: Option<&Key>) -> Piece<'_>
    ensures { piece_text result ≡ shown_if (option_copied key.entry) }
{
    match key {
        Some(key) => Piece::Key(key),
        None => Piece::Text("-"),
    }
}

/// What stands behind the fences.
fn print_rest<W: io::Write>(writer: &mut W, leaf: &Leaf) -> io::Result<()>
    ensures { Prints (W.contents writer.old) (W.contents writer.new) result
        (counts_text leaf.now ++ set_line leaf.now.ab.entries) }
{
    print_counts(writer, leaf)?;
    print_set(writer, leaf.entries())
}

fn print_counts<W: io::Write>(writer: &mut W, leaf: &Leaf) -> io::Result<()>
    ensures { Prints (W.contents writer.old) (W.contents writer.new) result (counts_text leaf.now) }
{
    print(
        writer,
        &[
            Piece::Text(" low "),
            Piece::Number(leaf.low()),
            Piece::Text(" last "),
            Piece::Number(leaf.last()),
            Piece::Text(" n "),
            Piece::Number(leaf.rows().len() as u64),
            Piece::Text(" set "),
        ],
    )
}

/// The numbers of the entries, joined by commas, or a dash where there is none.
fn print_set<W: io::Write>(writer: &mut W, entries: &Entries) -> io::Result<()>
    ensures { Prints (W.contents writer.old) (W.contents writer.new) result (set_line entries.now) }
{
    if entries.len() == 0 {
        return print(writer, &[Piece::Text("-\n")]);
    }
    print(writer, &[Piece::Number(entries.entry(0).number)])?;
    print_more(writer, entries)
}

/// The numbers behind the first, and the end of the line.
fn print_more<W: io::Write>(writer: &mut W, entries: &Entries) -> io::Result<()>
    ensures { Prints (W.contents writer.old) (W.contents writer.new) result (more_line (drop 1 entries.now)) }
{
    print_numbers(writer, entries)?;
    print(writer, &[Piece::Text("\n")])
}

fn print_numbers<W: io::Write>(writer: &mut W, entries: &Entries) -> io::Result<()>
    ensures { Prints (W.contents writer.old) (W.contents writer.new) result
        (flat_map further_number (drop 1 entries.now)) }
{
    for at in 1..entries.len() {
        print_next(writer, &entries.entry(at))?;
    }
    Ok(())
}

/// A comma and the number of an entry.
fn print_next<W: io::Write>(writer: &mut W, entry: &Entry) -> io::Result<()>
    ensures { Prints (W.contents writer.old) (W.contents writer.new) result (further_number entry.now) }
{
    print(writer, &[Piece::Text(","), Piece::Number(entry.number)])
}
