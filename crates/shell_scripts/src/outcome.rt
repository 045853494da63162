//! The text of what an event came to.
ghost use Rattle.std.specs.Prelude.{◌≡◌, ◌++◌};
ghost use Rattle.shell_scripts.specs.Printed.{Prints, numbered};
ghost use Rattle.shell_scripts.specs.Told.{committed_text};
ghost use Rattle.shell_scripts.specs.Outcome.{out_text, pair_line};

use crate::pieces::{Piece, print};
use crate::printed::{print_numbered, print_refusal};
use crate::told::{print_committed, print_told};
use node_world::{Neighbours, Out};
use std::io;

/// The lines of one event's output.
pub fn print_out<W: io::Write>(writer: &mut W, out: &Out) -> io::Result<()>
    ensures { Prints (W.contents writer.old) (W.contents writer.new) result (out_text out.now) }
{
    match out {
        Out::Begun(txn) => print_numbered(writer, "txn ", *txn),
        Out::Logged(lsn) => print_numbered(writer, "logged ", *lsn),
        Out::Asked(number) => print_numbered(writer, "asked ", *number),
        Out::Saved(savepoint) => print_numbered(writer, "savepoint ", *savepoint),
        Out::RollingBack => print(writer, &[Piece::Text("rolling back\n")]),
        Out::CommitLogged(lsn) => print_numbered(writer, "commit logged ", *lsn),
        Out::Compensated(lsn) => print_numbered(writer, "comp ", *lsn),
        Out::Nothing => print(writer, &[Piece::Text("nothing\n")]),
        Out::Stable { end, committed } => {
            print_and_committed(writer, "stable ", *end, committed.as_slice())
        }
        Out::Connects { request, committed } => {
            print_and_committed(writer, "request ", *request, committed.as_slice())
        }
        Out::Sent(number) => print_numbered(writer, "request ", *number),
        Out::Replied(number) => print_numbered(writer, "reply ", *number),
        Out::Noted => print(writer, &[Piece::Text("noted\n")]),
        Out::Connected(session) => print_numbered(writer, "connected ", *session),
        Out::RedoEnded(session) => print_numbered(writer, "redo ended ", *session),
        Out::Undone(lsn) => print_numbered(writer, "undone ", *lsn),
        Out::CheckpointLogged(lsn) => print_numbered(writer, "checkpoint logged ", *lsn),
        Out::Split(pair) => print_pair(writer, "split ", *pair),
        Out::Merged(pair) => print_pair(writer, "merged ", *pair),
        Out::Flushed(id) => print_numbered(writer, "flushed ", *id),
        Out::Down => print(writer, &[Piece::Text("down\n")]),
        Out::Up(count) => print_numbered(writer, "up ", *count),
        Out::Set => print(writer, &[Piece::Text("set\n")]),
        Out::Refused(refusal) => print_refusal(writer, *refusal),
        _ => print_told(writer, out),
    }
}

/// What happened to two leaves.
fn print_pair<W: io::Write>(writer: &mut W, text: &str, pair: Neighbours) -> io::Result<()>
    ensures { Prints (W.contents writer.old) (W.contents writer.new) result (pair_line text.now pair) }
{
    print(
        writer,
        &[
            Piece::Text(text),
            Piece::Number(pair.left),
            Piece::Text(" "),
            Piece::Number(pair.right),
            Piece::Text("\n"),
        ],
    )
}

/// A line of a text and a number, and then one of each of those who have committed.
fn print_and_committed<W: io::Write>(
    writer: &mut W,
    text: &str,
    number: u64,
    committed: &[u64],
) -> io::Result<()>
    ensures { Prints (W.contents writer.old) (W.contents writer.new) result
        (numbered text.now number ++ committed_text committed.now) }
{
    print_numbered(writer, text, number)?;
    print_committed(writer, committed)
}
