//! What a line of a script came to, and its text.
ghost use Rattle.std.specs.Prelude.{◌≡◌, flat_map};
ghost use Rattle.shell_scripts.specs.Printed.{Prints};
ghost use Rattle.shell_scripts.specs.Looked.{told_so};
ghost use Rattle.shell_scripts.specs.Ending.{is_failure, end_line, settled_text};

use crate::line::Part;
use crate::looked::{print_out_so, print_told_so};
use crate::looks::Looks;
use crate::pieces::{Piece, print};
use crate::printed::print_refusal;
use crate::row_list::RowList;
use crate::rows::print_table;
use crate::shown::print_part;
use node_world::{Out, World};
use record_key::Refusal;
use stable::{CrashLog, CrashPages};
use std::io;

/// What a line came to.
#[derive(Drop)]
pub enum LineResult {
    /// One event, or a refusal before any.
    Event(Out),
    /// The outputs of settling, and how it ended.
    Settled {
        outs: Vec<Out>,
        end: Result<bool, Refusal>,
    },
    /// The records as they are.
    Table(RowList),
    /// Every message was let go.
    Forgotten,
    /// A part of the node is to be printed.
    Shown(Part),
}

impl LineResult {
    ghost use Rattle.shell_scripts.specs.Text.{has_failed, result_text};

    /// Whether memory or a device failed.
    pub fn has_failed(&self) -> bool
        ensures { result ≡ has_failed self.now }
    {
        match self {
            LineResult::Event(Out::Refused(refusal)) => is_failure(*refusal),
            LineResult::Settled {
                end: Err(refusal),
                ..
            } => is_failure(*refusal),
            _ => false,
        }
    }

    /// Writes its lines, rows as their scans want it. A part that is shown is one of the world as it is.
    pub fn print<D: CrashLog, P: CrashPages, W: io::Write>(
        &self,
        world: &World<D, P>,
        looks: &Looks,
        writer: &mut W,
    ) -> io::Result<()>
        ensures { Prints (W.contents writer.old) (W.contents writer.new) result
            (result_text self.now world.now looks.now.scans.items) }
    {
        match self {
            LineResult::Event(out) => print_out_so(writer, looks, out),
            LineResult::Settled { outs, end } => {
                print_settled(writer, looks, outs.as_slice(), end)
            }
            LineResult::Table(rows) => print_table(writer, rows.as_slice()),
            LineResult::Forgotten => print(writer, &[Piece::Text("forgotten\n")]),
            LineResult::Shown(part) => print_part(writer, *part, world),
        }
    }
}

fn is_failure(refusal: Refusal) -> bool
    ensures { result ≡ is_failure refusal }
{
    matches!(refusal, Refusal::NoMemory | Refusal::Device)
}

/// What clients were told while the node settled, and how it ended.
fn print_settled<W: io::Write>(
    writer: &mut W,
    looks: &Looks,
    outs: &[Out],
    end: &Result<bool, Refusal>,
) -> io::Result<()>
    ensures { Prints (W.contents writer.old) (W.contents writer.new) result
        (settled_text looks.now.scans.items outs.now end.now) }
{
    print_all_told(writer, looks, outs)?;
    print_end(writer, end)
}

fn print_all_told<W: io::Write>(writer: &mut W, looks: &Looks, outs: &[Out]) -> io::Result<()>
    ensures { Prints (W.contents writer.old) (W.contents writer.new) result
        (flat_map (told_so looks.now.scans.items) outs.now) }
{
    for out in outs {
        print_told_so(writer, looks, out)?;
    }
    Ok(())
}

fn print_end<W: io::Write>(writer: &mut W, end: &Result<bool, Refusal>) -> io::Result<()>
    ensures { Prints (W.contents writer.old) (W.contents writer.new) result (end_line end.now) }
{
    match end {
        Ok(true) => print(writer, &[Piece::Text("settled\n")]),
        Ok(false) => print(writer, &[Piece::Text("paused\n")]),
        Err(refusal) => print_refusal(writer, *refusal),
    }
}
