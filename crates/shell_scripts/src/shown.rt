//! What is printed of a node: its log or its leaves.
ghost use Rattle.std.specs.Prelude.{◌≡◌, true, false, length, flat_map, IfOk, IfErr, OnOk, OnErr};
ghost use Rattle.history.specs.Log.{record_at};
ghost use Rattle.shell_scripts.specs.Printed.{Prints};
ghost use Rattle.shell_scripts.specs.Logged.{line_at, lines_to, log_text};
ghost use Rattle.shell_scripts.specs.Stored.{leaf_line};
ghost use Rattle.shell_scripts.specs.View.{log_shown, log_if_up, leaves_shown, leaves_text, stable_of, part_text};

use crate::leaves::print_leaf;
use crate::line::Part;
use crate::logged::print_record;
use crate::pieces::{Piece, print};
use crate::printed::print_refusal;
use node_world::World;
use record_key::Refusal;
use stable::{CrashLog, CrashPages};
use std::io;

/// The lines of this part of the world as it is.
pub fn print_part<D: CrashLog, P: CrashPages, W: io::Write>(
    writer: &mut W,
    part: Part,
    world: &World<D, P>,
) -> io::Result<()>
    ensures { Prints (W.contents writer.old) (W.contents writer.new) result (part_text part world.now) }
{
    match part {
        Part::Log => print_log(writer, world),
        Part::Leaves => print_leaves(writer, world),
    }
}

/// The lines of the leaves, or that the data component is down.
fn print_leaves<D: CrashLog, P: CrashPages, W: io::Write>(
    writer: &mut W,
    world: &World<D, P>,
) -> io::Result<()>
    ensures { Prints (W.contents writer.old) (W.contents writer.new) result
        (leaves_text world.now.dc_up (leaves_shown world.now)) }
{
    match world.leaves() {
        Ok(count) => print_each_leaf(writer, world, count),
        Err(refusal) => print_refusal(writer, refusal),
    }
}

/// The lines of the leaves, of which there are so many.
fn print_each_leaf<D: CrashLog, P: CrashPages, W: io::Write>(
    writer: &mut W,
    world: &World<D, P>,
    count: usize,
) -> io::Result<()>
    requires up { world.now.dc_up ≡ true }
    requires all { count ≡ length (leaves_shown world.now) }
    ensures { Prints (W.contents writer.old) (W.contents writer.new) result (flat_map leaf_line (leaves_shown world.now)) }
{
    for place in 0..count {
        print_leaf(writer, world.leaf(place))?;
    }
    Ok(())
}

/// The lines of the log, or that the transaction component is down.
fn print_log<D: CrashLog, P: CrashPages, W: io::Write>(
    writer: &mut W,
    world: &World<D, P>,
) -> io::Result<()>
    ensures { Prints (W.contents writer.old) (W.contents writer.new) result
        (log_if_up world.now.tc_up (log_shown world.now) (stable_of world.now)) }
{
    match log_ends(world) {
        Ok((count, stable)) => print_whole_log(writer, world, count, stable),
        Err(refusal) => print_refusal(writer, refusal),
    }
}

/// How many records the log has, and how many of them are stable. Refused NotConnected.
fn log_ends<D: CrashLog, P: CrashPages>(world: &World<D, P>) -> Result<(u64, u64), Refusal>
    ensures count { IfOk result (λ ends. ends.0 ≡ length (log_shown world.now)) }
    ensures stable { IfOk result (λ ends. ends.1 ≡ stable_of world.now) }
    ensures up { OnOk result (world.now.tc_up ≡ true) }
    ensures refused { IfErr result (λ refusal. refusal ≡ Refusal.NotConnected) }
    ensures down { OnErr result (world.now.tc_up ≡ false) }
{
    Ok((world.records()?, world.stable_end()?))
}

/// The lines of the records, of which there are so many, and the one behind them, up to which they are stable.
fn print_whole_log<D: CrashLog, P: CrashPages, W: io::Write>(
    writer: &mut W,
    world: &World<D, P>,
    count: u64,
    stable: u64,
) -> io::Result<()>
    requires up { world.now.tc_up ≡ true }
    requires all { count ≡ length (log_shown world.now) }
    requires stable { stable ≡ stable_of world.now }
    ensures { Prints (W.contents writer.old) (W.contents writer.new) result
        (log_text (log_shown world.now) (stable_of world.now)) }
{
    print_records(writer, world, count)?;
    print(
        writer,
        &[
            Piece::Text("records "),
            Piece::Number(count),
            Piece::Text(" stable "),
            Piece::Number(stable),
            Piece::Text("\n"),
        ],
    )
}

/// The lines of the first records, so many of them.
fn print_records<D: CrashLog, P: CrashPages, W: io::Write>(
    writer: &mut W,
    world: &World<D, P>,
    count: u64,
) -> io::Result<()>
    requires { world.now.tc_up ≡ true }
    ensures { Prints (W.contents writer.old) (W.contents writer.new) result (lines_to (log_shown world.now) count) }
{
    for before in 0..count {
        print_at(writer, world, before + 1)?;
    }
    Ok(())
}

/// The line of the record of this number.
fn print_at<D: CrashLog, P: CrashPages, W: io::Write>(
    writer: &mut W,
    world: &World<D, P>,
    lsn: u64,
) -> io::Result<()>
    requires { world.now.tc_up ≡ true }
    ensures { Prints (W.contents writer.old) (W.contents writer.new) result
        (line_at lsn (record_at (log_shown world.now) lsn)) }
{
    match world.record(lsn) {
        Ok(Some(entry)) => print_record(writer, lsn, &entry),
        Ok(None) => Ok(()),
        Err(_) => unreachable!(),
    }
}
