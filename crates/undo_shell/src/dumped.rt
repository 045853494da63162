//! The records of a store as a text, which `load` reads again.
ghost use Rattle.std.specs.Prelude.{◌≡◌, ◌<◌, true, length};
ghost use Rattle.shell_scripts.specs.View.{leaves_shown};

use crate::progress::Progress;
use crate::stored::{Node, finish, node_to_read};
use crate::terminals::Terminals;
use codec::LentRows;
use record_key::Refusal;
use shell_scripts::{DONE, FAILED, Stopping, print_row, refuse};
use std::fs::{File, Files};
use std::io;
use std::io::{BufWriter, Write};
use std::time::Clock;

/// Prints the records of the store in this folder, as the line `table` of a script does. Nothing of the store is changed.
pub fn dump<R>(rt: &R, terminals: Terminals, folder: Option<&str>) -> u8
where
    R: Print + Eprint + AllocGlobal + Files<File = File> + Clock + Copy,
{
    match node_to_read(rt, terminals, folder, "dump") {
        Ok(node) => print_records(rt, terminals, &node),
        Err(status) => status,
    }
}

fn print_records<R>(rt: &R, terminals: Terminals, node: &Node) -> u8
where
    R: Print + Eprint + AllocGlobal + Clock,
{
    let Ok(mut writer) = BufWriter::new(rt.alloc(), Stopping::new(io::writer(rt))) else {
        return refuse(&mut io::writer(rt), Refusal::NoMemory, FAILED);
    };
    let Ok(leaves) = node.leaves() else {
        return refuse(&mut writer, Refusal::NotConnected, FAILED);
    };
    let mut progress = Progress::new(rt, terminals.errors & !terminals.output);
    let written = put_leaves(rt, &mut writer, node, leaves, &mut progress);
    progress.end(rt);
    match written {
        Ok(()) => finish(&mut writer, DONE),
        Err(_) => FAILED,
    }
}

/// The records of each leaf, and how many they are.
fn put_leaves<R, W>(
    rt: &R,
    writer: &mut W,
    node: &Node,
    leaves: usize,
    progress: &mut Progress,
) -> io::Result<()>
where
    R: Eprint + Clock,
    W: Write,
    requires up { node.now.dc_up ≡ true }
    requires all { leaves ≡ length (leaves_shown node.now) }
{
    let mut count = 0u64;
    for place in 0..leaves {
        let rows = node.leaf(place).rows();
        count = count.saturating_add(rows.len() as u64);
        put_rows(writer, rows)?;
        progress.tell(rt, place as u64, "leaves");
    }
    writeln!(writer, "rows {count}")
}

fn put_rows<W: Write>(writer: &mut W, rows: LentRows<'_>) -> io::Result<()> {
    let mut rows = rows;
    for _ in 0..rows.len() {
        let Some((key, value)) = rows.next() else {
            break;
        };
        print_row(writer, &key, &value)?;
    }
    Ok(())
}
