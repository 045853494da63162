//! A store is looked at: whether it can be opened, and what its log has.
ghost use Rattle.std.specs.Prelude.{◌≡◌, [], IfOk};

use crate::progress::Progress;
use crate::rising::bring_to_rest;
use crate::stored::{
    Node, announce_renewal, print_unopened, print_unread, print_wanting, unsettled_on,
};
use crate::terminals::Terminals;
use file_devices::{FileLog, NoPages, StoreError, count_blocks, read_store};
use history::Record;
use node_store::{Cause, renew};
use record_key::Refusal;
use shell_scripts::{DONE, FAILED};
use std::fs::{File, Files};
use std::time::Clock;

/// What a store has.
#[derive(Clone, Copy)]
struct Contents {
    records: u64,
    committed: u64,
    /// Transactions that an opening undoes.
    open: u64,
    rows: u64,
    bytes: u64,
    /// How many bytes of log a compaction would leave.
    compacted: u64,
}

/// Prints what the log of the store in this folder has, or why it can't be opened. Nothing of the store is changed.
pub fn check<R>(rt: &R, terminals: Terminals, folder: Option<&str>) -> u8
where
    R: Print + Eprint + AllocGlobal + Files<File = File> + Clock + Copy,
{
    let Some(folder) = folder else {
        return print_wanting(rt, "check");
    };
    match read(rt, folder) {
        Ok((log, blocks)) => check_log(rt, terminals, folder, log, blocks),
        Err(error) => print_unopened(rt, folder, &error),
    }
}

/// The log of the store, and how many blocks its file has.
fn read<R>(rt: &R, folder: &str) -> Result<(FileLog, u64), StoreError>
where
    R: AllocGlobal + Files<File = File> + Copy,
    ensures { IfOk result (λ read. read.0.pending ≡ []) }
{
    let log = read_store(rt, folder)?;
    let blocks = count_blocks(rt, folder)?;
    Ok((log, blocks))
}

fn check_log<R>(rt: &R, terminals: Terminals, folder: &str, log: FileLog, blocks: u64) -> u8
where
    R: Print + Eprint + AllocGlobal + Files<File = File> + Clock,
    requires { log.pending ≡ [] }
{
    match unsettled_on(rt, terminals, folder, log) {
        Ok(mut node) => match look(rt, terminals, &mut node) {
            Ok(contents) => print_contents(rt, blocks, &contents),
            Err(refusal) => print_unread(rt, folder, Cause::Refused(refusal)),
        },
        Err(status) => status,
    }
}

/// What the node has that was opened on the log, and what is left of that once it is at rest.
fn look<R>(rt: &R, terminals: Terminals, node: &mut Node) -> Result<Contents, Refusal>
where
    R: Eprint + AllocGlobal + Clock,
{
    let records = node.records()?;
    let bytes = node.stable_bytes()?.len() as u64;
    let mut progress = Progress::new(rt, terminals.errors);
    let ends = ends(rt, node, records, &mut progress);
    progress.end(rt);
    let (committed, open) = ends?;
    bring_to_rest(rt, terminals, node)?;
    Ok(Contents {
        records,
        committed,
        open,
        rows: node.rows()?.len() as u64,
        bytes,
        compacted: compacted(rt, terminals, node)?,
    })
}

/// How many transactions have committed, and how many have neither done so nor ended.
fn ends<R: Eprint + Clock>(
    rt: &R,
    node: &Node,
    records: u64,
    progress: &mut Progress,
) -> Result<(u64, u64), Refusal> {
    let mut begun = 0u64;
    let mut committed = 0u64;
    let mut ended = 0u64;
    for number in 1..=records {
        match node.record(number)? {
            Some(Record::Begin) => begun = begun.saturating_add(1),
            Some(Record::Commit { .. }) => committed = committed.saturating_add(1),
            Some(Record::End { .. }) => ended = ended.saturating_add(1),
            _ => {}
        }
        progress.tell(rt, number, "records");
    }
    Ok((
        committed,
        begun.saturating_sub(committed).saturating_sub(ended),
    ))
}

/// How many bytes the log of a renewed node has.
fn compacted<R>(rt: &R, terminals: Terminals, node: &Node) -> Result<u64, Refusal>
where
    R: Eprint + AllocGlobal + Clock,
{
    let progress = announce_renewal(rt, terminals, node);
    let len = renewed_len(rt, node);
    progress.end(rt);
    len
}

fn renewed_len<R: AllocGlobal>(rt: &R, node: &Node) -> Result<u64, Refusal> {
    let log = FileLog::volatile(rt.alloc());
    let tree = FileLog::volatile(rt.alloc());
    match renew(rt.alloc(), node, log, tree, NoPages::new()) {
        Ok(renewed) => log_len(&renewed),
        Err(left) => Err(left.refusal),
    }
}

// (whoever has a node by value is dear to check with each way out)
fn log_len(node: &Node) -> Result<u64, Refusal> {
    Ok(node.stable_bytes()?.len() as u64)
}

fn print_contents<R: Print>(rt: &R, blocks: u64, contents: &Contents) -> u8 {
    let Contents {
        records,
        committed,
        open,
        rows,
        bytes,
        compacted,
    } = contents;
    let written = println!(rt;
        "blocks {blocks}\nbytes {bytes}\nrecords {records}\ncommitted {committed}\nopen {open}\nrows {rows}\ncompacted {compacted}"
    );
    match written {
        Ok(()) => DONE,
        Err(_) => FAILED,
    }
}
