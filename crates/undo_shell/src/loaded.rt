//! Records are put into a store, as a text tells them.
ghost use Rattle.std.specs.Prelude.{◌≡◌, []};

use crate::progress::Progress;
use crate::script::{read_script, told};
use crate::stored::{
    Node, Opening, node_on, opened, print_failure, print_missing, print_unopened, print_wanting,
};
use crate::terminals::Terminals;
use file_devices::{FileLog, StoreError};
use node_world::{Event, Out, settle};
use record_key::{Key, Op, Refusal, Value};
use shell_scripts::{DONE, FAILED, FAULT, cut_at, number_of, refuse, written};
use std::fs::{File, Files};
use std::io;
use std::time::Clock;

/// The leaves are split once so many records are put.
const SPLIT_EACH: u64 = 512;

/// What is wrong with a text of records.
#[derive(Clone, Copy)]
enum Fault {
    /// The line of this number is no record.
    Line(u64),
    /// It ends before its line `rows N`.
    Cut,
    /// It says that it has so many records, and has others.
    Count { said: u64, found: u64 },
    /// Something stands behind that line.
    Behind,
}

/// Puts the records that standard input tells of into the store in this folder: all of them, by one transaction, or none.
pub fn load<R>(rt: &R, terminals: Terminals, folder: Option<&str>, creates: bool) -> u8
where
    R: Input + Print + Eprint + AllocGlobal + Files<File = File> + Clock + Copy,
{
    let Some(folder) = folder else {
        return print_wanting(rt, "load");
    };
    let text = match read_script(rt) {
        Ok(text) => text,
        Err(refusal) => return refuse(&mut io::writer(rt), refusal, FAILED),
    };
    match check_text(&text) {
        Ok(()) => load_text(rt, terminals, folder, creates, &text),
        Err(fault) => print_wrong(rt, fault),
    }
}

fn load_text<R>(rt: &R, terminals: Terminals, folder: &str, creates: bool, text: &[u8]) -> u8
where
    R: Print + Eprint + AllocGlobal + Files<File = File> + Clock + Copy,
{
    let opening = if creates {
        Opening::Making
    } else {
        Opening::Writing
    };
    match opened(rt, folder, opening) {
        Ok(log) => load_log(rt, terminals, folder, log, text),
        Err(StoreError::NotAStore) => print_missing(rt, folder, opening),
        Err(error) => print_unopened(rt, folder, &error),
    }
}

fn load_log<R>(rt: &R, terminals: Terminals, folder: &str, log: FileLog, text: &[u8]) -> u8
where
    R: Print + Eprint + AllocGlobal + Files<File = File> + Clock,
    requires { log.pending ≡ [] }
{
    let failure = log.failure();
    match node_on(rt, terminals, folder, log) {
        Ok(mut node) => {
            let mut progress = Progress::new(rt, terminals.errors);
            let put = put_all(rt, &mut node, text, &mut progress);
            progress.end(rt);
            let status = print_put(rt, folder, put);
            print_failure(rt, folder, failure, status)
        }
        Err(status) => status,
    }
}

/// Prints how many records were put, or to standard error why none was.
fn print_put<R: Print + Eprint>(rt: &R, folder: &str, put: Result<u64, Refusal>) -> u8 {
    match put {
        Ok(count) => told(println!(rt; "{count} records are put"), DONE),
        Err(refusal) => told(
            eprintln!(rt; "undo_shell: {folder}: nothing is put: {refusal}"),
            FAILED,
        ),
    }
}

/// Puts each record of a text that was checked, and commits. Gives how many they are.
fn put_all<R>(rt: &R, node: &mut Node, text: &[u8], progress: &mut Progress) -> Result<u64, Refusal>
where
    R: Eprint + AllocGlobal + Clock,
{
    let txn = match node.step(&Event::Begin) {
        Out::Begun(txn) => txn,
        Out::Refused(refusal) => return Err(refusal),
        _ => return Err(Refusal::NotOpen),
    };
    let mut count = 0u64;
    for line in text.split(|byte| *byte == b'\n') {
        // Behind the records stands how many they are.
        let Some((key, value)) = row_in(line) else {
            break;
        };
        put(node, txn, Op::Upsert(key, value))?;
        count = count.saturating_add(1);
        if count % SPLIT_EACH == 0 {
            split_leaves(node)?;
        }
        progress.tell(rt, count, "records");
    }
    done(node.step(&Event::Commit { txn }))?;
    settle(node, None, &mut Vec::new(rt.alloc()))?;
    Ok(count)
}

/// Does the operation.
fn put(node: &mut Node, txn: u64, op: Op) -> Result<(), Refusal> {
    done(node.step(&Event::Act { txn, op }))?;
    done(node.step(&Event::Send { txn }))?;
    let number = node.requests();
    done(node.step(&Event::Request { number }))?;
    let number = node.replies();
    done(node.step(&Event::Reply { number }))?;
    node.forget();
    Ok(())
}

/// Makes the log stable, which frees the leaves, and splits those that are large.
fn split_leaves(node: &mut Node) -> Result<(), Refusal> {
    done(node.step(&Event::Force))?;
    done(node.step(&Event::Tell))?;
    let number = node.requests();
    done(node.step(&Event::Request { number }))?;
    for _ in 0..u64::MAX {
        match node.step(&Event::Tend) {
            Out::Nothing => break,
            out => done(out)?,
        }
    }
    node.forget();
    Ok(())
}

fn done(out: Out) -> Result<(), Refusal> {
    match out {
        Out::Refused(refusal) => Err(refusal),
        _ => Ok(()),
    }
}

/// Whether the text is lines of records, and behind them one that says how many.
fn check_text(text: &[u8]) -> Result<(), Fault> {
    let mut found = 0u64;
    let mut left = text;
    for _ in 0..text.len() {
        let (line, rest) = cut_at(left, b'\n');
        if row_in(line).is_none() {
            return check_end(line, rest.unwrap_or(b""), found);
        }
        found = found.saturating_add(1);
        let Some(rest) = rest else {
            break;
        };
        left = rest;
    }
    Err(Fault::Cut)
}

/// Whether the line behind so many records says that they are so many, and is the last.
fn check_end(line: &[u8], rest: &[u8], found: u64) -> Result<(), Fault> {
    match line.strip_prefix(b"rows ") {
        Some(_) if !rest.is_empty() => Err(Fault::Behind),
        Some(count) => match number_of(count) {
            Some(said) if said == found => Ok(()),
            Some(said) => Err(Fault::Count { said, found }),
            None => Err(Fault::Line(found.saturating_add(1))),
        },
        None if line.is_empty() && rest.is_empty() => Err(Fault::Cut),
        None => Err(Fault::Line(found.saturating_add(1))),
    }
}

/// Prints to standard error what is wrong with a text of records.
fn print_wrong<R: Eprint>(rt: &R, fault: Fault) -> u8 {
    let written = match fault {
        Fault::Line(number) => {
            eprintln!(rt;
                "undo_shell: line {number} is no record `K=V`, nor `rows N`: nothing is put"
            )
        }
        Fault::Cut => eprintln!(rt;
            "undo_shell: the text is cut: `rows N` isn't its last line: nothing is put"
        ),
        Fault::Count { said, found } => {
            eprintln!(rt;
                "undo_shell: the text has {found} records, and says {said}: nothing is put"
            )
        }
        Fault::Behind => eprintln!(rt;
            "undo_shell: something stands behind the line `rows N`: nothing is put"
        ),
    };
    told(written, FAULT)
}

/// The record that a line tells of, as `table` prints it.
fn row_in(line: &[u8]) -> Option<(Key, Value)> {
    let (key, value) = cut_at(line, b'=');
    let key = written(key)?;
    let value = written(value?)?;
    match (Key::new(key.as_bytes()), Value::new(value.as_bytes())) {
        (Ok(key), Ok(value)) => Some((key, value)),
        _ => None,
    }
}
