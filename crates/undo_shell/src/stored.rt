//! What is done with a store: a script is run on it, or its log is written anew.
ghost use Rattle.std.specs.Prelude.{◌≡◌, [], IfOk};

use crate::conversing::converse;
use crate::progress::Progress;
use crate::refusals::Counting;
use crate::rising::bring_to_rest;
use crate::script::{Manner, read_script, tell_run};
use crate::terminals::Terminals;
use file_devices::{
    FileLog, FirstFailure, NoPages, StoreError, StoreFile, Torn, Tried, first_len, open_store,
    place_in_file, read_store, reopen_store, replace_log,
};
use node_store::{Cause, open, renew};
use node_world::World;
use record_key::Refusal;
use shell_scripts::{DONE, FAILED, FAULT, Shell, Stopping, refuse, run_on};
use stable::LogDevice;
use std::fs::{File, Files};
use std::io;
use std::io::{LineWriter, Write};
use std::time::Clock;

pub type Node = World<FileLog, NoPages>;

/// So many bytes of a log are judged in about a second.
const JUDGED: u64 = 1 << 24;

/// So many records are written anew in about a second.
const RENEWED: u64 = 1 << 18;

/// A log of fewer bytes is left as it is.
const LONG: u64 = 1 << 22;

/// What a store is opened for.
#[derive(Clone, Copy)]
pub enum Opening {
    /// A run that leaves in it what it logs.
    Writing,
    /// The same, and it is made if it isn't there.
    Making,
    /// A look at it: nothing of the run is kept.
    Reading,
}

impl Opening {
    /// What these flags ask for, which exclude each other.
    pub fn of(reads_only: bool, creates: bool) -> Option<Opening> {
        match (reads_only, creates) {
            (true, true) => None,
            (true, false) => Some(Opening::Reading),
            (false, true) => Some(Opening::Making),
            (false, false) => Some(Opening::Writing),
        }
    }
}

/// Runs a script on the store in this folder.
pub fn run_stored<R>(
    rt: &R,
    terminals: Terminals,
    manner: Manner,
    opening: Opening,
    folder: &str,
) -> u8
where
    R: Input + Print + Eprint + AllocGlobal + Files<File = File> + Clock + Copy,
{
    match opened(rt, folder, opening) {
        Ok(log) => run_log(rt, terminals, manner, folder, log),
        Err(StoreError::NotAStore) => print_missing(rt, folder, opening),
        Err(error) => print_unopened(rt, folder, &error),
    }
}

/// The log of the store in this folder.
pub fn opened<R>(rt: &R, folder: &str, opening: Opening) -> Result<FileLog, StoreError>
where
    R: AllocGlobal + Files<File = File> + Copy,
    ensures { IfOk result (λ log. log.pending ≡ []) }
{
    match opening {
        Opening::Writing => reopen_store(rt, folder),
        Opening::Making => open_store(rt, folder),
        Opening::Reading => read_store(rt, folder),
    }
}

/// Writes the log of the store in this folder anew, and prints how many bytes it had and has.
pub fn compact<R>(rt: &R, terminals: Terminals, folder: Option<&str>) -> u8
where
    R: Print + Eprint + AllocGlobal + Files<File = File> + Clock + Copy,
{
    let Some(folder) = folder else {
        return print_wanting(rt, "compact");
    };
    match reopen_store(rt, folder) {
        Ok(log) => compact_log(rt, terminals, folder, log),
        Err(error) => print_unopened(rt, folder, &error),
    }
}

/// Runs a script on the log of the store in this folder, or on what is left of it where it is due to be written anew.
fn run_log<R>(rt: &R, terminals: Terminals, manner: Manner, folder: &str, log: FileLog) -> u8
where
    R: Input + Print + Eprint + AllocGlobal + Files<File = File> + Clock + Copy,
    requires { log.pending ≡ [] }
{
    let failure = log.failure();
    match node_on(rt, terminals, folder, log) {
        Ok(world) => {
            if !manner.keeps_log && is_renewal_due(rt, folder, &world) {
                return run_renewed(rt, terminals, manner, folder, world);
            }
            run_node(rt, manner, folder, failure, world)
        }
        Err(status) => status,
    }
}

/// Writes the log of a store anew on which this node is, and runs a script on that.
fn run_renewed<R>(
    rt: &R,
    terminals: Terminals,
    manner: Manner,
    folder: &str,
    world: Box<Node>,
) -> u8
where
    R: Input + Print + Eprint + AllocGlobal + Files<File = File> + Clock + Copy,
{
    if let Err(status) = written_anew(rt, terminals, folder, &world) {
        return status;
    }
    // It has the store open.
    drop(world);
    match reopen_store(rt, folder) {
        Ok(log) => run_renewed_log(rt, terminals, manner, folder, log),
        Err(error) => print_unopened(rt, folder, &error),
    }
}

fn run_renewed_log<R>(
    rt: &R,
    terminals: Terminals,
    manner: Manner,
    folder: &str,
    log: FileLog,
) -> u8
where
    R: Input + Print + Eprint + AllocGlobal + Files<File = File> + Clock,
    requires { log.pending ≡ [] }
{
    let failure = log.failure();
    match node_on(rt, terminals, folder, log) {
        Ok(world) => run_node(rt, manner, folder, failure, world),
        Err(status) => status,
    }
}

/// Runs a script on the node of a store, and tells what of its log the system has refused.
fn run_node<R>(
    rt: &R,
    manner: Manner,
    folder: &str,
    failure: Option<FirstFailure>,
    world: Box<Node>,
) -> u8
where
    R: Input + Print + Eprint + AllocGlobal,
{
    let status = run_world(rt, manner, Box::into_inner(world));
    print_failure(rt, folder, failure, status)
}

/// Whether the log of a store has grown long: it has so many bytes, and twice what its last compaction left.
fn is_renewal_due<R>(rt: &R, folder: &str, world: &Node) -> bool
where
    R: AllocGlobal + Files<File = File>,
{
    let Ok(bytes) = world.stable_bytes() else {
        return false;
    };
    let len = bytes.len() as u64;
    if len < LONG {
        return false;
    }
    match first_len(rt, folder) {
        Ok(left) => left <= len / 2,
        Err(_) => false,
    }
}

/// A node on the log of the store in this folder, which is only read, for a subcommand of this name. Else the exit status.
pub fn node_to_read<R>(
    rt: &R,
    terminals: Terminals,
    folder: Option<&str>,
    name: &str,
) -> Result<Box<Node>, u8>
where
    R: Eprint + AllocGlobal + Files<File = File> + Clock + Copy,
{
    let Some(folder) = folder else {
        return Err(print_wanting(rt, name));
    };
    match read_store(rt, folder) {
        Ok(log) => node_on(rt, terminals, folder, log),
        Err(error) => Err(print_unopened(rt, folder, &error)),
    }
}

/// A node on the log of the store in this folder, brought to rest; what its opening has left out is told first. Else the
/// exit status.
pub fn node_on<R>(rt: &R, terminals: Terminals, folder: &str, log: FileLog) -> Result<Box<Node>, u8>
where
    R: Eprint + AllocGlobal + Files<File = File> + Clock,
    requires { log.pending ≡ [] }
{
    let failure = log.failure();
    let mut world = unsettled_on(rt, terminals, folder, log)?;
    match bring_to_rest(rt, terminals, &mut world) {
        Ok(()) => Ok(world),
        Err(refusal) => Err(print_unsettled(rt, folder, failure, refusal)),
    }
}

/// A node on the log of the store in this folder, as it was opened.
pub fn unsettled_on<R>(
    rt: &R,
    terminals: Terminals,
    folder: &str,
    log: FileLog,
) -> Result<Box<Node>, u8>
where
    R: Eprint + AllocGlobal + Files<File = File> + Clock,
    requires { log.pending ≡ [] }
{
    if let Some(torn) = log.torn() {
        if print_torn(rt, folder, torn).is_err() {
            return Err(FAILED);
        }
    }
    let mut progress = Progress::new(rt, terminals.errors);
    progress.announce(rt, log.held().len() as u64, JUDGED, "bytes of log are read");
    let tree = FileLog::volatile(rt.alloc());
    let opened = open(rt.alloc(), log, tree, NoPages::new());
    progress.end(rt);
    let world = match opened {
        Ok(world) => world,
        Err(left) => return Err(print_unread(rt, folder, left.cause)),
    };
    match Box::new(rt.alloc(), world) {
        Ok(world) => Ok(world),
        Err(_) => Err(print_unread(rt, folder, Cause::Refused(Refusal::NoMemory))),
    }
}

/// Runs a script on a node that a store has, line by line as it is read or all of it.
fn run_world<R>(rt: &R, manner: Manner, world: Node) -> u8
where
    R: Input + Print + Eprint + AllocGlobal,
{
    if manner.is_interactive {
        converse(rt, manner, &mut Shell::on(rt.alloc(), world))
    } else {
        run_whole(rt, manner, world)
    }
}

/// Runs a whole script on a node that a store has. Each line of its text is written as soon as it ends: a client that reads of
/// a commit has it whatever becomes of the process, and one that has it should learn so before the process is gone.
fn run_whole<R>(rt: &R, manner: Manner, world: Node) -> u8
where
    R: Input + Print + Eprint + AllocGlobal,
{
    let script = match read_script(rt) {
        Ok(script) => script,
        Err(refusal) => return refuse(&mut io::writer(rt), refusal, FAILED),
    };
    let Ok(writer) = LineWriter::new(rt.alloc(), Stopping::new(io::writer(rt))) else {
        return refuse(&mut io::writer(rt), Refusal::NoMemory, FAILED);
    };
    let mut text = Counting::new(writer);
    let status = run_on(
        rt.alloc(),
        world,
        manner.continues,
        &mut script.as_slice(),
        &mut text,
    );
    let status = finish(&mut text, status);
    tell_run(rt, manner, &script, &text, status)
}

fn compact_log<R>(rt: &R, terminals: Terminals, folder: &str, log: FileLog) -> u8
where
    R: Print + Eprint + AllocGlobal + Files<File = File> + Clock,
    requires { log.pending ≡ [] }
{
    match node_on(rt, terminals, folder, log) {
        Ok(world) => compact_node(rt, terminals, folder, &world),
        Err(status) => status,
    }
}

fn compact_node<R>(rt: &R, terminals: Terminals, folder: &str, world: &Node) -> u8
where
    R: Print + Eprint + AllocGlobal + Files<File = File> + Clock,
{
    match written_anew(rt, terminals, folder, world) {
        Ok((had, has)) => match println!(rt; "{had} bytes of log are {has}") {
            Ok(()) => DONE,
            Err(_) => FAILED,
        },
        Err(status) => status,
    }
}

/// Writes the log of a store anew: how many bytes it had and has, or else the exit status. Nobody is open in a node that
/// was just opened, so its records alone make a log. The store is open all the while.
fn written_anew<R>(
    rt: &R,
    terminals: Terminals,
    folder: &str,
    world: &Node,
) -> Result<(usize, usize), u8>
where
    R: Eprint + AllocGlobal + Files<File = File> + Clock,
{
    let progress = announce_renewal(rt, terminals, world);
    let log = FileLog::volatile(rt.alloc());
    let tree = FileLog::volatile(rt.alloc());
    match renew(rt.alloc(), world, log, tree, NoPages::new()) {
        Ok(renewed) => {
            progress.end(rt);
            replaced(rt, folder, world, &renewed)
        }
        Err(left) => Err(print_unread(rt, folder, Cause::Refused(left.refusal))),
    }
}

/// Tells that the records of a log are about to be written anew.
pub fn announce_renewal<R>(rt: &R, terminals: Terminals, world: &Node) -> Progress
where
    R: Eprint + Clock,
{
    let mut progress = Progress::new(rt, terminals.errors);
    let records = world.records().unwrap_or(0);
    progress.announce(rt, records, RENEWED, "records of log are written anew");
    progress
}

/// The log of the renewed node takes the place of the other's: how many bytes they have. Else the exit status.
fn replaced<R>(rt: &R, folder: &str, world: &Node, renewed: &Node) -> Result<(usize, usize), u8>
where
    R: Eprint + AllocGlobal + Files<File = File>,
{
    match (world.stable_bytes(), renewed.stable_bytes()) {
        (Ok(old), Ok(new)) => match replace_log(rt, folder, new) {
            Ok(()) => Ok((old.len(), new.len())),
            Err(error) => Err(print_unopened(rt, folder, &error)),
        },
        (Err(refusal), _) | (_, Err(refusal)) => {
            Err(print_unread(rt, folder, Cause::Refused(refusal)))
        }
    }
}

/// Writes what of a text isn't written yet.
pub fn finish<W: Write>(writer: &mut W, status: u8) -> u8 {
    match writer.flush() {
        Ok(()) => status,
        Err(_) => FAILED,
    }
}

/// Prints to standard error where a torn block stands, and how much of it.
fn print_torn<R: Eprint>(rt: &R, folder: &str, torn: Torn) -> io::Result<()> {
    let file = StoreFile::Log;
    let Torn { place, len } = torn;
    eprintln!(rt;
        "undo_shell: {folder}: {file}: a torn block of {len} bytes at byte {place} is left out"
    )
}

/// Prints to standard error what is wrong with a command line.
pub fn print_faulty<R: Eprint>(rt: &R, fault: &str) -> u8 {
    match eprintln!(rt; "undo_shell: {fault}") {
        Ok(()) => FAULT,
        Err(_) => FAILED,
    }
}

/// Prints to standard error that a subcommand of this name is told no store.
pub fn print_wanting<R: Eprint>(rt: &R, name: &str) -> u8 {
    match eprintln!(rt; "undo_shell: {name} wants a store: --store FOLDER") {
        Ok(()) => FAULT,
        Err(_) => FAILED,
    }
}

/// Prints to standard error that there is no store, and how one is made.
pub fn print_missing<R: Eprint>(rt: &R, folder: &str, opening: Opening) -> u8 {
    let error = StoreError::NotAStore;
    let hint = match opening {
        Opening::Writing => "; --create makes one in an empty folder",
        Opening::Making => "; one is made in an empty folder alone",
        Opening::Reading => "",
    };
    match eprintln!(rt; "undo_shell: {folder}: {error}{hint}") {
        Ok(()) => FAULT,
        Err(_) => FAILED,
    }
}

/// Prints to standard error what the system first refused of a store's log, if it has refused anything. Gives the exit
/// status of the run that met it.
pub fn print_failure<R: Eprint>(
    rt: &R,
    folder: &str,
    failure: Option<FirstFailure>,
    status: u8,
) -> u8 {
    match first_of(&failure) {
        Some(error) => match eprintln!(rt; "undo_shell: {folder}: {error}") {
            Ok(()) => status,
            Err(_) => FAILED,
        },
        None => status,
    }
}

fn first_of(failure: &Option<FirstFailure>) -> Option<StoreError> {
    match failure {
        Some(failure) => failure.get(),
        None => None,
    }
}

/// Prints to standard error why a store's node didn't come to rest: what the system refused, if that is why.
fn print_unsettled<R: Eprint + AllocGlobal + Files<File = File>>(
    rt: &R,
    folder: &str,
    failure: Option<FirstFailure>,
    refusal: Refusal,
) -> u8 {
    match first_of(&failure) {
        Some(error) => print_unopened(rt, folder, &error),
        None => print_unread(rt, folder, Cause::Refused(refusal)),
    }
}

/// Prints to standard error why a store isn't opened, or not written.
pub fn print_unopened<R: Eprint>(rt: &R, folder: &str, error: &StoreError) -> u8 {
    let status = match error {
        StoreError::NoMemory => FAILED,
        StoreError::Io {
            tried: Tried::Write | Tried::Sync | Tried::Rename,
            ..
        } => FAILED,
        _ => FAULT,
    };
    match eprintln!(rt; "undo_shell: {folder}: {error}") {
        Ok(()) => status,
        Err(_) => FAILED,
    }
}

/// Prints to standard error why no node is made of a store's log.
pub fn print_unread<R: Eprint + AllocGlobal + Files<File = File>>(
    rt: &R,
    folder: &str,
    cause: Cause,
) -> u8 {
    let status = match cause {
        Cause::Refused(Refusal::NoMemory | Refusal::Device) => FAILED,
        _ => FAULT,
    };
    let file = StoreFile::Log;
    let cause = in_file(rt, folder, cause);
    match eprintln!(rt; "undo_shell: {folder}: {file}: {cause}") {
        Ok(()) => status,
        Err(_) => FAILED,
    }
}

/// The cause, with a place in the file where it has one in the log: whoever looks at the bytes has the file.
fn in_file<R: AllocGlobal + Files<File = File>>(rt: &R, folder: &str, cause: Cause) -> Cause {
    let Cause::Refused(Refusal::BadBytes(place)) = cause else {
        return cause;
    };
    match place_in_file(rt, folder, place) {
        Ok(Some(place)) => Cause::Refused(Refusal::BadBytes(place)),
        Ok(None) | Err(_) => cause,
    }
}
