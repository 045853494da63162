//! The store of the folder, or a log in memory, opened and closed again.
use crate::files::FOLDER;
use file_devices::{FileLog, NoPages, StoreError, open_store, read_store, reopen_store};
use node_store::{Cause, open};
use record_key::Refusal;
use shell_scripts::{DONE, run_on};
use stable::{LogDevice, MemLog, MemPages};
use std::fmt::Write;
use test_lines::put_refusal;

/// Why a store isn't opened, or no node made of it.
#[derive(Clone, Copy)]
pub enum Refused {
    Store(StoreError),
    Node(Cause),
}

/// What a store is opened for.
#[derive(Clone, Copy)]
pub enum Way {
    /// It is made where it isn't there.
    Writing,
    /// It is to be there.
    Again,
    Reading,
}

/// Opens the store, runs the script on it, appends the script's text and closes it. Gives the exit status.
fn run_script(
    rt: &HostRuntime,
    way: Way,
    script: &[u8],
    text: &mut Vec<u8>,
) -> Result<u8, Refused> {
    let alloc = rt.alloc();
    let opened = match way {
        Way::Writing => open_store(rt, FOLDER),
        Way::Again => reopen_store(rt, FOLDER),
        Way::Reading => read_store(rt, FOLDER),
    };
    match opened {
        Ok(log) => match open(alloc, log, FileLog::volatile(alloc), NoPages::new()) {
            Ok(world) => Ok(run_on(alloc, world, true, &mut { script }, text)),
            Err(left) => Err(Refused::Node(left.cause)),
        },
        Err(why) => Err(Refused::Store(why)),
    }
}

/// Appends what the script comes to on the store: the lines of its text with `; ` between two, and the exit status if
/// it isn't 0; or why it isn't run. Gives whether it is.
pub fn put_run(
    rt: &HostRuntime,
    way: Way,
    script: &[u8],
    answer: &mut String,
) -> Result<bool, Refusal> {
    let mut text = Vec::new(rt.alloc());
    match run_script(rt, way, script, &mut text) {
        Ok(status) => {
            put_text(&text, status, answer)?;
            Ok(true)
        }
        Err(why) => {
            put_why(why, answer)?;
            Ok(false)
        }
    }
}

/// Appends the same of a log in memory that has these bytes.
pub fn put_run_in_memory(
    rt: &HostRuntime,
    bytes: &[u8],
    script: &[u8],
    answer: &mut String,
) -> Result<(), Refusal> {
    let mut text = Vec::new(rt.alloc());
    match run_in_memory(rt, bytes, script, &mut text) {
        Ok(status) => put_text(&text, status, answer),
        Err(cause) => put_unopened(cause, answer),
    }
}

fn run_in_memory(
    rt: &HostRuntime,
    bytes: &[u8],
    script: &[u8],
    text: &mut Vec<u8>,
) -> Result<u8, Cause> {
    let alloc = rt.alloc();
    let mut log = MemLog::new(alloc);
    if log.append(bytes).is_err() || log.force().is_err() {
        return Err(Cause::Refused(Refusal::NoMemory));
    }
    match open(alloc, log, MemLog::new(alloc), MemPages::new(alloc)) {
        Ok(world) => Ok(run_on(alloc, world, true, &mut { script }, text)),
        Err(left) => Err(left.cause),
    }
}

/// The lines of a text, and the exit status if it isn't 0.
fn put_text(text: &[u8], status: u8, answer: &mut String) -> Result<(), Refusal> {
    put_lines(text, answer)?;
    if status != DONE {
        write!(answer, "; status {status}")?;
    }
    Ok(())
}

fn put_why(why: Refused, answer: &mut String) -> Result<(), Refusal> {
    match why {
        Refused::Store(why) => put_store_error(why, answer),
        Refused::Node(cause) => put_unopened(cause, answer),
    }
}

fn put_lines(text: &[u8], answer: &mut String) -> Result<(), Refusal> {
    let text = text.strip_suffix(b"\n").unwrap_or(text);
    for byte in text {
        if *byte == b'\n' {
            answer.push_str("; ")?;
        } else {
            answer.push(char::from(*byte))?;
        }
    }
    Ok(())
}

/// Appends the name of the error, and for Io what was tried of which file.
pub fn put_store_error(why: StoreError, answer: &mut String) -> Result<(), Refusal> {
    match why {
        StoreError::Locked => answer.push_str("Locked")?,
        StoreError::NotAStore => answer.push_str("NotAStore")?,
        StoreError::Version => answer.push_str("Version")?,
        StoreError::NotAFile { file } => write!(answer, "NotAFile {file}")?,
        StoreError::Emptied => answer.push_str("Emptied")?,
        StoreError::Damaged { place } => write!(answer, "Damaged {place}")?,
        StoreError::NotAPage => answer.push_str("NotAPage")?,
        StoreError::PageDamaged { id } => write!(answer, "PageDamaged {id}")?,
        StoreError::Io { tried, file, .. } => write!(answer, "Io {tried} {file}")?,
        StoreError::NoMemory => return Err(Refusal::NoMemory),
    }
    Ok(())
}

fn put_unopened(cause: Cause, answer: &mut String) -> Result<(), Refusal> {
    match cause {
        Cause::Refused(Refusal::NoMemory) => return Err(Refusal::NoMemory),
        Cause::Refused(refusal) => put_refusal(answer, refusal)?,
        Cause::Checkpoint(number) => write!(answer, "Checkpoint {number}")?,
        Cause::WrongAnswer(number) => write!(answer, "WrongAnswer {number}")?,
    }
    Ok(())
}
