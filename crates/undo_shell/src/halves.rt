//! One half of a node in this process, whose other half is elsewhere.
ghost use Rattle.std.specs.Prelude.{◌≡◌, []};

use crate::stored::{print_failure, print_faulty, print_unopened, print_unread, print_wanting};
use file_devices::{FileLog, NoPages, open_pages, open_store};
use node_store::Cause;
use record_key::Refusal;
use shell_halves::{Dc, Player, Served, Stop, Wire, open_data, open_player, serve};
use shell_scripts::{DONE, FAILED, FAULT, first_fault, print_refusal, print_table};
use stable::PageDevice;
use std::fs::{File, Files};
use std::io::{Read, Write};
use std::{fs, io, str};

/// Standard error, as a writer of text.
#[derive(Drop)]
struct ErrorText<'a, R> {
    to: &'a R,
}

impl<R: Eprint> Write for ErrorText<'_, R> {
    fn write(&mut self, bytes: &[u8]) -> io::Result<usize> {
        match str::from_utf8(bytes) {
            Ok(text) => eprint!(self.to; "{text}")?,
            Err(_) => return Err(io::ErrorKind::InvalidData.into()),
        }
        Ok(bytes.len())
    }

    fn flush(&mut self) -> io::Result<()> {
        Ok(())
    }
}

/// Serves requests until no more come, with the log of leaves and their pages in the store of this folder, or with that
/// log in memory and no page. Then it tells on standard error what became of them, and which records there are.
pub fn serve_requests<R>(rt: &R, folder: Option<&str>) -> u8
where
    R: Input + Print + Eprint + AllocGlobal + Files<File = File> + Copy,
{
    match folder {
        Some(folder) => serve_store(rt, folder),
        None => serve_on(rt, "memory", FileLog::volatile(rt.alloc()), NoPages::new()),
    }
}

fn serve_store<R>(rt: &R, folder: &str) -> u8
where
    R: Input + Print + Eprint + AllocGlobal + Files<File = File> + Copy,
{
    match open_store(rt, folder) {
        Ok(log) => serve_log(rt, folder, log),
        Err(error) => print_unopened(rt, folder, &error),
    }
}

fn serve_log<R>(rt: &R, folder: &str, log: FileLog) -> u8
where
    R: Input + Print + Eprint + AllocGlobal + Files<File = File> + Copy,
    requires { log.pending ≡ [] }
{
    let pages = match open_pages(rt, folder) {
        Ok(pages) => pages,
        Err(error) => return print_unopened(rt, folder, &error),
    };
    let of_log = log.failure();
    let of_pages = pages.failure();
    let status = serve_on(rt, folder, log, pages);
    let status = print_failure(rt, folder, of_log, status);
    print_failure(rt, folder, of_pages, status)
}

fn serve_on<R, P>(rt: &R, folder: &str, log: FileLog, pages: P) -> u8
where
    R: Input + Print + Eprint + AllocGlobal + Files<File = File>,
    P: PageDevice + Drop,
    requires { log.pending ≡ [] }
{
    match open_data(rt.alloc(), log, pages) {
        Ok(mut data) => serve_streams(rt, &mut data),
        Err(refusal) => print_unread(rt, folder, Cause::Refused(refusal)),
    }
}

fn serve_streams<R, P>(rt: &R, data: &mut Dc<FileLog, P>) -> u8
where
    R: Input + Print + Eprint + AllocGlobal,
    P: PageDevice,
{
    match serve(rt.alloc(), data, &mut rt.reader(), &mut io::writer(rt)) {
        Ok(served) => tell_served(rt, served, data),
        Err(_) => FAILED,
    }
}

fn tell_served<R: Eprint, P: PageDevice>(rt: &R, served: Served, data: &Dc<FileLog, P>) -> u8 {
    let Served { done, refused, bad } = served;
    let Ok(rows) = data.rows() else {
        return FAILED;
    };
    match eprintln!(rt; "done {done} refused {refused} bad {bad}") {
        Ok(()) => {}
        Err(_) => return FAILED,
    }
    match print_table(&mut ErrorText { to: rt }, rows.as_slice()) {
        Ok(()) => DONE,
        Err(_) => FAILED,
    }
}

/// Plays the script of a file on the store in this folder, and tells on standard error what its lines come to.
pub fn play_script<R>(rt: &R, folder: Option<&str>, script: Option<&str>) -> u8
where
    R: Input + Print + Eprint + AllocGlobal + Files<File = File> + Copy,
{
    let Some(folder) = folder else {
        return print_wanting(rt, "tc");
    };
    let Some(file) = script else {
        return print_faulty(rt, "tc wants a script: --script FILE");
    };
    match read_file(rt, file) {
        Ok(script) => play_checked(rt, folder, script.as_slice()),
        Err(_) => print_faulty(rt, "the script cannot be read"),
    }
}

fn read_file<R: AllocGlobal + Files<File = File>>(rt: &R, file: &str) -> io::Result<Vec<u8>> {
    let mut script = Vec::new(rt.alloc());
    fs::open(rt, file)?.read_to_end(&mut script)?;
    Ok(script)
}

fn play_checked<R>(rt: &R, folder: &str, script: &[u8]) -> u8
where
    R: Input + Print + Eprint + AllocGlobal + Files<File = File> + Copy,
{
    if let Some(line) = first_fault(script) {
        let _ = print_refusal(&mut ErrorText { to: rt }, Refusal::BadScript(line));
        return FAULT;
    }
    match open_store(rt, folder) {
        Ok(log) => play_on(rt, folder, script, log),
        Err(error) => print_unopened(rt, folder, &error),
    }
}

fn play_on<R>(rt: &R, folder: &str, script: &[u8], log: FileLog) -> u8
where
    R: Input + Print + Eprint + AllocGlobal + Files<File = File>,
    requires { log.pending ≡ [] }
{
    let failure = log.failure();
    match open_player(rt.alloc(), log) {
        Ok(mut player) => {
            let status = played(rt, script, &mut player);
            print_failure(rt, folder, failure, status)
        }
        Err(refusal) => print_unread(rt, folder, Cause::Refused(refusal)),
    }
}

fn played<R>(rt: &R, script: &[u8], player: &mut Player<FileLog>) -> u8
where
    R: Input + Print + Eprint,
{
    let mut wire = Wire {
        reader: &mut rt.reader(),
        writer: &mut io::writer(rt),
        text: &mut ErrorText { to: rt },
    };
    let stopped = player.play(script, &mut wire);
    tell_received(rt, player, status_of(stopped))
}

fn status_of(stopped: Result<(), Stop>) -> u8 {
    match stopped {
        Ok(()) => DONE,
        Err(Stop::Elsewhere) => FAULT,
        Err(_) => FAILED,
    }
}

fn tell_received<R: Eprint>(rt: &R, player: &Player<FileLog>, status: u8) -> u8 {
    let received = player.received();
    match eprintln!(rt;
        "sent {} again {} heard {} repeated {} stale {} bad {}",
        received.sent,
        received.again,
        received.heard,
        received.repeated,
        received.stale,
        received.bad
    ) {
        Ok(()) => status,
        Err(_) => FAILED,
    }
}
