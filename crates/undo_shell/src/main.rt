//! The program round the shell and the clients on threads: the command line, standard input and output, and the exit
//! status.
//!
//! Knows: where a script comes from and where a text goes. Must not know: what a script says, or what a client does.
//! Promises its user that a text is written whole, or a beginning of it with exit status 3.
#![tactic(auto)]

ghost use Rattle.std.specs.Prelude.{◌<◌};

mod checked;
mod conversing;
mod dumped;
mod halves;
mod loaded;
mod measured;
mod progress;
mod refusals;
mod rising;
mod script;
mod stored;
mod terminals;

use checked::check;
use clap::Error;
use clap::error::ErrorKind;
use conversing::converse_in_memory;
use dumped::dump;
use halves::{play_script, serve_requests};
use loaded::load;
use measured::measure;
use record_key::Refusal;
use refusals::Counting;
use script::{Manner, read_script, tell_fault, tell_line, tell_run, told};
use shell_command_line::{Task, choose};
use shell_pictures::draw;
use shell_pool::{Locks, pool};
use shell_scripts::{DONE, FAILED, FAULT, Stopping, refusal_of, refuse, run};
use shell_texts::explain;
use std::alloc::Global;
use std::fs::{File, Files};
use std::io::{BufWriter, Write};
use std::process::ExitCode;
use std::sync::Wait;
use std::thread::Threads;
use std::time::Clock;
use std::{env, io};
use stored::{Opening, compact, finish, print_faulty, print_wanting, run_stored};
use terminals::Terminals;

fn main(rt: HostRuntime) -> ExitCode {
    let status = match arguments(&rt) {
        Ok(words) => start(rt, Terminals::of(&rt), words.as_slice()),
        Err(error) => print_unread_words(&rt, &error),
    };
    ExitCode::from(status)
}

/// Prints why the command line isn't read: memory is refused, or a word of it is no text.
fn print_unread_words<R: Print + Eprint>(rt: &R, error: &io::Error) -> u8 {
    if refusal_of(error) == Refusal::NoMemory {
        return refuse(&mut io::writer(rt), Refusal::NoMemory, FAILED);
    }
    match eprintln!(rt; "undo_shell: a word of the command line isn't UTF-8") {
        Ok(()) => FAULT,
        Err(_) => FAILED,
    }
}

/// The command line, the program's name first.
fn arguments(rt: &HostRuntime) -> io::Result<Vec<String>> {
    Ok(env::args(rt)?.collect(rt.alloc())?)
}

/// Does what the command line asks for. Gives the exit status.
fn start<R>(rt: R, terminals: Terminals, words: &[String]) -> u8
where
    R: Input + Print + Eprint + AllocGlobal + Files<File = File> + Clock + Threads + Wait,
    R: Copy + Send + Sync + 'static,
{
    match choose(rt.alloc(), words) {
        Ok(
            Task::Run {
                continues,
                store,
                reads_only,
                creates,
                strict,
                interactive,
                keeps_log,
            },
        ) => {
            let manner = Manner {
                continues,
                strict,
                is_interactive: interactive | terminals.input,
                prompts: terminals.input & terminals.output,
                keeps_log: keeps_log | reads_only,
            };
            run_task(&rt, terminals, manner, store, (reads_only, creates))
        }
        Ok(
            Task::Pool {
                sessions,
                rounds,
                locks,
            },
        ) => play(rt, locks, sessions, rounds),
        Ok(task) => perform(&rt, terminals, task),
        Err(fault) => print_fault(&rt, &fault),
    }
}

/// Runs a script, on a store where one is named.
fn run_task<R>(
    rt: &R,
    terminals: Terminals,
    manner: Manner,
    store: Option<&str>,
    (reads_only, creates): (bool, bool),
) -> u8
where
    R: Input + Print + Eprint + AllocGlobal + Files<File = File> + Clock + Copy,
{
    let Some(opening) = Opening::of(reads_only, creates) else {
        return print_faulty(rt, "--read-only makes no store, and --create does");
    };
    match (store, opening) {
        (Some(folder), opening) => run_stored(rt, terminals, manner, opening, folder),
        (None, Opening::Making) => print_wanting(rt, "--create"),
        (None, Opening::Reading) => print_wanting(rt, "--read-only"),
        (None, Opening::Writing) if manner.is_interactive => converse_in_memory(rt, manner),
        (None, Opening::Writing) => run_in_memory(rt, manner),
    }
}

/// Does what is asked for with a store, or with a script that isn't run.
fn perform<R>(rt: &R, terminals: Terminals, task: Task<'_>) -> u8
where
    R: Input + Print + Eprint + AllocGlobal + Files<File = File> + Clock + Copy,
{
    match task {
        Task::Compact { store } => compact(rt, terminals, store),
        Task::Check { store } => check(rt, terminals, store),
        Task::Dump { store } => dump(rt, terminals, store),
        Task::Load { store, creates } => load(rt, terminals, store, creates),
        Task::Stat { store } => measure(rt, terminals, store),
        Task::Dc { store } => serve_requests(rt, store),
        Task::Tc { store, script } => play_script(rt, store, script),
        Task::Explain { at } => tell_script(rt, Telling::Explained { at }),
        Task::Draw { last } => tell_script(rt, Telling::Drawn { last }),
        Task::Run { .. } | Task::Pool { .. } => FAULT,
    }
}

/// Lets the clients of an engine with so many locks play.
fn play<R>(rt: R, locks: u64, sessions: usize, rounds: u64) -> u8
where
    R: Print + Eprint + AllocGlobal + Threads + Wait + Copy + Send + Sync + 'static,
    requires { 0 < sessions }
{
    match locks {
        1 => play_on(rt, Locks::One, sessions, rounds),
        3 => play_on(rt, Locks::Three, sessions, rounds),
        _ => told(
            eprintln!(&rt; "undo_shell: an engine has one lock or three: --locks 1 or --locks 3"),
            FAULT,
        ),
    }
}

/// Lets the clients of this engine play, and writes their text to standard output.
fn play_on<R>(rt: R, locks: Locks, sessions: usize, rounds: u64) -> u8
where
    R: Print + AllocGlobal + Threads + Wait + Copy + Send + Sync + 'static,
    requires { 0 < sessions }
{
    let alloc = rt.alloc();
    let Ok(mut writer) = BufWriter::new(alloc, Stopping::new(io::writer(&rt))) else {
        return refuse(&mut io::writer(&rt), Refusal::NoMemory, FAILED);
    };
    let status = pool(rt, alloc, locks, sessions, rounds, &mut writer);
    finish(&mut writer, status)
}

/// Runs a script on a new node in memory. Its text is gathered and written in large pieces, and nothing of it after a
/// write that failed.
fn run_in_memory<R>(rt: &R, manner: Manner) -> u8
where
    R: Input + Print + Eprint + AllocGlobal,
{
    let script = match read_script(rt) {
        Ok(script) => script,
        Err(refusal) => return refuse(&mut io::writer(rt), refusal, FAILED),
    };
    let Ok(writer) = BufWriter::new(rt.alloc(), Stopping::new(io::writer(rt))) else {
        return refuse(&mut io::writer(rt), Refusal::NoMemory, FAILED);
    };
    let mut text = Counting::new(writer);
    let status = run(
        rt.alloc(),
        manner.continues,
        &mut script.as_slice(),
        &mut text,
    );
    let status = finish(&mut text, status);
    tell_run(rt, manner, &script, &text, status)
}

/// How a script is told of that isn't run.
#[derive(Clone, Copy)]
enum Telling {
    Explained { at: Option<u64> },
    Drawn { last: Option<u64> },
}

/// Explains or draws a script. The text is written as that of a run in memory.
fn tell_script<R>(rt: &R, telling: Telling) -> u8
where
    R: Input + Print + Eprint + AllocGlobal,
{
    let script = match read_script(rt) {
        Ok(script) => script,
        Err(refusal) => return refuse(&mut io::writer(rt), refusal, FAILED),
    };
    let Ok(writer) = BufWriter::new(rt.alloc(), Stopping::new(io::writer(rt))) else {
        return refuse(&mut io::writer(rt), Refusal::NoMemory, FAILED);
    };
    let mut text = Counting::new(writer);
    let mut reader = script.as_slice();
    let status = match telling {
        Telling::Explained { at } => explain(rt.alloc(), at, &mut reader, &mut text),
        Telling::Drawn { last } => draw(rt.alloc(), last, &mut reader, &mut text),
    };
    let status = tell_fault(rt, &script, finish(&mut text, status));
    match telling {
        Telling::Explained { at } => tell_line(rt, &script, at, &text, status),
        Telling::Drawn { .. } => status,
    }
}

/// Prints why nothing is run: help to standard output, a fault's text to standard error.
fn print_fault<R: Print + Eprint>(rt: &R, fault: &Error) -> u8 {
    if fault.kind() == ErrorKind::OutOfMemory {
        return refuse(&mut io::writer(rt), Refusal::NoMemory, FAILED);
    }
    match fault.print(rt) {
        Ok(()) if fault.use_stderr() => FAULT,
        Ok(()) => DONE,
        Err(_) => FAILED,
    }
}
