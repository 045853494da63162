//! What the words of a command line ask for.
use record_key::Refusal;
use shell_command_line::{Task, choose};
use std::alloc::Global;
use std::fmt::Write;
use test_lines::Subject;

/// The words of a line are those behind the program's name; its answer is what they ask for, `no` where they are refused.
#[derive(Drop)]
pub struct CommandLines {
    alloc: Global,
}

impl CommandLines {
    pub fn new(alloc: Global) -> CommandLines {
        CommandLines { alloc }
    }
}

impl Subject for CommandLines {
    fn call(&mut self, call: &str, answer: &mut String) -> Result<(), Refusal> {
        let mut words = Vec::new(self.alloc);
        words.push("undo_shell")?;
        for word in call.split_terminator(' ') {
            words.push(word)?;
        }
        put_asked(answer, self.alloc, words.as_slice())
    }
}

/// Appends what the words ask for.
fn put_asked(text: &mut String, alloc: Global, words: &[&str]) -> Result<(), Refusal> {
    match choose(alloc, words) {
        Ok(task) => put_task(text, task),
        Err(_) => Ok(text.push_str("no")?),
    }
}

fn put_task(text: &mut String, task: Task<'_>) -> Result<(), Refusal> {
    match task {
        Task::Run {
            continues,
            store,
            reads_only,
            creates,
            strict,
            interactive,
            keeps_log,
        } => {
            put_run(text, continues, store)?;
            put_flag(text, " read only", reads_only)?;
            put_flag(text, " created", creates)?;
            put_flag(text, " strict", strict)?;
            put_flag(text, " interactive", interactive)?;
            put_flag(text, " log kept", keeps_log)
        }
        Task::Check { store } => put_stored(text, "check", store),
        Task::Compact { store } => put_stored(text, "compact", store),
        Task::Dump { store } => put_stored(text, "dump", store),
        Task::Stat { store } => put_stored(text, "stat", store),
        Task::Load { store, creates } => {
            put_stored(text, "load", store)?;
            put_flag(text, " created", creates)
        }
        Task::Dc { store } => put_stored(text, "dc", store),
        Task::Tc { store, script } => {
            put_stored(text, "tc", store)?;
            put_script(text, script)
        }
        Task::Pool {
            sessions,
            rounds,
            locks,
        } => Ok(write!(text, "pool {sessions} {rounds} {locks}")?),
        Task::Explain { at } => put_numbered(text, "explain", at),
        Task::Draw { last } => put_numbered(text, "draw", last),
    }
}

/// A run, which may go on behind failures and may be of a store.
fn put_run(text: &mut String, continues: bool, store: Option<&str>) -> Result<(), Refusal> {
    text.push_str(if continues { "run on" } else { "run" })?;
    put_store(text, store)
}

fn put_script(text: &mut String, script: Option<&str>) -> Result<(), Refusal> {
    match script {
        Some(script) => Ok(write!(text, " plays {script}")?),
        None => Ok(()),
    }
}

fn put_flag(text: &mut String, flag: &str, is_set: bool) -> Result<(), Refusal> {
    if is_set {
        text.push_str(flag)?;
    }
    Ok(())
}

/// A task that may have a store.
fn put_stored(text: &mut String, task: &str, store: Option<&str>) -> Result<(), Refusal> {
    text.push_str(task)?;
    put_store(text, store)
}

fn put_store(text: &mut String, store: Option<&str>) -> Result<(), Refusal> {
    match store {
        Some(folder) => Ok(write!(text, " of {folder}")?),
        None => Ok(()),
    }
}

/// A task that may have a number.
fn put_numbered(text: &mut String, task: &str, number: Option<u64>) -> Result<(), Refusal> {
    text.push_str(task)?;
    match number {
        Some(number) => Ok(write!(text, " {number}")?),
        None => Ok(()),
    }
}
