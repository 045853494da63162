//! A case of many clients whose calls are drawn.
use record_key::Refusal;
use std::alloc::Global;
use test_lines::Words;

/// What befalls an engine beside its clients: nothing; or after so many calls, and again after as many more, something
/// crashes, or a call of the log's device fails.
#[derive(Clone, Copy)]
pub enum Trouble {
    Nothing,
    Crashes(u64),
    Failures(u64),
}

/// What each client of a case does: so many transactions on so many keys, each tried again so often where another
/// transaction bars it.
#[derive(Clone, Copy)]
pub struct Plan {
    pub seed: u64,
    pub txns: u64,
    pub keys: u64,
    pub tries: u64,
    pub trouble: Trouble,
}

/// A case of many clients.
#[derive(Clone, Copy)]
pub struct Many {
    pub sessions: usize,
    pub workers: usize,
    pub plan: Plan,
}

impl Many {
    /// The case that a line says.
    pub fn read(alloc: Global, line: &str) -> Result<Many, Refusal> {
        let mut words = Words::new(alloc, line);
        let _name = words.word();
        Ok(Many {
            sessions: words.number()? as usize,
            workers: words.number()? as usize,
            plan: read_plan(&mut words)?,
        })
    }
}

fn read_plan(words: &mut Words<'_>) -> Result<Plan, Refusal> {
    Ok(Plan {
        seed: words.number()?,
        txns: words.number()?,
        keys: words.number()?,
        tries: words.number()?,
        trouble: read_trouble(words)?,
    })
}

fn read_trouble(words: &mut Words<'_>) -> Result<Trouble, Refusal> {
    match words.word() {
        "crashes" => Ok(Trouble::Crashes(words.number()?)),
        "fails" => Ok(Trouble::Failures(words.number()?)),
        _ => Ok(Trouble::Nothing),
    }
}

/// What crashes, and how many bytes are kept of what isn't stable of the transactions' log.
#[derive(Clone, Copy)]
pub enum Crash {
    Data,
    Transactions(u64),
    Both,
}

/// How many crashes a case has.
pub const CRASHES: u64 = 6;

/// How often a component has crashed once all of these were made.
pub const FALLS: usize = 7;

/// What crashes at each of them.
pub fn crash_at(place: u64) -> Crash {
    match place {
        1 => Crash::Transactions(0),
        2 => Crash::Transactions(1000),
        3 => Crash::Both,
        4 => Crash::Transactions(7),
        _ => Crash::Data,
    }
}

/// How many calls of the log's device after a restart one fails.
pub const FAILS: u64 = 9;

/// How often a call of the log's device fails where nothing crashes.
pub const FAILURES: u64 = 60;
