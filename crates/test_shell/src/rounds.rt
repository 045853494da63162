//! Clients on threads, over how many they are and how many rounds they play: what each run writes, beside the text that
//! a plain reading of the rule gives, and once beside a text that was written out.
ghost use Rattle.std.specs.Prelude.{◌<◌};

use shell_pool::{Locks, pool};
use shell_scripts::DONE;
use std::alloc::{AllocError, Global};
use std::collections::BTreeMap;
use std::io;
use std::sync::Wait;
use std::thread::Threads;

/// The most clients of a run.
const MOST: usize = 8;

/// How many rounds they play.
const ROUNDS: [u64; 6] = [1, 2, 3, 4, 5, 12];

/// At which engine.
const ENGINES: [Locks; 2] = [Locks::One, Locks::Three];

/// How many runs write what they are to, and how many write something else.
#[derive(Clone, Copy)]
pub struct Runs {
    agree: u64,
    differ: u64,
}

impl Runs {
    fn count(&mut self, agrees: bool) {
        if agrees {
            self.agree = self.agree.saturating_add(1);
        } else {
            self.differ = self.differ.saturating_add(1);
        }
    }

    // Plays such a run at each engine.
    fn play<R>(
        &mut self,
        rt: R,
        alloc: Global,
        clients: usize,
        rounds: u64,
        wanted: &[u8],
    ) -> io::Result<()>
    where
        R: Print + Threads + Wait + Copy + Send + Sync + 'static,
        requires { 0 < clients }
    {
        for locks in ENGINES {
            self.count(writes(rt, alloc, locks, clients, rounds, wanted)?);
        }
        Ok(())
    }

    pub fn print(&self, rt: &HostRuntime) -> io::Result<()> {
        println!(rt; "runs: {} agree, {} differ", self.agree, self.differ)
    }
}

/// Plays each of these runs at each engine, and prints a line for each that writes something else than it is to write. The
/// text is that of eight clients over five rounds.
pub fn compare_runs<R>(rt: R, alloc: Global, text: &[u8]) -> io::Result<Runs>
where
    R: Print + Threads + Wait + Copy + Send + Sync + 'static,
{
    let mut runs = Runs {
        agree: 0,
        differ: 0,
    };
    runs.play(rt, alloc, MOST, 5, text)?;
    for clients in 1..=MOST {
        for rounds in ROUNDS {
            let wanted = expected(alloc, clients, rounds)?;
            runs.play(rt, alloc, clients, rounds, wanted.as_bytes())?;
        }
    }
    Ok(runs)
}

/// Whether the run writes this, and ends well. Prints its size where it doesn't.
fn writes<R>(
    rt: R,
    alloc: Global,
    locks: Locks,
    clients: usize,
    rounds: u64,
    wanted: &[u8],
) -> io::Result<bool>
where
    R: Print + Threads + Wait + Copy + Send + Sync + 'static,
    requires { 0 < clients }
{
    let mut text = Vec::new(alloc);
    let status = pool(rt, alloc, locks, clients, rounds, &mut text);
    let agrees = status == DONE && text.as_slice() == wanted;
    if !agrees {
        println!(&rt; "{clients} clients over {rounds} rounds: exit status {status}")?;
    }
    Ok(agrees)
}

/// What a run is to write, by the rule: a round that is even is rolled back, and each other leaves its number in the
/// client's record and in one of its own.
fn expected(alloc: Global, clients: usize, rounds: u64) -> Result<String, AllocError> {
    let mut text = String::new(alloc);
    let mut table = BTreeMap::new(alloc);
    for client in 1..=clients {
        let mut last = 0;
        for round in 1..=rounds {
            if round % 2 == 1 {
                last = round;
                table.insert(format!(in alloc; "s{client}r{round}")?, round)?;
            }
        }
        table.insert(format!(in alloc; "s{client}")?, last)?;
        text.push_str(format!(in alloc; "session {client} read {last}\n")?.as_str())?;
    }
    for (key, value) in &table {
        text.push_str(format!(in alloc; "{key}={value}\n")?.as_str())?;
    }
    text.push_str(format!(in alloc; "rows {}\n", table.len())?.as_str())?;
    Ok(text)
}
