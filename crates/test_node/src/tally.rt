//! How many walks agree.
use crate::flaw::Flaw;
use std::io;

/// How many came to what they must, how many to something else, and how many were given up where the memory of the
/// model ran out.
#[derive(Clone, Copy)]
pub struct Tally {
    agree: u64,
    differ: u64,
    given_up: u64,
}

impl Tally {
    pub fn new() -> Tally {
        Tally {
            agree: 0,
            differ: 0,
            given_up: 0,
        }
    }

    /// Counts one more.
    pub fn count(&mut self, came: &Result<(), Flaw>) {
        let count = match came {
            Ok(()) => &mut self.agree,
            Err(Flaw::Differs(_)) => &mut self.differ,
            Err(Flaw::NoMemory) => &mut self.given_up,
        };
        *count = count.saturating_add(1);
    }

    /// Prints one line. Gives whether none differs.
    pub fn print(&self, rt: &HostRuntime, what: &str) -> io::Result<bool> {
        print!(rt; "{what}s: {} agree, {} differ", self.agree, self.differ)?;
        if self.given_up > 0 {
            print!(rt; ", {} were given up", self.given_up)?;
        }
        println!(rt)?;
        Ok(self.differ == 0)
    }
}
