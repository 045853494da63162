//! How many cases agree.
use std::io;

/// How many cases gave what they must, and how many gave something else.
#[derive(Clone, Copy)]
pub struct Tally {
    agree: u64,
    differ: u64,
}

impl Tally {
    pub fn new() -> Tally {
        Tally {
            agree: 0,
            differ: 0,
        }
    }

    /// Counts one more case.
    pub fn count(&mut self, agrees: bool) {
        if agrees {
            self.agree = self.agree.saturating_add(1);
        } else {
            self.differ = self.differ.saturating_add(1);
        }
    }

    /// One line: how many of these agree, and how many differ.
    pub fn print(&self, rt: &HostRuntime, what: &str) -> io::Result<()> {
        println!(rt; "{} {what} agree, {} differ", self.agree, self.differ)
    }
}
