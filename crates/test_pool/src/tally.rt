//! How many cases agree, which differ, and how many gave up.
use record_key::Refusal;
use std::alloc::Global;
use std::io;
use test_pool_cases::Verdict;

/// The counts of the cases that agree, differ and gave up, and the names of those that differ.
#[derive(Drop)]
pub struct Tally {
    agree: u64,
    differ: u64,
    gave_up: u64,
    names: String,
}

impl Tally {
    pub fn new(alloc: Global) -> Tally {
        Tally {
            agree: 0,
            differ: 0,
            gave_up: 0,
            names: String::new(alloc),
        }
    }

    /// A case is over. One that was refused differs, unless it was refused memory.
    pub fn count(&mut self, name: &str, verdict: Verdict) {
        match verdict {
            Ok(true) => self.agree = self.agree.saturating_add(1),
            Err(Refusal::NoMemory) => self.gave_up = self.gave_up.saturating_add(1),
            _ => self.differs(name),
        }
    }

    // A case differs. It is counted also where there is no memory for its name.
    fn differs(&mut self, name: &str) {
        self.differ = self.differ.saturating_add(1);
        if self.names.push_str(name).is_ok() {
            let _ = self.names.push(' ');
        }
    }

    /// Prints the counts in one line, and before it the names, where any differ.
    pub fn report<R: Print>(&self, rt: &R) -> io::Result<()> {
        let Tally {
            agree,
            differ,
            gave_up,
            names,
        } = self;
        if *differ > 0 {
            println!(rt; "{}", names.as_str().trim())?;
        }
        if *gave_up > 0 {
            println!(rt; "{agree} cases agree, {differ} differ, {gave_up} gave up")
        } else {
            println!(rt; "{agree} cases agree, {differ} differ")
        }
    }
}
