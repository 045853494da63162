//! How often each outcome came.
use record_key::Refusal;
use std::alloc::Global;
use std::fmt::Write;

#[derive(Drop)]
struct Count {
    outcome: String,
    times: u64,
}

/// The outcomes in the order in which each came first.
#[derive(Drop)]
pub struct Counts {
    alloc: Global,
    counts: Vec<Count>,
}

impl Counts {
    pub fn new(alloc: Global) -> Counts {
        Counts {
            alloc,
            counts: Vec::new(alloc),
        }
    }

    /// Counts these times more of an outcome.
    pub fn add(&mut self, outcome: &str, times: u64) -> Result<(), Refusal> {
        for count in self.counts.iter_mut() {
            if count.outcome.as_str() == outcome {
                count.times = count.times.saturating_add(times);
                return Ok(());
            }
        }
        let outcome = String::from_str(self.alloc, outcome)?;
        self.counts.push(Count { outcome, times })?;
        Ok(())
    }

    /// Adds the counts to others by the first word of a refusal; what isn't refused is taken.
    pub fn add_to(&self, totals: &mut Counts) -> Result<(), Refusal> {
        for count in self.counts.iter() {
            totals.add(class_of(count.outcome.as_str()), count.times)?;
        }
        Ok(())
    }

    /// Appends the number and the text of each.
    pub fn put(&self, answer: &mut String) -> Result<(), Refusal> {
        let mut between = "";
        for count in self.counts.iter() {
            write!(answer, "{between}{} {}", count.times, count.outcome)?;
            between = " | ";
        }
        Ok(())
    }
}

fn class_of(outcome: &str) -> &'static str {
    if outcome.starts_with("no BadBytes ") {
        "BadBytes"
    } else if outcome.starts_with("WrongAnswer ") {
        "WrongAnswer"
    } else if outcome.starts_with("Checkpoint ") {
        "Checkpoint"
    } else {
        "taken"
    }
}
