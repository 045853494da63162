//! How far something is that takes long.
use std::time::{Clock, Instant};

/// So many steps are done between two looks at the clock.
const STEPS: u64 = 256;

/// Tells on standard error, where that is a terminal, how much is done: each second once, from the second one on.
#[derive(Drop)]
pub struct Progress {
    // None where nobody sees it.
    started: Option<Instant>,
    seconds: u64,
}

impl Progress {
    /// Nothing is done yet.
    pub fn new<R: Clock>(rt: &R, is_seen: bool) -> Progress {
        Progress {
            started: if is_seen { Instant::now(rt).ok() } else { None },
            seconds: 0,
        }
    }

    /// So much is done at once, and nothing is heard of it meanwhile. It is told where it will take about a second.
    pub fn announce<R: Eprint>(&mut self, rt: &R, much: u64, in_a_second: u64, counted: &str) {
        if self.started.is_some() & (much >= in_a_second) {
            self.seconds = self.seconds.max(1);
            let _ = eprint!(rt; "\r{much} {counted}");
        }
    }

    /// So much of what is counted is done.
    pub fn tell<R: Clock + Eprint>(&mut self, rt: &R, done: u64, counted: &str) {
        if let (0, Some(started)) = (done % STEPS, self.started) {
            let seconds = started.elapsed(rt).unwrap_or_default().as_secs();
            if seconds > self.seconds {
                self.seconds = seconds;
                // Nothing hangs on it that it is seen.
                let _ = eprint!(rt; "\r{done} {counted}");
            }
        }
    }

    /// What was told is wiped out.
    pub fn end<R: Eprint>(&self, rt: &R) {
        if self.seconds > 0 {
            let _ = eprint!(rt; "\r\x1b[K");
        }
    }
}
