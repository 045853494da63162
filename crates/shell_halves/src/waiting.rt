//! How long a reply is waited for.

/// After so many ticks without its reply a request is taken for one of a session that the data component doesn't run any
/// more: it may have been started anew.
const TRIES: u64 = 24;

/// What is to be done at a tick.
#[derive(Clone, Copy, PartialEq, Eq)]
pub enum Due {
    /// The request is sent again.
    Again,
    /// A new session is begun.
    Session,
}

/// How many ticks there were since the request was sent first.
#[derive(Clone, Copy, Default)]
pub struct Waiting {
    ticks: u64,
}

impl Waiting {
    /// One tick more.
    pub fn tick(&mut self) -> Due {
        if self.ticks < TRIES {
            self.ticks += 1;
            return Due::Again;
        }
        self.ticks = 0;
        Due::Session
    }
}
