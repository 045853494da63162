//! Which sessions have to look again.
use std::alloc::{AllocError, Global};

/// Which sessions have to look again, since what they sent was answered or lost. No proof rests on it.
#[derive(Drop)]
pub struct WakeFlags {
    woken: Vec<bool>,
}

impl WakeFlags {
    pub fn new(alloc: Global, sessions: usize) -> Result<WakeFlags, AllocError> {
        let mut woken = Vec::with_capacity(alloc, sessions)?;
        for _ in 0..sessions {
            woken.push(false)?;
        }
        Ok(WakeFlags { woken })
    }

    /// The session has to look again, or it looks.
    pub fn set(&mut self, session: u64, woken: bool) {
        if let Some(own) = self.woken.get_mut(session as usize) {
            *own = woken;
        }
    }

    pub fn is_set(&self, session: u64) -> bool {
        match self.woken.get(session as usize) {
            Some(woken) => *woken,
            None => true,
        }
    }
}
