//! A session's turn at the node.
use crate::held::Held;
use crate::shared::Shared;
use engine_guarded::engine_history::Naming;
use stable::{CrashLog, CrashPages};
use std::sync::{MutexGuard, Wait};

/// A session's turn at the node. The lock is taken at the first call that needs it, and given back after each call, unless
/// the turn keeps it, and always where it waits.
pub(crate) struct Turn<'a, J: Naming, D: CrashLog, P: CrashPages> {
    pub(crate) shared: &'a Shared<J, D, P>,
    guard: Option<MutexGuard<'a, Held<J, D, P>>>,
    keeps: bool,
}

impl<J: Naming, D: CrashLog, P: CrashPages> Drop for Turn<'_, J, D, P> {
    fn drop(self) {
        let Turn {
            shared: _,
            guard: _,
            keeps: _,
        } = self;
    }
}

impl<'a, J: Naming, D: CrashLog, P: CrashPages> Turn<'a, J, D, P> {
    /// A turn that hasn't taken the lock yet, and keeps it between its calls or not.
    pub(crate) fn new(shared: &'a Shared<J, D, P>, keeps: bool) -> Turn<'a, J, D, P> {
        Turn {
            shared,
            guard: None,
            keeps,
        }
    }

    /// What lies under the lock, for one call.
    pub(crate) fn take<R: Wait>(&mut self, rt: &R) -> MutexGuard<'a, Held<J, D, P>> {
        match self.guard.take() {
            Some(guard) => guard,
            None => self.shared.hold(rt),
        }
    }

    /// Ends a call: the lock is given back, unless the turn keeps it.
    pub(crate) fn pause(&mut self, guard: MutexGuard<'a, Held<J, D, P>>) {
        if self.keeps {
            self.guard = Some(guard);
        }
    }

    /// Gives the lock back, if the turn has it.
    pub(crate) fn leave(&mut self) {
        self.guard = None;
    }
}
