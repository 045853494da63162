//! A node under its lock, and what is read with no lock.
use crate::held::Held;
use crate::resting::hold;
use crate::turn::Turn;
use engine_guarded::Published;
use engine_guarded::engine_history::Naming;
use stable::{CrashLog, CrashPages};
use std::sync::{Mutex, MutexGuard, Wait};

/// What the threads share.
#[derive(Drop)]
pub struct Shared<J: Naming, D: CrashLog, P: CrashPages> {
    held: Mutex<Held<J, D, P>>,
    pub(crate) published: Published<J>,
    /// Whether a commit gives the lock back before the log is made stable, so that others commit with it.
    pub(crate) defers: bool,
}

impl<J: Naming, D: CrashLog, P: CrashPages> Shared<J, D, P> {
    pub(crate) fn new(
        held: Held<J, D, P>,
        published: Published<J>,
        defers: bool,
    ) -> Shared<J, D, P> {
        Shared {
            held: Mutex::new(held),
            published,
            defers,
        }
    }

    /// A session's turn, for one call or, if it keeps the lock, for several.
    pub(crate) fn turn(&self, keeps: bool) -> Turn<'_, J, D, P> {
        Turn::new(self, keeps)
    }

    /// What lies under the lock, once it is free.
    pub(crate) fn hold<R: Wait>(&self, rt: &R) -> MutexGuard<'_, Held<J, D, P>> {
        hold(rt, &self.held)
    }

    /// What lies under the lock, and what is read without, once nobody else shares them.
    pub(crate) fn into_parts(self) -> (Held<J, D, P>, Published<J>) {
        let Shared {
            held,
            published,
            ..
        } = self;
        (held.into_inner(), published)
    }
}
