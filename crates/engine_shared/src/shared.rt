//! What the threads share, and what they do under its locks.
ghost use Rattle.std.specs.Prelude.{◌≡◌, ◌++◌, ◌∷◌, []};
ghost use Rattle.engine_answers.specs.node_laws.specs.declared.event.Event.TheVariants as event;
ghost use Rattle.engine_shared.specs.Entered.{IsEntered};

use crate::access::Access;
use crate::monitor::Monitor;
use engine_answers::engine_history::{
    EventHistory, LatchedDc, LatchedTc, Naming, Operator, Published,
};
use stable::{CrashLog, CrashPages};
use std::sync::{Mutex, Wait};

/// What the threads share. A component's lock is taken first, and the history's inside it; the two components' are
/// never held together.
#[derive(Drop)]
pub struct Shared<J: Naming, G, D: CrashLog, P: CrashPages> {
    pub(crate) access: Access<J, D>,
    pub(crate) dc: Mutex<LatchedDc<J, D, P>>,
    pub(crate) gate: G,
}

impl<J: Naming, G, D: CrashLog, P: CrashPages> Shared<J, G, D, P> {
    /// A node's halves, each as it is latched, and a history without entries.
    pub fn new(
        published: Published<J>,
        tc: LatchedTc<J, D>,
        dc: LatchedDc<J, D, P>,
        history: EventHistory<J>,
        gate: G,
    ) -> Shared<J, G, D, P> {
        Shared {
            access: Access::new(Monitor::new(published, history), tc),
            dc: Mutex::new(dc),
            gate,
        }
    }

    /// What is read without a lock.
    pub fn published(&self) -> &Published<J> {
        &self.access.monitor.published
    }

    /// Where calls are entered.
    pub fn access(&self) -> &Access<J, D> {
        &self.access
    }

    /// The data component crashes. Nothing is kept that isn't stable.
    pub fn crash_dc<R: Wait>(&self, rt: &R, operator: &mut Operator<J>)
        ensures given { operator.new ≡ operator.old ++ event.CrashDc 0 0 ∷ [] }
        ensures entered { IsEntered J.entries (event.CrashDc 0 0) }
    {
        let monitor = &self.access.monitor;
        self.dc.lock(rt).crash(rt, monitor.published.entries(), &monitor.history, operator);
        monitor.wake();
    }
}

impl<J: Naming, G: Drop, D: CrashLog + Drop, P: CrashPages> Shared<J, G, D, P> {
    /// What was written down, and both latched components, once nobody else shares the node.
    pub fn into_parts(
        self,
    ) -> (
        Published<J>,
        EventHistory<J>,
        LatchedTc<J, D>,
        LatchedDc<J, D, P>,
    ) {
        let Shared { access, dc, .. } = self;
        let Access { monitor, tc } = access;
        let Monitor {
            published,
            history,
            ..
        } = monitor;
        (
            published,
            history.into_inner(),
            tc.into_inner(),
            dc.into_inner(),
        )
    }
}
