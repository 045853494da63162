//! What the node is spared once a session's call has ended: messages that nobody waits for, answers that nobody asks for
//! again, and large leaves.
ghost use Rattle.std.specs.Prelude.{◌≡◌, ℕ, true, false, Some, slice_get};
ghost use Rattle.engine_history.specs.node_laws.specs.Forgetting.{without_messages};
ghost use Rattle.engine_guarded.specs.declared.place.Place.{Place};
ghost use Rattle.engine_guarded.specs.Quiet.{AreQuiet, waits};
ghost use Rattle.engine_guarded.specs.Running.{GoesOn};

use crate::caller::Caller;
use crate::guarded::Guarded;
use crate::pace::Pace;
use crate::place::Place;
use crate::rounds::Kind;
use engine_history::Naming;
use engine_history::node_laws::{Event, Out};
use stable::{CrashLog, CrashPages};
use std::sync::Wait;

/// How many leaves are tended at most before the lock is given back.
const MOST_TENDED: u64 = 16;

// Whether no session waits for a message.
fn are_quiet(places: &[Place]) -> bool
    ensures { result ≡ true → (k : ℕ) (p : Place) → slice_get places.now k ≡ Some p → waits p ≡ false }
{
    for place in places {
        if place.waits() {
            return false;
        }
    }
    true
}

impl<J: Naming, D: CrashLog, P: CrashPages> Guarded<J, D, P> {
    /// Lets go of every message, unless a session waits for one: so no message is given a number by which a session's
    /// call knows another one. Whether they are gone.
    pub fn forget(&mut self) -> bool
        ensures steps { self.new.steps ≡ self.old.steps }
        ensures kept { result ≡ false → self.new ≡ self.old }
        ensures gone { result ≡ true → self.new.node ≡ without_messages self.old.node }
        ensures quiet { result ≡ true → AreQuiet J.sessions self.old.steps }
    {
        let Guarded { world, places, .. } = self;
        if !are_quiet(places.as_slice()) {
            return false;
        }
        world.forget();
        true
    }

    /// Takes note of what the delivery of a reply came to: whether the reply was taken.
    pub(crate) fn took(&mut self, out: &Out) -> bool
        ensures { self.new ≡ self.old }
    {
        let Guarded { pace, .. } = self;
        pace.took(out)
    }

    /// Both components were brought up.
    pub(crate) fn begin_pace(&mut self)
        ensures { self.new ≡ self.old }
    {
        let Guarded { pace, .. } = self;
        *pace = Pace::new();
    }

    // Whether leaves are to be tended.
    fn is_tend_due(&self) -> bool {
        self.pace.is_tend_due()
    }

    // Whether leaves are to be tended before the next commit.
    fn is_behind(&self) -> bool {
        self.pace.is_behind()
    }

    // Takes note of what tending a leaf came to: whether another one is due.
    fn tended(&mut self, out: &Out) -> bool
        ensures { self.new ≡ self.old }
    {
        let Guarded { pace, .. } = self;
        pace.tended(out)
    }

    // How many leaves there are, where the data component runs.
    fn leaves(&self) -> u64 {
        self.world.leaves().unwrap_or(0) as u64
    }

    // Whether a low number is to be handed over.
    fn is_low_due(&mut self) -> bool
        ensures { self.new ≡ self.old }
    {
        let leaves = self.leaves();
        let Guarded { pace, .. } = self;
        pace.is_low_due(leaves)
    }

    // Leaves are split or joined, as many as are due, once the data component is told how much of the log is stable: no
    // leaf with an operation that may still be lost is.
    fn tend<R: Wait>(&mut self, rt: &R, out: &mut Out)
        ensures on { GoesOn self.old.steps self.new.steps }
    {
        if !self.is_tend_due() {
            return;
        }
        self.exchange(rt, &Event::Tell, out);
        for _ in 0..MOST_TENDED {
            self.step(rt, &Event::Tend, out);
            if !self.tended(out) {
                break;
            }
        }
    }

    // One leaf more, where more were due at the last commit than one hold of the lock is to take.
    fn tend_more<R: Wait>(&mut self, rt: &R)
        ensures on { GoesOn self.old.steps self.new.steps }
    {
        if !self.is_behind() {
            return;
        }
        let mut out = Out::Nothing;
        self.step(rt, &Event::Tend, &mut out);
        self.tended(&out);
    }

    // The data component is told which answers nobody asks for again, where that is due.
    fn lower<R: Wait>(&mut self, rt: &R, out: &mut Out)
        ensures on { GoesOn self.old.steps self.new.steps }
    {
        if !self.is_low_due() {
            return;
        }
        if let Ok(low) = self.world().greatest_low() {
            self.exchange(rt, &Event::LowWater { low }, out);
        }
    }

    // The same of both, where a session was told that its records are stable.
    fn ease_commit<R: Wait>(&mut self, rt: &R, caller: &Caller<J>)
        ensures on { GoesOn self.old.steps self.new.steps }
    {
        if !self.was_told(caller) {
            return;
        }
        let mut out = Out::Nothing;
        self.tend(rt, &mut out);
        self.lower(rt, &mut out);
    }

    /// After a session's call that goes on so: where it was told of a commit, leaves are tended, and it is said which
    /// answers may be let go; after another call a leaf, where there were too many. Every message is let go, unless a
    /// session waits for one.
    pub(crate) fn ease<R: Wait>(&mut self, rt: &R, caller: &Caller<J>, kind: Kind)
        ensures on { GoesOn self.old.steps self.new.steps }
        ensures done { kind ≡ Kind.Done → self.new.steps ≡ self.old.steps }
    {
        match kind {
            Kind::Done => {}
            Kind::Force => {
                self.ease_commit(rt, caller);
                self.forget();
            }
            Kind::Exchange | Kind::Undo => {
                self.tend_more(rt);
                self.forget();
            }
        }
    }
}
