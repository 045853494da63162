//! Whether a crash has cut a session's call off that is unfinished.
ghost use Rattle.std.specs.Prelude.{◌≡◌, true, false, None};
ghost use Rattle.engine_history.specs.Callers.{IsUntold};
ghost use Rattle.engine_history.specs.Sessions.{line_of, calls_by};
ghost use Rattle.engine_guarded.specs.Callers.{IsCut};

use crate::caller::Caller;
use crate::entry::Entry;
use crate::guarded::Guarded;
use crate::status::CallStatus;
use boxcar::Vec as Entries;
use engine_history::Naming;
use stable::{CrashLog, CrashPages};
use std::sync::Wait;

impl<J: Naming, D: CrashLog, P: CrashPages> Guarded<J, D, P> {
    // Whether no transaction of a session is alive, and nothing was told that the session hasn't seen.
    fn is_cut(&mut self, entries: &Entries<Entry>, caller: &mut Caller<J>) -> bool
        requires entries { entries.now ≡ J.entries }
        requires rest { caller.old.busy ≡ false }
        ensures same { self.new ≡ self.old }
        ensures caller { caller.new ≡ caller.old }
        ensures cut { result ≡ true → IsCut (calls_by caller.old.number caller.old.steps)
            (calls_by caller.old.number self.old.steps) }
    {
        let Guarded { places, .. } = self;
        let Caller {
            number,
            mark,
            last,
            of: _,
        } = caller;
        let place = &mut places[*number as usize];
        place.far_end.agree(mark);
        entries.agrees(&place.last, last);
        place.is_cut()
    }

    #[tactic(auto, using(crate::proofs::Calls::status_cut))]
    /// Lets a session see that a crash has cut its latest call off, of which nothing was told yet: whether one has.
    pub fn take_cut<R: Wait>(
        &mut self,
        rt: &R,
        entries: &Entries<Entry>,
        caller: &mut Caller<J>,
    ) -> bool
        requires entries { entries.now ≡ J.entries }
        requires rest { caller.old.busy ≡ false }
        requires untold { line_of (calls_by caller.old.number caller.old.steps).latest ≡ None }
        ensures same { self.new ≡ self.old }
        ensures number { caller.new.number ≡ caller.old.number }
        ensures rest { caller.new.busy ≡ false }
        ensures held { result ≡ false → caller.new ≡ caller.old }
        ensures steps { result ≡ true → caller.new.steps ≡ self.old.steps }
        ensures untold { result ≡ true → IsUntold (calls_by caller.old.number caller.old.steps)
            (calls_by caller.old.number self.old.steps) }
        ensures cut { result ≡ true → (calls_by caller.old.number self.old.steps).live ≡ None }
    {
        if !self.is_cut(entries, caller) {
            return false;
        }
        match self.finish(rt, entries, caller) {
            CallStatus::CutOff => true,
            _ => unreachable!(),
        }
    }
}
