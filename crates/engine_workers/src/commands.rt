//! The engine's own calls.
ghost use Rattle.std.specs.Prelude.{◌≡◌, ◌++◌, ◌∷◌, [], IfErr, OnOk};
ghost use Rattle.node_world.specs.node_laws.specs.declared.event.Event.TheVariants as event;
ghost use Rattle.engine_sessions.specs.engine_history.specs.Slots.{Slot};
ghost use Rattle.engine_sessions.specs.engine_history.specs.Witnessed.{LeftBytes, WereUp};
ghost use Rattle.engine_sessions.specs.engine_shared.specs.Entered.{IsEntered};
ghost use Rattle.engine_sessions.specs.engine_shared.specs.Outages.{IsOutage};

use crate::engine::Engine;
use engine_sessions::engine_answers::Commands;
use engine_sessions::engine_history::Naming;
use record_key::Refusal;
use stable::{CrashLog, CrashPages};
use std::sync::Wait;

impl<J: Naming, G, D: CrashLog, P: CrashPages> Engine<J, G, D, P> {
    /// The data component crashes. Nothing is kept that isn't stable.
    pub fn crash_dc<R: Wait>(&mut self, rt: &R)
        ensures given { self.new ≡ self.old ++ event.CrashDc 0 0 ∷ [] }
        ensures entered { IsEntered J.entries (event.CrashDc 0 0) }
    {
        self.shared.crash_dc(rt, &mut self.operator);
    }

    /// The transaction component crashes, and every session's transaction is cut off. Of what isn't stable of the log so
    /// many bytes are kept, or all of it where it has fewer.
    pub fn crash_tc<R: Wait>(&mut self, rt: &R, kept: u64)
        ensures { (entry : Slot) × LeftBytes J.start J.entries kept self.old entry self.new }
    {
        self.shared.access().crash(rt, kept, &mut self.operator);
    }

    /// The call of this number, from now on, of the device of the transaction component's log fails.
    pub fn fail_tc<R: Wait>(&mut self, rt: &R, call: u64)
        ensures given { self.new ≡ self.old ++ event.FailTc call ∷ [] }
        ensures entered { IsEntered J.entries (event.FailTc call) }
    {
        self.shared.access().fail(rt, call, &mut self.operator);
    }

    /// Brings both components up, in one session, and undoes who was lost: after all commands that were given. Refused
    /// NoMemory, Device, NumbersSpent; what was done by then stands.
    pub fn restart<R: Wait>(&mut self, rt: &R) -> Result<(), Refusal>
        ensures same { self.new ≡ self.old }
        ensures up { OnOk result (WereUp J.start J.entries self.old) }
        ensures refused { IfErr result IsOutage }
    {
        self.shared.bring_up(rt, &mut self.operator)
    }
}

impl<J: Naming, G, D: CrashLog, P: CrashPages> Commands for Engine<J, G, D, P> {
    ghost given = { λ e. e };

    fn crash_dc<R: Wait>(&mut self, rt: &R) {
        Engine::crash_dc(self, rt);
    }

    fn crash_tc<R: Wait>(&mut self, rt: &R, kept: u64) {
        Engine::crash_tc(self, rt, kept);
    }

    fn fail_tc<R: Wait>(&mut self, rt: &R, call: u64) {
        Engine::fail_tc(self, rt, call);
    }

    fn restart<R: Wait>(&mut self, rt: &R) -> Result<(), Refusal> {
        Engine::restart(self, rt)
    }
}
