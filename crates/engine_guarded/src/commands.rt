//! The engine's own calls: crashes, failures that it arms, and how it brings the components up.
ghost use Rattle.std.specs.Prelude.{◌≡◌, true, false, IfErr, OnOk};
ghost use Rattle.engine_history.specs.Commands.{commands, is_command};
ghost use Rattle.engine_history.specs.node_laws.specs.Rounds.{AreRunning};
ghost use Rattle.engine_history.specs.node_laws.specs.declared.event.Event.TheVariants as event;
ghost use Rattle.engine_guarded.specs.Commanded.{Commanded, CrashesTc};
ghost use Rattle.engine_guarded.specs.Found.{IsOutage};
ghost use Rattle.engine_guarded.specs.Running.{GoesOn};

use crate::caller::Caller;
use crate::entry::Entry;
use crate::guarded::Guarded;
use boxcar::Vec as Entries;
use engine_history::Naming;
use engine_history::node_laws::{Event, Out};
use record_key::Refusal;
use stable::{CrashLog, CrashPages};
use std::sync::Wait;

impl<J: Naming, D: CrashLog, P: CrashPages> Guarded<J, D, P> {
    // An event that the engine calls, and its entry.
    fn command<R: Wait>(
        &mut self,
        rt: &R,
        entries: &Entries<Entry>,
        own: &mut Caller<J>,
        event: &Event,
        out: &mut Out,
    )
        requires entries { entries.now ≡ J.entries }
        requires own { own.old.number ≡ J.sessions }
        requires rest { own.old.busy ≡ false }
        requires command { is_command event.now ≡ true }
        ensures { Commanded J.sessions self.old own.old event.now out.new self.new own.new }
    {
        self.kept();
        self.see(entries, own);
        self.call(rt, own, event, out);
        self.finish(rt, entries, own);
    }

    /// The data component crashes. Nothing is kept that isn't stable.
    pub fn crash_dc<R: Wait>(
        &mut self,
        rt: &R,
        entries: &Entries<Entry>,
        own: &mut Caller<J>,
        out: &mut Out,
    )
        requires entries { entries.now ≡ J.entries }
        requires own { own.old.number ≡ J.sessions }
        requires rest { own.old.busy ≡ false }
        ensures { Commanded J.sessions self.old own.old (event.CrashDc 0 0) out.new self.new own.new }
    {
        let event = Event::CrashDc {
            frames: 0,
            bytes: 0,
        };
        self.command(rt, entries, own, &event, out);
    }

    /// The transaction component crashes, and every session's transaction is cut off. Of what isn't stable of the log so
    /// many bytes are kept, or all of it where it has fewer.
    pub fn crash_tc<R: Wait>(
        &mut self,
        rt: &R,
        entries: &Entries<Entry>,
        own: &mut Caller<J>,
        kept: u64,
        out: &mut Out,
    )
        requires entries { entries.now ≡ J.entries }
        requires own { own.old.number ≡ J.sessions }
        requires rest { own.old.busy ≡ false }
        ensures { CrashesTc J.sessions kept self.old own.old out.new self.new own.new }
    {
        let (frames, bytes) = self.world().cut_after(kept).unwrap_or((0, kept));
        self.command(rt, entries, own, &Event::CrashTc { frames, bytes }, out);
    }

    /// The call of this number, from now on, of the device of the transaction component's log fails.
    pub fn fail_tc<R: Wait>(
        &mut self,
        rt: &R,
        entries: &Entries<Entry>,
        own: &mut Caller<J>,
        call: u64,
        out: &mut Out,
    )
        requires entries { entries.now ≡ J.entries }
        requires own { own.old.number ≡ J.sessions }
        requires rest { own.old.busy ≡ false }
        ensures { Commanded J.sessions self.old own.old (event.FailTc call) out.new self.new own.new }
    {
        self.command(rt, entries, own, &Event::FailTc { call }, out);
    }

    /// Brings both components up, in one session, and undoes who was lost; the engine has seen all steps then. Refused
    /// NoMemory, Device, NumbersSpent; what was done by then stands.
    pub fn restart<R: Wait>(
        &mut self,
        rt: &R,
        entries: &Entries<Entry>,
        own: &mut Caller<J>,
        out: &mut Out,
    ) -> Result<(), Refusal>
        requires entries { entries.now ≡ J.entries }
        requires own { own.old.number ≡ J.sessions }
        requires rest { own.old.busy ≡ false }
        ensures on { GoesOn self.old.steps self.new.steps }
        ensures own { own.new ≡ record { number = own.old.number; steps = self.new.steps; busy = false } }
        ensures given { commands own.new.steps ≡ commands own.old.steps }
        ensures refused { IfErr result IsOutage }
        ensures up { OnOk result (AreRunning self.new.node) }
    {
        self.see(entries, own);
        let up = self.bring_up(rt, out);
        self.kept();
        self.finish(rt, entries, own);
        up
    }
}
