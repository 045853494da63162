//! The data component.
ghost use Rattle.std.specs.Prelude.{◌≡◌, ◌<◌, ◌≤◌, ◌++◌, [], true, length, IfOk, IfErr};
ghost use Rattle.std.specs.FinMap as map;
ghost use Rattle.stable.specs.Crash.{BeginsWith};
ghost use Rattle.stable.specs.Usage.{IsToCome, called_often};
ghost use Rattle.framed_log.specs.Beginning.{beginning};
ghost use Rattle.dc_store.specs.Devices.{spelled};
ghost use Rattle.dc_store.specs.SystemView.{failing_at};
ghost use Rattle.dc_store.specs.Recovering.{Recovers, RefusesRecovery};
ghost use Rattle.dc_store.specs.Uses.{StopsOpening, log_calls, page_calls};
ghost use Rattle.dc_core.specs.Restarting.{restarted};
ghost use Rattle.dc_core.specs.DcView.{fresh_dc};
ghost use Rattle.dc_core.specs.Serves.{with_system};
ghost use Rattle.dc_core.specs.Kept.{IsDc};

use crate::base::Base;
use crate::performances::Performances;
use crate::system::{System, top_of};
use dc_store::{Device, Devices, Refused};
use record_key::Refusal;
use stable::{CrashLog, CrashPages, LogDevice, MemLog, MemPages, PageDevice};
use std::alloc::Global;
use std::marker::Model;

/// Leaves with their log and their pages, and the session that they serve.
#[derive(Drop)]
pub struct Dc<D: LogDevice = MemLog, P: PageDevice = MemPages> {
    // The greatest session taken, 0 if none.
    pub(crate) stored: u64,
    // The session that runs, 0 if none.
    pub(crate) session: u64,
    pub(crate) redo: bool,
    // No request up to this number is lost any more.
    pub(crate) known: u64,
    // The greatest number of an entry when these leaves were opened, 0 if none.
    pub(crate) opened_to: u64,
    // The greatest low number when redo last ended, 0 if it hasn't since these leaves were opened.
    pub(crate) redone_low: u64,
    pub(crate) system: System<D, P>,
    // The records when these leaves were opened.
    pub(crate) opened: Base,
    // What was performed since and wasn't taken back.
    pub(crate) performed: Performances,
}

impl<D: LogDevice, P: PageDevice> Model for Dc<D, P> {
    ghost use Rattle.std.specs.Coded.{codes};
    ghost use Rattle.record_key.specs.Table.{table_code};
    ghost use Rattle.dc_store.specs.SystemView.{pages_code};
    ghost use Rattle.dc_core.specs.DcView.{DcView};
    ghost use Rattle.dc_core.specs.Kept.{IsDc};
    ghost use Rattle.dc_core.specs.Seen.{seen};

    ghost Value = { DcView };

    ghost coded = { Prim.hlevel (codes, table_code, pages_code) };

    ghost view = { λ d. seen d };

    ghost invariant = { λ d. IsDc (seen d) };
}

impl<D: LogDevice, P: PageDevice> Dc<D, P> {
    /// A component of no records that has taken no session, on empty devices. Refused NoMemory.
    pub fn new(alloc: Global, log: D, pages: P) -> Result<Dc<D, P>, Refusal>
    where
        D: Drop,
        P: Drop,
        requires logged { (D.forced log ≡ []) × (D.pending log ≡ []) }
        requires written { P.pages pages ≡ map.empty }
        ensures fresh { IfOk result (λ dc. dc ≡ fresh_dc (D.usage log) (P.usage pages)) }
        ensures memory { IfErr result (λ refusal. refusal ≡ Refusal.NoMemory) }
    {
        let system = match System::new(alloc, log, pages) {
            Ok(system) => system,
            Err(left) => return Err(left.refusal),
        };
        system.kept();
        let opened = Base::of(&system);
        Ok(Dc {
            stored: 0,
            session: 0,
            redo: false,
            known: 0,
            opened_to: 0,
            redone_low: 0,
            system,
            opened,
            performed: Performances::new(),
        })
    }

    /// Opens what a crash left on the devices. No session runs until a Connect above the stored one. A cut last record
    /// is cut off the log, last of all. Refused NoMemory, Device; BadBytes where the bytes are no log of leaves and
    /// their images. The devices are handed back with the bytes that they held.
    pub fn restart(alloc: Global, devices: Devices<D, P>) -> Result<Dc<D, P>, Refused<D, P>>
        requires none_pending { D.pending devices.log ≡ [] }
        ensures recovers { IfOk result (λ dc. Recovers (D.forced devices.log) (P.pages devices.pages) dc.system) }
        ensures restarted { IfOk result (λ dc. dc ≡ restarted dc.system) }
        ensures log_used { IfOk result (λ dc. dc.system.log_usage ≡ called_often
            (log_calls (length (spelled dc.system.log)) (length (D.forced devices.log))) (D.usage devices.log)) }
        ensures pages_used { IfOk result (λ dc.
            dc.system.page_usage ≡ called_often (page_calls (P.pages devices.pages)) (P.usage devices.pages)) }
        ensures refused { IfErr result (λ left.
            RefusesRecovery (D.forced devices.log) (P.pages devices.pages) left.refusal) }
        ensures log_left { IfErr result (λ left. D.forced left.devices.log ≡ D.forced devices.log) }
        ensures none_left { IfErr result (λ left. D.pending left.devices.log ≡ []) }
        ensures pages_left { IfErr result (λ left. P.pages left.devices.pages ≡ P.pages devices.pages) }
        ensures stopped { IfErr result (λ left. StopsOpening left.refusal (P.pages devices.pages)
            (D.usage devices.log) (D.usage left.devices.log) (P.usage devices.pages) (P.usage left.devices.pages)) }
    {
        let Devices { log, pages } = devices;
        let opened = System::open(alloc, log, pages)?;
        opened.system.kept();
        let base = Base::of(&opened.system);
        let top = top_of(&opened.system);
        Ok(Dc {
            stored: opened.stored_session,
            session: 0,
            redo: false,
            known: top,
            opened_to: top,
            redone_low: 0,
            system: opened.system,
            opened: base,
            performed: Performances::new(),
        })
    }

    /// The devices, as a crash finds them: all records stand on the log's, and the stable ones are forced; no others
    /// are, where it forces all or nothing.
    pub fn stop(self) -> Devices<D, P>
        ensures holds { D.forced result.log ++ D.pending result.log ≡ spelled self.system.log }
        ensures forced { BeginsWith (D.forced result.log) (spelled (beginning self.system.log self.system.stable)) }
        ensures just { D.forces_whole ≡ true
            → D.forced result.log ≡ spelled (beginning self.system.log self.system.stable) }
        ensures pages { P.pages result.pages ≡ self.system.pages }
        ensures log_usage { D.usage result.log ≡ self.system.log_usage }
        ensures page_usage { P.usage result.pages ≡ self.system.page_usage }
    {
        let Dc {
            stored: _,
            session: _,
            redo: _,
            known: _,
            opened_to: _,
            redone_low: _,
            system,
            opened: _,
            performed: _,
        } = self;
        system.stop()
    }

    /// What holds at every moment: the leaves and their devices are well formed, the records are what was performed,
    /// no number stands twice, each is captured, and what is saved under a number is its answer; on each key they came
    /// in the order of their numbers, but for Adds among Adds.
    pub fn kept(&self)
        ensures { IsDc self.now }
    {
        let _ = &self.system;
    }

    /// What holds at every moment: a failure of a device that was set is still to come.
    pub fn to_come(&self)
        ensures log { IsToCome self.now.system.log_usage }
        ensures pages { IsToCome self.now.system.page_usage }
    {
        self.system.to_come();
    }
}

impl<D: CrashLog, P: CrashPages> Dc<D, P> {
    /// The `n`-th call of the device from now fails, once. It takes the place of a failure of that device that was set
    /// and hasn't happened.
    pub fn fail_at(&mut self, device: Device, n: u64)
        requires { 1 ≤ n }
        ensures { self.new ≡ with_system self.old (failing_at device n self.old.system) }
    {
        self.system.fail_at(device, n);
    }
}
