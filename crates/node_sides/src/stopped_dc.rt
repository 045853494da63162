//! What is left of the data component while it is down: its devices.
ghost use Rattle.std.specs.Prelude.{◌≡◌, ◌⊎◌, ℕ, ◌≤◌, [], List, length, IfOk, IfErr};
ghost use Rattle.stable.specs.Usage.{IsToCome};
ghost use Rattle.node_laws.specs.dc_store.specs.Kept.{IsRecoverable};
ghost use Rattle.node_laws.specs.dc_store.specs.SystemView.{failing_at};
ghost use Rattle.node_laws.specs.dc_store.specs.Recovering.{HoldsFrames};
ghost use Rattle.node_laws.specs.dc_core.specs.Kept.{IsDc};
ghost use Rattle.node_laws.specs.dc_core.specs.Restarting.{restarted};
ghost use Rattle.node_laws.specs.dc_core.specs.Serves.{with_system};
ghost use Rattle.node_laws.specs.dc_store.specs.Crashed.{crashed};
ghost use Rattle.node_laws.specs.Component.{Keeps, dc_size, IsUp, IsDownWith};

use crate::crashing::kept_of;
use crate::found_dc_log::FoundDcLog;
use node_laws::dc_core::{Dc, Device, Devices, Refused};
use record_key::Refusal;
use stable::{CrashLog, CrashPages};
use std::alloc::Global;
use std::marker::Model;

/// Devices that a crash left. It is seen as the component that they give once it is restarted.
#[derive(Drop)]
pub struct StoppedDc<D: CrashLog, P: CrashPages> {
    devices: Devices<D, P>,
    found: FoundDcLog,
}

impl<D: CrashLog, P: CrashPages> Model for StoppedDc<D, P> {
    ghost use Rattle.std.specs.Prelude.{◌≡◌, []};
    ghost use Rattle.std.specs.Coded.{codes};
    ghost use Rattle.record_key.specs.Table.{table_code};
    ghost use Rattle.node_laws.specs.dc_store.specs.SystemView.{pages_code};
    ghost use Rattle.node_laws.specs.dc_store.specs.Recovering.{HoldsFrames};
    ghost use Rattle.node_laws.specs.dc_core.specs.DcView.{DcView};
    ghost use Rattle.node_laws.specs.dc_core.specs.Kept.{IsDc};
    ghost use Rattle.node_laws.specs.Component.{found_on};

    ghost Value = { DcView };

    ghost coded = { Prim.hlevel (codes, table_code, pages_code) };

    ghost view = { λ s.
        found_on (P.pages s.devices.pages) (D.usage s.devices.log) (P.usage s.devices.pages) s.found.log };

    ghost invariant = { λ s. HoldsFrames (D.forced s.devices.log) s.found.log
        × ((D.pending s.devices.log ≡ [])
        × IsDc (found_on (P.pages s.devices.pages) (D.usage s.devices.log) (P.usage s.devices.pages) s.found.log)) };
}

/// Devices that weren't opened, and why.
#[derive(Drop)]
pub struct UnopenedDc<D: CrashLog, P: CrashPages> {
    pub refusal: Refusal,
    pub stopped: StoppedDc<D, P>,
}

impl<D: CrashLog, P: CrashPages> StoppedDc<D, P> {
    /// What a crash leaves of the component: of the records that aren't stable the first stay, so many, and of the next
    /// one at most so many bytes.
    pub fn crashed(dc: Dc<D, P>, frames: u64, bytes: u64) -> StoppedDc<D, P>
        requires { IsRecoverable dc.system }
        ensures { (kept : ℕ)
            × Keeps (dc_size dc.system.log) dc.system.stable (length dc.system.log) frames bytes kept
            × (result ≡ restarted (crashed dc.system kept)) }
    {
        dc.kept();
        let end = dc.end_of(dc.records());
        let kept = kept_of(&dc, frames, bytes);
        let Devices { mut log, mut pages } = dc.stop();
        let forced = end - log.unforced();
        log.crash(kept.saturating_sub(forced));
        pages.crash();
        let found = FoundDcLog::on(&log);
        StoppedDc {
            devices: Devices { log, pages },
            found,
        }
    }

    /// The component on its devices. Refused NoMemory, Device.
    pub fn restart(self, alloc: Global) -> Result<Dc<D, P>, UnopenedDc<D, P>>
        requires { IsRecoverable self.system }
        ensures restarted { IfOk result (IsUp self) }
        ensures refused { IfErr result (λ left. IsDownWith self left.refusal left.stopped) }
    {
        self.kept();
        let StoppedDc { devices, found: _ } = self;
        match Dc::restart(alloc, devices) {
            Ok(dc) => Ok(dc),
            Err(Refused { refusal, devices }) => {
                let found = FoundDcLog::on(&devices.log);
                Err(UnopenedDc {
                    refusal,
                    stopped: StoppedDc { devices, found },
                })
            }
        }
    }

    /// The `n`-th call of the device from now fails.
    pub fn fail_at(&mut self, device: Device, n: u64)
        requires { 1 ≤ n }
        ensures { self.new ≡ with_system self.old (failing_at device n self.old.system) }
    {
        match device {
            Device::Log => self.devices.log.fail_at(n),
            Device::Pages => self.devices.pages.fail_at(n),
        }
    }

    pub fn kept(&self)
        ensures { IsDc self.now }
    {
        let _ = &self.found;
    }

    /// What holds at every moment: a failure of a device that was set is still to come.
    pub fn to_come(&self)
        ensures log { IsToCome self.now.system.log_usage }
        ensures pages { IsToCome self.now.system.page_usage }
    {
        self.devices.log.kept();
        self.devices.pages.kept();
    }
}
