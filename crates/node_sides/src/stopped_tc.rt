//! What is left of the transaction component while it is down: its log's device.
ghost use Rattle.std.specs.Prelude.{◌≡◌, ◌≤◌, ℕ, IfOk, IfErr, length};
ghost use Rattle.stable.specs.Usage.{IsToCome, failing_in};
ghost use Rattle.node_laws.specs.tc_core.specs.Kept.{IsTc};
ghost use Rattle.node_laws.specs.tc_core.specs.Opened.{crashed, IsOpenedAgain};
ghost use Rattle.tc_log.specs.Opening.{UsedToOpen};
ghost use Rattle.node_laws.specs.tc_core.specs.TcView.{used_so};
ghost use Rattle.node_laws.specs.Component.{Keeps, tc_size, LacksDevice};

use crate::crashing::bytes_kept_of;
use crate::found_tc_log::FoundTcLog;
use node_laws::tc_core::Tc;
use record_key::Refusal;
use stable::CrashLog;
use std::alloc::Global;
use std::marker::Model;
use tc_log::Refused;

/// A device that a crash left. It is seen as what its log opens as.
#[derive(Drop)]
pub struct StoppedTc<D: CrashLog> {
    device: D,
    found: FoundTcLog,
}

impl<D: CrashLog> Model for StoppedTc<D> {
    ghost use Rattle.std.specs.Prelude.{◌≡◌, []};
    ghost use Rattle.std.specs.Coded.{codes};
    ghost use Rattle.tc_log.specs.Opening.{IsLogOf};
    ghost use Rattle.node_laws.specs.tc_core.specs.TcView.{TcView};
    ghost use Rattle.node_laws.specs.tc_core.specs.Opened.{opens_as};

    ghost Value = { TcView };

    ghost coded = { Prim.hlevel codes };

    ghost view = { λ s. opens_as s.found.log (D.usage s.device) };

    ghost invariant = { λ s. IsLogOf (D.forced s.device) s.found.log × (D.pending s.device ≡ []) };
}

/// A device that wasn't opened, and why.
#[derive(Drop)]
pub struct UnopenedTc<D: CrashLog> {
    pub refusal: Refusal,
    pub stopped: StoppedTc<D>,
}

impl<D: CrashLog> StoppedTc<D> {
    /// What a crash leaves of the component: of the records that aren't stable the first stay, so many, and of the next
    /// one at most so many bytes.
    pub fn crashed(tc: Tc<D>, frames: u64, bytes: u64) -> StoppedTc<D>
        ensures { (kept : ℕ) × Keeps (tc_size tc.log) tc.stable (length tc.log) frames bytes kept
            × (result ≡ crashed tc kept) }
    {
        tc.kept();
        let end = tc.end_of(tc.records());
        let kept = bytes_kept_of(&tc, frames, bytes);
        let mut device = tc.stop();
        let forced = end - device.unforced();
        device.crash(kept.saturating_sub(forced));
        let found = FoundTcLog::on(&device);
        StoppedTc { device, found }
    }

    /// The component on its device. Refused NoMemory, Device.
    pub fn restart(self, alloc: Global) -> Result<Tc<D>, UnopenedTc<D>>
        ensures restarted { IfOk result (IsOpenedAgain self) }
        ensures refused { IfErr result (λ left. LacksDevice left.refusal) }
        ensures left { IfErr result (λ left. left.stopped ≡ used_so self left.stopped.usage) }
        ensures used { IfErr result (λ left. UsedToOpen self.usage left.refusal left.stopped.usage) }
    {
        let StoppedTc { device, found: _ } = self;
        match Tc::open(alloc, device) {
            Ok(tc) => {
                tc.kept();
                Ok(tc)
            }
            Err(Refused { refusal, device }) => {
                let found = FoundTcLog::on(&device);
                Err(UnopenedTc {
                    refusal,
                    stopped: StoppedTc { device, found },
                })
            }
        }
    }

    /// The `n`-th call of the device from now fails.
    pub fn fail_at(&mut self, n: u64)
        requires { 1 ≤ n }
        ensures { self.new ≡ used_so self.old (failing_in n self.old.usage) }
    {
        self.device.fail_at(n);
    }

    pub fn kept(&self)
        ensures { IsTc self.now }
    {
        let _ = &self.found;
    }

    /// What holds at every moment: a failure of the device that was set is still to come.
    pub fn to_come(&self)
        ensures { IsToCome self.now.usage }
    {
        self.device.kept();
    }
}
