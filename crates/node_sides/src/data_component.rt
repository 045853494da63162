//! The data component, which runs or is down.
ghost use Rattle.stable.specs.Usage.{IsToCome};
ghost use Rattle.node_laws.specs.dc_core.specs.Kept.{IsDc};
ghost use Rattle.node_laws.specs.dc_store.specs.Kept.{IsRecoverable};
ghost use Rattle.node_laws.specs.Component.{DcCrashesTo, DcRestartsTo};
ghost use Rattle.node_sides.specs.Seen.{dc_of};

use crate::stopped_dc::{StoppedDc, UnopenedDc};
use node_laws::dc_core::Dc;
use record_key::Refusal;
use stable::{CrashLog, CrashPages};
use std::alloc::Global;

#[derive(Drop)]
pub enum DataComponent<D: CrashLog, P: CrashPages> {
    Up(Dc<D, P>),
    Down(StoppedDc<D, P>),
}

impl<D: CrashLog, P: CrashPages> DataComponent<D, P> {
    pub fn kept(&self)
        ensures { IsDc (dc_of self.now).dc }
    {
        match self {
            DataComponent::Up(dc) => dc.kept(),
            DataComponent::Down(stopped) => stopped.kept(),
        }
    }

    /// What holds at every moment: a failure of a device that was set is still to come.
    pub fn to_come(&self)
        ensures log { IsToCome (dc_of self.now).dc.system.log_usage }
        ensures pages { IsToCome (dc_of self.now).dc.system.page_usage }
    {
        match self {
            DataComponent::Up(dc) => dc.to_come(),
            DataComponent::Down(stopped) => stopped.to_come(),
        }
    }

    /// Loses what isn't on the devices; of the records that aren't stable the first stay, so many, and of the next one
    /// at most so many bytes. False where it is down already.
    pub fn crash(self, frames: u64, bytes: u64) -> (DataComponent<D, P>, bool)
        requires { IsRecoverable (dc_of self).dc.system }
        ensures { DcCrashesTo (dc_of self) frames bytes result.1 (dc_of result.0) }
    {
        match self {
            DataComponent::Up(dc) => {
                let stopped = StoppedDc::crashed(dc, frames, bytes);
                (DataComponent::Down(stopped), true)
            }
            down => (down, false),
        }
    }

    /// Opens it on its devices, and says how many leaves it has. None where it runs already. Refused NoMemory, Device;
    /// it is down still then.
    pub fn restart(self, alloc: Global) -> (DataComponent<D, P>, Result<Option<usize>, Refusal>)
        requires { IsRecoverable (dc_of self).dc.system }
        ensures { DcRestartsTo (dc_of self) result.1 (dc_of result.0) }
    {
        match self {
            DataComponent::Down(stopped) => match stopped.restart(alloc) {
                Ok(dc) => {
                    let leaves = dc.leaves();
                    (DataComponent::Up(dc), Ok(Some(leaves)))
                }
                Err(UnopenedDc { refusal, stopped }) => {
                    (DataComponent::Down(stopped), Err(refusal))
                }
            },
            up => (up, Ok(None)),
        }
    }
}
