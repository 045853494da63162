//! The transaction component, which runs or is down.
ghost use Rattle.stable.specs.Usage.{IsToCome};
ghost use Rattle.node_laws.specs.tc_core.specs.Kept.{IsTc};
ghost use Rattle.node_laws.specs.Component.{TcCrashesTo, TcRestartsTo};
ghost use Rattle.node_sides.specs.Seen.{tc_of};

use crate::stopped_tc::{StoppedTc, UnopenedTc};
use node_laws::tc_core::Tc;
use record_key::Refusal;
use stable::CrashLog;
use std::alloc::Global;

#[derive(Drop)]
pub enum TransactionComponent<D: CrashLog> {
    Up(Tc<D>),
    Down(StoppedTc<D>),
}

impl<D: CrashLog> TransactionComponent<D> {
    pub fn kept(&self)
        ensures { IsTc (tc_of self.now).tc }
    {
        match self {
            TransactionComponent::Up(tc) => tc.kept(),
            TransactionComponent::Down(stopped) => stopped.kept(),
        }
    }

    /// What holds at every moment: a failure of the device that was set is still to come.
    pub fn to_come(&self)
        ensures { IsToCome (tc_of self.now).tc.usage }
    {
        match self {
            TransactionComponent::Up(tc) => tc.to_come(),
            TransactionComponent::Down(stopped) => stopped.to_come(),
        }
    }

    /// Loses what isn't on the device; of the records that aren't stable the first stay, so many, and of the next one
    /// at most so many bytes. False where it is down already.
    pub fn crash(self, frames: u64, bytes: u64) -> (TransactionComponent<D>, bool)
        ensures { TcCrashesTo (tc_of self) frames bytes result.1 (tc_of result.0) }
    {
        match self {
            TransactionComponent::Up(tc) => {
                let stopped = StoppedTc::crashed(tc, frames, bytes);
                (TransactionComponent::Down(stopped), true)
            }
            down => (down, false),
        }
    }

    /// Opens it on its device, and says how many records it has. None where it runs already. Refused NoMemory, Device;
    /// it is down still then.
    pub fn restart(self, alloc: Global) -> (TransactionComponent<D>, Result<Option<u64>, Refusal>)
        ensures { TcRestartsTo (tc_of self) result.1 (tc_of result.0) }
    {
        match self {
            TransactionComponent::Down(stopped) => match stopped.restart(alloc) {
                Ok(tc) => {
                    let records = tc.records();
                    (TransactionComponent::Up(tc), Ok(Some(records)))
                }
                Err(UnopenedTc { refusal, stopped }) => {
                    (TransactionComponent::Down(stopped), Err(refusal))
                }
            },
            up => (up, Ok(None)),
        }
    }
}
