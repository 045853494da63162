//! How much of the log is stable, and what the data component may forget: low water marks, and checkpoints.
ghost use Rattle.std.specs.Prelude.{◌≡◌, IfErr, OnOk};
ghost use Rattle.tc_core.specs.LowWater.{Announces, RefusesLow, LowWaterGives, IsGreatestAnnounced};
ghost use Rattle.tc_core.specs.Calls.{TellStableGives};
ghost use Rattle.tc_core.specs.Checkpoint.{CheckpointGives};
ghost use Rattle.tc_core.specs.Changes.{greater as greater_of};
ghost use Rattle.tc_core.specs.Answering.{CheckpointedGives};
ghost use Rattle.tc_core.specs.Kept.{IsTc};
ghost use Rattle.tc_core.specs.Seen.{seen};

use crate::parts::Parts;
use crate::phase::Phase;
use crate::told::Told;
use codec::Request;
use history::Record;
use record_key::Refusal;
use stable::LogDevice;

impl<D: LogDevice> Parts<D> {
    pub fn tell_stable(&self) -> Result<Request, Refusal>
        ensures gives { TellStableGives (seen self.now) result }
    {
        self.running()?;
        Ok(Request::StableEnd {
            session: self.session,
            stable: self.log.stable_end(),
        })
    }

    /// Whether the number may be announced.
    pub fn can_announce(&self, low: u64) -> Result<(), Refusal>
        ensures allowed { OnOk result (Announces (seen self.now) low) }
        ensures refused { IfErr result (λ refusal. RefusesLow (seen self.now) low refusal) }
    {
        self.running()?;
        if low > self.greatest_low() {
            return Err(Refusal::BeyondStable);
        }
        Ok(())
    }

    pub fn low_water(&mut self, low: u64) -> Result<Request, Refusal>
        requires { IsTc (seen self.old) }
        ensures kept { IsTc (seen self.new) }
        ensures gives { LowWaterGives (seen self.old) low result (seen self.new) }
    {
        self.can_announce(low)?;
        self.announced = greater(self.announced, low);
        Ok(Request::LowWater {
            session: self.session,
            low,
        })
    }

    /// The greatest number that may be announced, 0 where clients aren't served.
    pub fn greatest_low(&self) -> u64
        ensures { IsGreatestAnnounced (seen self.now) result }
    {
        match self.phase {
            Phase::Running => self.log.answered_end(),
            _ => 0,
        }
    }

    pub fn checkpoint(&mut self) -> Result<Request, Refusal>
        requires { IsTc (seen self.old) }
        ensures kept { IsTc (seen self.new) }
        ensures gives { CheckpointGives (seen self.old) result (seen self.new) }
    {
        self.running()?;
        let low = self.announced;
        self.checkpointing = Some(low);
        Ok(Request::Checkpoint {
            session: self.session,
            low,
        })
    }

    /// The checkpoint that was asked for is logged; a reply of another number is none.
    pub fn on_checkpointed(&mut self, low: u64) -> Result<Told, Refusal>
        requires { IsTc (seen self.old) }
        ensures kept { IsTc (seen self.new) }
        ensures gives { CheckpointedGives (seen self.old) low result (seen self.new) }
    {
        let Some(asked) = self.checkpointing else {
            return Ok(Told::Nothing);
        };
        if asked != low {
            return Ok(Told::Nothing);
        }
        let number = self.log.append(&Record::Checkpoint { low })?;
        self.checkpointing = None;
        self.checkpointed = greater(self.checkpointed, low);
        Ok(Told::CheckpointLogged(number))
    }
}

/// The greater of two numbers.
fn greater(one: u64, other: u64) -> u64
    ensures { result ≡ greater_of one other }
{
    if one < other { other } else { one }
}
