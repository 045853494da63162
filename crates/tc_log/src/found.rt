//! What the whole frames on a device say, before anything of the device is changed.
ghost use Rattle.std.specs.Prelude.{◌≡◌, []};
ghost use Rattle.tc_log.specs.Opening.{IsLogOf};
ghost use Rattle.tc_log.specs.Replay.{IsAnalysis};

use crate::analysis::Analysis;
use crate::frames::Frames;
use crate::replay::Index;
use stable::LogDevice;
use std::marker::Model;

/// The log of a device that was read and judged in one pass. The device is as it was: a cut last frame still stands.
#[derive(Drop)]
pub struct Found<D: LogDevice> {
    pub(crate) frames: Frames<D>,
    pub(crate) index: Index,
}

impl<D: LogDevice> Model for Found<D> {
    ghost use Rattle.tc_log.specs.Found.{FoundView, IsRead};

    ghost Value = { FoundView };

    ghost view = { λ f. record {
      records = f.frames.records;
      bytes = f.frames.device.forced;
      usage = f.frames.device.usage;
    } };

    ghost invariant = { λ f. IsRead f.frames f.index };
}

impl<D: LogDevice> Found<D> {
    /// Its records.
    pub fn frames(&self) -> &Frames<D>
        ensures records { result.now.records ≡ self.now.records }
        ensures all { IsLogOf self.now.bytes self.now.records }
    {
        // Called for what it tells of the records: they are legal, and each has a spelling.
        let _count = self.frames.len();
        &self.frames
    }

    /// What a restart asks of them.
    pub fn analysis(&self) -> &Analysis
        ensures { IsAnalysis self.now.records result.now }
    {
        &self.index.analysis
    }

    /// The device, as it was read.
    pub fn stop(self) -> D
        ensures forced { D.forced result ≡ self.bytes }
        ensures none_pending { D.pending result ≡ [] }
        ensures usage { D.usage result ≡ self.usage }
    {
        let Found { frames, index: _ } = self;
        frames.stop()
    }
}
