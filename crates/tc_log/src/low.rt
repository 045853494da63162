//! Up to where every request is answered.
ghost use Rattle.history.specs.Legal.{FitsCheckpoint, IsLatest};

use crate::frames::Frames;
use stable::LogDevice;

impl<D: LogDevice> Frames<D> {
    /// The greatest number up to which every request has its answer, from a number on up to which it is so. Each
    /// record is passed once.
    pub(crate) fn answered_from(&self, known: u64) -> u64
        requires { FitsCheckpoint self.now.records known }
        ensures { IsLatest (FitsCheckpoint self.now.records) result }
    {
        let count = self.len();
        let mut end = known;
        while end < count && self.is_answered(end + 1) {
            end += 1;
        }
        end
    }
}
