//! Leaves are split, merged and written.
ghost use Rattle.dc_core.specs.Tends.{SplitsTo, MergesTo, TendsTo, FlushesTo};

use crate::dc::Dc;
use dc_store::{Neighbours, Tended};
use record_key::{Key, Refusal};
use stable::{LogDevice, PageDevice};

impl<D: LogDevice, P: PageDevice> Dc<D, P> {
    /// Splits the leaf of the key, where it has two records at least and no entry above the known end; else refused
    /// NotNow, then NumbersSpent, NoMemory or Device, and unchanged.
    pub fn split(&mut self, key: &Key) -> Result<Neighbours, Refusal>
        ensures gives { SplitsTo self.old key.now result self.new }
    {
        let given = self.system.split(key, self.known);
        self.system.kept();
        given
    }

    /// Joins the leaf of the key and the one after it, in a session past redo, where they have few records and no entry
    /// above the known end; else refused as `split` is.
    pub fn merge(&mut self, key: &Key) -> Result<Neighbours, Refusal>
        ensures gives { MergesTo self.old key.now result self.new }
    {
        if !self.may_merge() {
            return Err(Refusal::NotNow);
        }
        let given = self.system.merge(key, self.known);
        self.system.kept();
        given
    }

    /// Splits the first leaf of more than eight records, else joins the first two that may be joined, else does
    /// nothing. Leaves with an entry above the known end are passed over. Refused NumbersSpent, NoMemory or Device, and
    /// unchanged; never where there is nothing to do.
    pub fn tend(&mut self) -> Result<Tended, Refusal>
        ensures gives { TendsTo self.old result self.new }
    {
        let merges = self.may_merge();
        let given = self.system.tend(merges, self.known);
        self.system.kept();
        given
    }

    /// Writes the leaf of the key to its page, its last system transaction being stable first, and gives its number.
    /// Refused NotNow where it has an entry above the known end, or NoMemory, and unchanged then; Device, where the log
    /// may be stable further.
    pub fn flush(&mut self, key: &Key) -> Result<u64, Refusal>
        ensures gives { FlushesTo self.old key.now result self.new }
    {
        let given = self.system.flush(key, self.known);
        self.system.kept();
        given
    }
}
