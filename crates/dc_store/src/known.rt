//! Which leaves are there after the records of a log, and which record may come next.
ghost use Rattle.std.specs.Prelude.{◌≡◌, ◌∷◌, [], List, OnOk, IfOk};
ghost use Rattle.codec.specs.DcRecords.{IsDcRecord};
ghost use Rattle.codec.specs.declared.dc_record.DcRecord.{DcRecord};
ghost use Rattle.dc_store.specs.Known.{may_follow, IsKnown};

use codec::DcRecord;
use std::alloc::{AllocError, Global};
use std::collections::BTreeSet;

/// What is known once some records are read.
#[derive(Drop)]
pub(crate) struct Known {
    /// The numbers of the leaves that are there.
    pub leaves: BTreeSet<u64>,
    /// One above the greatest leaf number that is named.
    pub next_id: u64,
    /// The greatest session that was accepted, 0 if none.
    pub stored_session: u64,
}

impl Known {
    /// After no records there is leaf 1.
    pub(crate) fn new(alloc: Global) -> Result<Known, AllocError>
        ensures { IfOk result (IsKnown []) }
    {
        let mut leaves = BTreeSet::new(alloc);
        leaves.insert(1)?;
        Ok(Known {
            leaves,
            next_id: 2,
            stored_session: 0,
        })
    }

    /// The leaves that the record names are there, and a new one has the next number.
    pub(crate) fn lets(&self, next: &DcRecord) -> bool
        ensures { (log : List DcRecord) → IsKnown log self.now → result ≡ may_follow log next.now }
    {
        match next {
            DcRecord::Accept { .. } => true,
            DcRecord::Split { left, right, .. } => {
                self.leaves.contains(left) && right.id == self.next_id
            }
            DcRecord::Merge { left, right, .. } => {
                self.leaves.contains(left) && self.leaves.contains(right)
            }
        }
    }

    /// Takes in a record that has a spelling.
    pub(crate) fn follow(&mut self, next: &DcRecord) -> Result<(), AllocError>
        requires { IsDcRecord next.now }
        ensures { OnOk result ((log : List DcRecord) → IsKnown log self.old → IsKnown (next.now ∷ log) self.new) }
    {
        match next {
            DcRecord::Accept { session } => {
                self.stored_session = (*session).max(self.stored_session);
            }
            DcRecord::Split { right, .. } => {
                self.leaves.insert(right.id)?;
                self.next_id = right.id + 1;
            }
            DcRecord::Merge { right, .. } => {
                self.leaves.remove(right);
            }
        }
        Ok(())
    }
}
