//! Leaves that are split and joined: first the record, then the leaves.
ghost use Rattle.std.specs.Prelude.{◌≡◌, ◌+◌, ◌<◌, ◌^◌, true, get_or, IfOk, IfErr};
ghost use Rattle.dc_leaf.specs.Leaf.{first};
ghost use Rattle.dc_leaf.specs.Tops.{are_within};
ghost use Rattle.dc_tree.specs.Parting.{may_split_at, may_merge_at};
ghost use Rattle.dc_store.specs.Changes.{first_large, first_pair};
ghost use Rattle.dc_store.specs.Gives.{SplitGives, MergeGives, TendGives, Splits, Merges, StopsAppend, make_refusal, append_refusal};

use crate::change_log::LAST_NUMBER;
use crate::image::image_of;
use crate::system::SystemTxns;
use crate::tended::{Neighbours, Tended};
use codec::DcRecordRef;
use dc_tree::{LeafSet, may_merge, may_split, plan_merge, plan_split};
use record_key::{Key, Refusal};
use stable::{LogDevice, PageDevice};

impl<L: LeafSet, D: LogDevice, P: PageDevice> SystemTxns<L, D, P> {
    /// Splits the leaf that has the key at its middle record: one append to the log, then the leaves. Refused NotNow
    /// where it has fewer than two records or an entry above the known end, NumbersSpent, NoMemory, Device.
    pub fn split(&mut self, key: &Key, known: u64) -> Result<Neighbours, Refusal>
        ensures gives { SplitGives self.old key.now known result self.new }
    {
        let place = self.leaves.place_of(key);
        if !may_split(&self.leaves, place) || !self.leaves.leaf(place).is_within(known) {
            return Err(Refusal::NotNow);
        }
        self.split_at(place)
    }

    /// Joins the leaf that has the key with the one after it, under its own number: one append to the log, then the
    /// leaves. Refused NotNow where the two may not be joined or one has an entry above the known end, NumbersSpent,
    /// NoMemory, Device.
    pub fn merge(&mut self, key: &Key, known: u64) -> Result<Neighbours, Refusal>
        ensures gives { MergeGives self.old key.now known result self.new }
    {
        let place = self.leaves.place_of(key);
        if !may_merge(&self.leaves, place) || !pair_within(&self.leaves, place, known) {
            return Err(Refusal::NotNow);
        }
        self.merge_at(place)
    }

    /// Splits the first large leaf; where there is none and merges are let, joins the first two that may be. Leaves
    /// with an entry above the known end are passed over. Refused NumbersSpent, NoMemory, Device, and never where nothing
    /// is to be done.
    pub fn tend(&mut self, merges: bool, known: u64) -> Result<Tended, Refusal>
        ensures gives { TendGives self.old merges known result self.new }
    {
        if let Some(place) = self.leaves.first_large(known) {
            return Ok(Tended::Split(self.split_at(place)?));
        }
        if !merges {
            return Ok(Tended::Nothing);
        }
        match self.leaves.first_pair(known) {
            Some(place) => Ok(Tended::Merged(self.merge_at(place)?)),
            None => Ok(Tended::Nothing),
        }
    }

    fn split_at(&mut self, place: usize) -> Result<Neighbours, Refusal>
        requires { may_split_at self.old.leaves place ≡ true }
        ensures split { IfOk result (λ pair. Splits self.old place pair
            self.new) }
        ensures stopped { IfErr result (λ refusal. StopsAppend
            (make_refusal self.old) self.old refusal
            self.new) }
    {
        let last = self.log.len();
        let id = self.log.next_id();
        if last >= LAST_NUMBER || id > LAST_NUMBER {
            return Err(Refusal::NumbersSpent);
        }
        let split = plan_split(&self.leaves, place, id, last + 1)?;
        self.leaves.make_room()?;
        let pair = Neighbours {
            left: split.left,
            right: split.right.id(),
        };
        self.log.append(&DcRecordRef::Split {
            left: split.left,
            cut: &split.cut,
            right: image_of(&split.right),
        })?;
        self.leaves.split(place, split);
        Ok(pair)
    }

    fn merge_at(&mut self, place: usize) -> Result<Neighbours, Refusal>
        requires { may_merge_at self.old.leaves place ≡ true }
        ensures merged { IfOk result (λ pair. Merges self.old place pair
            self.new) }
        ensures stopped { IfErr result (λ refusal. StopsAppend
            (append_refusal self.old) self.old refusal
            self.new) }
    {
        let last = self.log.len();
        if last >= LAST_NUMBER {
            return Err(Refusal::NumbersSpent);
        }
        let merge = plan_merge(&self.leaves, place, last + 1)?;
        let pair = Neighbours {
            left: merge.merged.id(),
            right: merge.right,
        };
        self.log.append(&DcRecordRef::Merge {
            left: pair.left,
            right: pair.right,
            merged: image_of(&merge.merged),
        })?;
        self.leaves.merge(place, merge);
        Ok(pair)
    }
}

/// Whether neither the leaf at a place nor the one after it has an entry above the known end.
fn pair_within<L: LeafSet>(leaves: &L, place: usize, known: u64) -> bool
    requires pair { may_merge_at (L.leaves leaves.now) place ≡ true }
    requires next { place + 1 < 2 ^ 64 }
    ensures { result ≡ are_within known (get_or (L.leaves leaves.now) place first)
        (get_or (L.leaves leaves.now) (place + 1) first) }
{
    leaves.leaf(place).is_within(known) && leaves.leaf(place + 1).is_within(known)
}
