//! Sessions that are accepted, and leaves that take back what they did above the end of a session's log.
ghost use Rattle.std.specs.Prelude.{◌≡◌, ◌<◌, ◌^◌, map, IfOk, IsOkUnless};
ghost use Rattle.dc_leaf.specs.TakingBack.{taken_back};
ghost use Rattle.dc_store.specs.Gives.{AcceptGives};
ghost use Rattle.dc_store.specs.Replacing.{replaced, AllFit};

use crate::change_log::LAST_NUMBER;
use crate::system::SystemTxns;
use codec::DcRecordRef;
use dc_leaf::Leaf;
use dc_tree::LeafSet;
use record_key::Refusal;
use stable::{LogDevice, PageDevice};

/// A leaf that is put in the place of another.
#[derive(Drop)]
pub struct Replacement {
    pub place: usize,
    pub leaf: Box<Leaf>,
}

impl<L: LeafSet, D: LogDevice, P: PageDevice> SystemTxns<L, D, P> {
    /// Logs that the session is accepted, forces the log, and takes back in each leaf what its entries above the end of
    /// the session's log did. Refused NumbersSpent, NoMemory, Device: the leaves are as before, and where the force
    /// fails the record stands in the log.
    pub fn accept(&mut self, session: u64, end: u64) -> Result<(), Refusal>
        requires { session < 2 ^ 48 }
        ensures gives { AcceptGives self.old session end result self.new }
    {
        if self.log.len() >= LAST_NUMBER {
            return Err(Refusal::NumbersSpent);
        }
        // All memory for leaves is taken before the record is appended, so that no leaf is changed unless it is stable.
        let replacements = copies_above(&self.leaves, end)?;
        self.log.append(&DcRecordRef::Accept { session })?;
        self.log.force()?;
        replace_all(&mut self.leaves, replacements);
        self.leaves.kept();
        Ok(())
    }
}

/// What the leaves with an entry above the end are once it is taken back. Refused NoMemory; without such a leaf it takes
/// none.
fn copies_above<L: LeafSet>(leaves: &L, end: u64) -> Result<Vec<Replacement>, Refusal>
    ensures fit { IfOk result (λ copies. AllFit (L.leaves leaves.now) copies.items) }
    ensures taken { IfOk result (λ copies. replaced (L.leaves leaves.now) copies.items
        ≡ map (λ leaf. taken_back leaf end) (L.leaves leaves.now)) }
    ensures memory { IsOkUnless result Refusal.NoMemory }
{
    let alloc = leaves.allocator();
    let mut copies = Vec::new(alloc);
    for place in 0..leaves.len() {
        let leaf = leaves.leaf(place);
        if !leaf.is_within(end) {
            let leaf = Box::new(alloc, leaf.taken_back(end)?)?;
            copies.push(Replacement { place, leaf })?;
        }
    }
    Ok(copies)
}

/// Puts each leaf in its place. Takes no memory.
fn replace_all<L: LeafSet>(leaves: &mut L, replacements: Vec<Replacement>)
    requires { AllFit (L.leaves leaves.old) replacements.items }
    ensures { L.leaves leaves.new ≡ replaced (L.leaves leaves.old) replacements.items }
{
    for replacement in replacements {
        leaves.replace(replacement.place, replacement.leaf);
    }
}
