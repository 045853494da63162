//! Leaves parted at a key, and neighbours put together.
ghost use Rattle.std.specs.Prelude.{◌≡◌, OnOk, OnErr, IfOk, IfErr};
ghost use Rattle.std.specs.Option.{option_copied};
ghost use Rattle.dc_leaf.specs.Parting.{upper_of, lower_of, joined_of, AreNeighbours};

use crate::leaf::Leaf;
use crate::rows::{drop_rows_from, rows_from};
use codec::RowBuffer;
use record_key::{Key, Refusal};

impl Leaf {
    /// A copy of what stands at or above the key, as a leaf of this number that system transaction `last` made.
    /// Refused NoMemory.
    pub fn upper(&self, key: &Key, id: u64, last: u64) -> Result<Leaf, Refusal>
        ensures upper { IfOk result (λ upper. upper ≡ upper_of self.now key.now id last) }
        ensures refused { IfErr result (λ refusal. refusal ≡ Refusal.NoMemory) }
    {
        let mut rows = RowBuffer::new(self.rows.allocator());
        rows.add(&rows_from(&self.rows.lent(), key))?;
        let ab = self.ab.upper(key)?;
        Ok(Leaf {
            id,
            last,
            low_fence: Some(key.copied()),
            high_fence: copied_fence(self.high_fence.as_ref()),
            rows,
            ab,
        })
    }

    /// Drops what stands at or above the key, which is the high fence from now on. Takes no memory.
    pub fn drop_from(&mut self, key: &Key, last: u64)
        ensures { self.new ≡ lower_of self.old key.now last }
    {
        drop_rows_from(&mut self.rows, key);
        self.ab.drop_from(key);
        self.high_fence = Some(key.copied());
        self.last = last;
    }

    /// Gives away what stands at or above the key, as a leaf of this number; system transaction `last` does it.
    /// Refused NoMemory, and unchanged then.
    pub fn cut(&mut self, key: &Key, id: u64, last: u64) -> Result<Leaf, Refusal>
        ensures upper { IfOk result (λ upper. upper ≡ upper_of self.old key.now id last) }
        ensures lower { OnOk result (self.new ≡ lower_of self.old key.now last) }
        ensures unchanged { OnErr result (self.new ≡ self.old) }
        ensures refused { IfErr result (λ refusal. refusal ≡ Refusal.NoMemory) }
    {
        let upper = self.upper(key, id, last)?;
        self.drop_from(key, last);
        Ok(upper)
    }

    /// The leaf of this one and its right neighbour, under this one's number; system transaction `last` makes it.
    /// Refused NoMemory.
    pub fn join(&self, right: &Leaf, last: u64) -> Result<Leaf, Refusal>
        requires { AreNeighbours self.now right.now }
        ensures joined { IfOk result (λ leaf. leaf ≡ joined_of self.now right.now last) }
        ensures refused { IfErr result (λ refusal. refusal ≡ Refusal.NoMemory) }
    {
        let mut rows = RowBuffer::new(self.rows.allocator());
        rows.add(&self.rows.lent())?;
        rows.add(&right.rows.lent())?;
        let mut ab = self.ab.copied()?;
        ab.join(&right.ab)?;
        Ok(Leaf {
            id: self.id,
            last,
            low_fence: copied_fence(self.low_fence.as_ref()),
            high_fence: copied_fence(right.high_fence.as_ref()),
            rows,
            ab,
        })
    }
}

/// The same fence again. Takes no memory.
pub fn copied_fence(fence: Option<&Key>) -> Option<Key>
    ensures { result ≡ option_copied fence.entry }
{
    match fence {
        Some(key) => Some(key.copied()),
        None => None,
    }
}
