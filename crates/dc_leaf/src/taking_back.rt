//! Requests that are taken back.
ghost use Rattle.std.specs.Prelude.{◌≡◌, [], ◌∷◌, OnOk, OnErr, IfOk, IfErr};
ghost use Rattle.record_key.specs.Rows.{AreInOrder, table_of};
ghost use Rattle.dc_leaf.specs.TakingBack.{rows_back, taken_back, AreRowsOf};

use crate::leaf::Leaf;
use crate::parting::copied_fence;
use crate::rows::{room_for, write_at};
use codec::RowBuffer;
use inverse::inverse_on;
use record_key::{Entries, Entry, Refusal};

impl Leaf {
    /// The leaf without what it did above an end: the entries there are taken back, latest first. Whoever has to change
    /// many leaves or none makes these first, as this alone takes memory. Refused NoMemory.
    pub fn taken_back(&self, end: u64) -> Result<Leaf, Refusal>
        ensures taken { IfOk result (λ leaf. leaf ≡ taken_back self.now end) }
        ensures refused { IfErr result (λ refusal. refusal ≡ Refusal.NoMemory) }
    {
        let mut rows = RowBuffer::new(self.rows.allocator());
        rows.add(&self.rows.lent())?;
        undo_above(&mut rows, self.ab.entries(), end)?;
        let mut ab = self.ab.copied()?;
        ab.pop_above(end);
        Ok(Leaf {
            id: self.id,
            last: self.last,
            low_fence: copied_fence(self.low_fence.as_ref()),
            high_fence: copied_fence(self.high_fence.as_ref()),
            rows,
            ab,
        })
    }

    /// Takes back the entries above an end, latest first. Refused NoMemory, and unchanged then.
    pub fn take_back(&mut self, end: u64) -> Result<(), Refusal>
        ensures taken { OnOk result (self.new ≡ taken_back self.old end) }
        ensures unchanged { OnErr result (self.new ≡ self.old) }
        ensures refused { IfErr result (λ refusal. refusal ≡ Refusal.NoMemory) }
    {
        *self = self.taken_back(end)?;
        Ok(())
    }
}

/// Undoes what the entries above an end did, latest first. Refused NoMemory: some of it may be undone then, so whoever
/// is refused lets the rows go.
fn undo_above(rows: &mut RowBuffer, entries: &Entries, end: u64) -> Result<(), Refusal>
    requires { AreInOrder rows.old.rows }
    ensures undone { OnOk result (AreRowsOf (rows_back end entries.now (table_of rows.old.rows)) entries.now
        rows.old.rows rows.new.rows) }
    ensures refused { IfErr result (λ refusal. refusal ≡ Refusal.NoMemory) }
{
    let mut at = entries.len();
    while at > 0 {
        at -= 1;
        undo(rows, &entries.entry(at), end)?;
    }
    Ok(())
}

/// Undoes what an entry above an end did. Refused NoMemory.
fn undo(rows: &mut RowBuffer, entry: &Entry, end: u64) -> Result<(), Refusal>
    requires { AreInOrder rows.old.rows }
    ensures undone { OnOk result (AreRowsOf (rows_back end (entry.now ∷ []) (table_of rows.old.rows)) (entry.now ∷ [])
        rows.old.rows rows.new.rows) }
    ensures refused { IfErr result (λ refusal. refusal ≡ Refusal.NoMemory) }
{
    if entry.number <= end {
        return Ok(());
    }
    let Some(op) = inverse_on(&entry.key, &entry.answer) else {
        return Ok(());
    };
    let op = op.lent();
    rows.make_room(room_for(&op))?;
    let place = rows.lent().place_of(op.key());
    write_at(rows, &op, place);
    Ok(())
}
