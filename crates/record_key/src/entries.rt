//! Many entries in little memory.
ghost use Rattle.std.specs.Prelude.{◌≡◌, ◌<◌, ◌≤◌, ◌+◌, ◌++◌, ◌∷◌, [], length, get_or, filter, not, nat_lt, OnOk, OnErr, IfOk, IfErr};
ghost use Rattle.std.specs.List.{insert};
ghost use Rattle.record_key.specs.declared.entry.Entry.{Entry as EntryValue};
ghost use Rattle.record_key.specs.Lent.{answer_lent};
ghost use Rattle.record_key.specs.Order.{is_below};
ghost use Rattle.record_key.specs.Entries.{RiseAbove, IsPlaceOfNumber, top_in};

use crate::compacting::{compact, copied, put_at};
use crate::entry::Entry;
use crate::key::Key;
use crate::lent::AnswerRef;
use crate::packed::{is_under, packed_entry};
use crate::refusal::Refusal;
use crate::slot::Slot;
use smallvec::SmallVec;
use std::alloc::Global;
use std::marker::Model;

/// Entries in a row. Their keys and answers stand in one buffer, packed; a few dozen bytes each are all that short ones
/// take.
#[derive(Debug, Drop)]
pub struct Entries {
    slots: SmallVec<Slot, 4>,
    // What entries leave that were dropped stays here until the next growth.
    bytes: Vec<u8>,
}

impl Model for Entries {
    ghost use Rattle.std.specs.Prelude.{List, map};
    ghost use Rattle.std.specs.List.{AllByRecursion};
    ghost use Rattle.record_key.specs.declared.entry.Entry.{Entry};
    ghost use Rattle.record_key.specs.Packed.{entry_in, IsFilled};

    ghost Value = { List Entry };

    ghost view = { λ e. map (entry_in e.bytes.items) e.slots.items };

    ghost invariant = { λ e. AllByRecursion (IsFilled e.bytes.items) e.slots.items };
}

impl Entries {
    /// None. Takes no memory; the allocator serves later ones.
    pub fn new(alloc: Global) -> Entries
        ensures { result ≡ [] }
    {
        Entries {
            slots: SmallVec::new(alloc),
            bytes: Vec::new(alloc),
        }
    }

    /// What serves their memory.
    pub fn allocator(&self) -> Global {
        *self.bytes.allocator()
    }

    /// How many there are.
    pub fn len(&self) -> usize
        ensures { result ≡ length self.now }
    {
        self.slots.len()
    }

    /// The entry at a place, from 0. Takes no memory.
    pub fn entry(&self, at: usize) -> Entry
        requires { at < length self.now }
        ensures { result ≡ get_or self.now at result }
    {
        packed_entry(&self.bytes, self.slots.as_slice()[at])
    }

    /// The greatest number of rising ones, 0 where there are none. Takes no memory.
    pub fn top(&self) -> u64
        requires { RiseAbove 0 self.now }
        ensures { result ≡ top_in self.now }
    {
        match self.slots.as_slice().last() {
            Some(slot) => slot.number,
            None => 0,
        }
    }

    /// Where the number stands among rising ones, or where it would go. Takes no memory.
    pub fn place_of(&self, number: u64) -> Result<usize, usize>
        requires { RiseAbove 0 self.now }
        ensures place { IsPlaceOfNumber number self.now result }
        ensures within { IfOk result (λ at. at < length self.now) }
        ensures bounded { IfErr result (λ gap. gap ≤ length self.now) }
    {
        self.slots
            .as_slice()
            .binary_search_by(|slot| slot.number.cmp(&number))
    }

    /// Puts an entry at a place, those from there on behind it. Refused NoMemory, and unchanged then.
    pub fn insert(
        &mut self,
        at: usize,
        number: u64,
        key: &Key,
        answer: &AnswerRef<'_>,
    ) -> Result<(), Refusal>
        requires { at ≤ length self.old }
        ensures inserted { OnOk result (self.new ≡ insert self.old at
            (record { number = number; key = key.now; answer = answer_lent answer.now })) }
        ensures unchanged { OnErr result (self.new ≡ self.old) }
        ensures refused { IfErr result (λ refusal. refusal ≡ Refusal.NoMemory) }
    {
        compact(&mut self.slots, &mut self.bytes)?;
        put_at(&mut self.slots, &mut self.bytes, at, number, key, answer)
    }

    /// Puts a copy of an entry behind the others. Refused NoMemory, and unchanged then.
    pub fn push(&mut self, entry: &Entry) -> Result<(), Refusal>
        ensures pushed { OnOk result (self.new ≡ self.old ++ entry.now ∷ []) }
        ensures unchanged { OnErr result (self.new ≡ self.old) }
        ensures refused { IfErr result (λ refusal. refusal ≡ Refusal.NoMemory) }
    {
        let at = self.slots.len();
        let answer = entry.answer.lent();
        put_at(
            &mut self.slots,
            &mut self.bytes,
            at,
            entry.number,
            &entry.key,
            &answer,
        )
    }

    /// Drops those whose numbers are at most this one. Takes no memory.
    pub fn drop_to(&mut self, low: u64)
        ensures { self.new ≡ filter (λ (e : EntryValue). nat_lt low e.number) self.old }
    {
        self.slots.retain(|slot| low < slot.number);
        self.forget_bytes();
    }

    /// Drops those whose numbers are above this one. Takes no memory.
    pub fn drop_above(&mut self, high: u64)
        ensures { self.new ≡ filter (λ (e : EntryValue). not (nat_lt high e.number)) self.old }
    {
        self.slots.retain(|slot| slot.number <= high);
        self.forget_bytes();
    }

    /// Drops those whose keys aren't below this one. Takes no memory.
    pub fn drop_from(&mut self, key: &Key)
        ensures { self.new ≡ filter (λ (e : EntryValue). is_below e.key key.now) self.old }
    {
        let bytes = &self.bytes;
        self.slots.retain(|slot| is_under(bytes, slot.place, key));
        self.forget_bytes();
    }

    /// The same again. Refused NoMemory.
    pub fn copied(&self) -> Result<Entries, Refusal>
        ensures copied { IfOk result (λ copied. copied ≡ self.now) }
        ensures refused { IfErr result (λ refusal. refusal ≡ Refusal.NoMemory) }
    {
        let (slots, bytes) = copied(self.allocator(), self.slots.as_slice(), &self.bytes)?;
        Ok(Entries { slots, bytes })
    }

    /// With the last entry its bytes go.
    fn forget_bytes(&mut self)
        ensures { self.new ≡ self.old }
    {
        if self.slots.is_empty() {
            self.bytes.clear();
        }
    }
}
