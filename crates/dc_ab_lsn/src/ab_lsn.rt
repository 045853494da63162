//! The abstract page LSN.
ghost use Rattle.std.specs.Prelude.{◌≡◌, ℕ, ◌==◌, ◌||◌, ◌&&◌, false, nat_le, OnOk, OnErr, IfOk, IfErr};
ghost use Rattle.record_key.specs.Entries.{RiseAbove};
ghost use Rattle.record_key.specs.Lent.{answer_lent};
ghost use Rattle.dc_ab_lsn.specs.AbLsn.{none_captured, stands_in, captures, saved_in, noted, raised, popped};
ghost use Rattle.dc_ab_lsn.specs.Parting.{is_under, is_from, stands_with, cut_under, cut_from, joined_with};

use crate::entries::{copied_from, keep_above, place_all};
use record_key::{Answer, AnswerRef, Entries, Key, Refusal};
use std::alloc::Global;
use std::marker::Model;

/// Every number up to `low` is captured, and each of the entries', which rise from above it.
#[derive(Debug, Drop)]
pub struct AbLsn {
    low: u64,
    entries: Entries,
}

impl Model for AbLsn {
    ghost use Rattle.record_key.specs.Entries.{RiseAbove};
    ghost use Rattle.dc_ab_lsn.specs.AbLsn.{AbLsnView};

    ghost Value = { AbLsnView };

    ghost view = { λ a. record { low = a.low; entries = a.entries } };

    ghost invariant = { λ a. RiseAbove a.low a.entries };
}

impl AbLsn {
    /// Captures nothing. Takes no memory; the allocator serves later entries.
    pub fn new(alloc: Global) -> AbLsn
        ensures { result ≡ none_captured }
    {
        AbLsn {
            low: 0,
            entries: Entries::new(alloc),
        }
    }

    /// Captures every number up to a low one, and those of these entries. Takes no memory.
    pub fn from_parts(low: u64, entries: Entries) -> AbLsn
        requires { RiseAbove low entries }
        ensures { result ≡ record { low = low; entries = entries } }
    {
        AbLsn { low, entries }
    }

    /// The low number: every number up to it is captured, and their answers are gone.
    pub fn low(&self) -> u64
        ensures { result ≡ self.now.low }
    {
        self.low
    }

    /// The captured numbers above the low one, rising, with their answers.
    pub fn entries(&self) -> &Entries
        ensures entries { result.now ≡ self.now.entries }
        ensures rising { RiseAbove self.now.low self.now.entries }
    {
        &self.entries
    }

    /// Whether the number's effect is there. Takes no memory.
    pub fn captures(&self, number: u64) -> bool
        ensures { result ≡ captures self.now number }
    {
        number <= self.low || self.entries.place_of(number).is_ok()
    }

    /// The answer saved under the number. Takes no memory.
    pub fn answer_of(&self, number: u64) -> Option<Answer>
        ensures { result ≡ saved_in self.now.entries number }
    {
        match self.entries.place_of(number) {
            Ok(at) => Some(self.entries.entry(at).answer),
            Err(_) => None,
        }
    }

    /// Captures one number more. Refused NoMemory, and unchanged then.
    pub fn note(&mut self, number: u64, key: &Key, answer: &AnswerRef<'_>) -> Result<(), Refusal>
        requires { captures self.old number ≡ false }
        ensures noted { OnOk result (self.new ≡ noted self.old number key.now (answer_lent answer.now)) }
        ensures captured { OnOk result ((m : ℕ) → captures self.new m ≡ (captures self.old m || m == number)) }
        ensures unchanged { OnErr result (self.new ≡ self.old) }
        ensures refused { IfErr result (λ refusal. refusal ≡ Refusal.NoMemory) }
    {
        match self.entries.place_of(number) {
            Ok(_) => unreachable!(),
            Err(gap) => self.entries.insert(gap, number, key, answer)?,
        }
        Ok(())
    }

    /// Captures every number up to this one, and drops their answers. Takes no memory.
    pub fn raise(&mut self, low: u64)
        ensures raised { self.new ≡ raised self.old low }
        ensures captured { (m : ℕ) → captures self.new m ≡ (captures self.old m || nat_le m low) }
    {
        self.low = keep_above(&mut self.entries, self.low, low);
    }

    /// Drops the entries above an end, with their answers. Takes no memory.
    pub fn pop_above(&mut self, end: u64)
        ensures popped { self.new ≡ popped self.old end }
        // Up to the low number all stay captured, also where the end is below it.
        ensures captured { (m : ℕ) → captures self.new m
            ≡ (nat_le m self.old.low || (stands_in self.old.entries m && nat_le m end)) }
    {
        self.entries.drop_above(end);
    }

    /// The same again. Refused NoMemory.
    pub fn copied(&self) -> Result<AbLsn, Refusal>
        ensures copied { IfOk result (λ copied. copied ≡ self.now) }
        ensures refused { IfErr result (λ refusal. refusal ≡ Refusal.NoMemory) }
    {
        let entries = self.entries.copied()?;
        Ok(AbLsn {
            low: self.low,
            entries,
        })
    }

    /// A copy of what stands at or above the key: the low number, and the entries there. Refused NoMemory.
    pub fn upper(&self, key: &Key) -> Result<AbLsn, Refusal>
        ensures upper { IfOk result (λ upper. upper ≡ cut_from self.now key.now) }
        // A captured number stays so on the side of its entry's key, and up to the low one on both sides.
        ensures captured { IfOk result (λ upper. (m : ℕ) →
            captures upper m ≡ (nat_le m self.now.low || stands_with (is_from key.now) self.now.entries m)) }
        ensures refused { IfErr result (λ refusal. refusal ≡ Refusal.NoMemory) }
    {
        let upper = copied_from(self.entries.allocator(), &self.entries, key)?;
        Ok(AbLsn {
            low: self.low,
            entries: upper,
        })
    }

    /// Drops the entries at or above the key. Takes no memory.
    pub fn drop_from(&mut self, key: &Key)
        ensures lower { self.new ≡ cut_under self.old key.now }
        ensures captured { (m : ℕ) →
            captures self.new m ≡ (nat_le m self.old.low || stands_with (is_under key.now) self.old.entries m) }
    {
        self.entries.drop_from(key);
    }

    /// Gives away the entries whose keys are at or above this one; both sides keep the low number. Refused
    /// NoMemory, and unchanged then.
    pub fn cut(&mut self, key: &Key) -> Result<AbLsn, Refusal>
        ensures upper { IfOk result (λ upper. upper ≡ cut_from self.old key.now) }
        ensures lower { OnOk result (self.new ≡ cut_under self.old key.now) }
        ensures captured_below { OnOk result ((m : ℕ) →
            captures self.new m ≡ (nat_le m self.old.low || stands_with (is_under key.now) self.old.entries m)) }
        ensures captured_from { IfOk result (λ upper. (m : ℕ) →
            captures upper m ≡ (nat_le m self.old.low || stands_with (is_from key.now) self.old.entries m)) }
        ensures unchanged { OnErr result (self.new ≡ self.old) }
        ensures refused { IfErr result (λ refusal. refusal ≡ Refusal.NoMemory) }
    {
        let upper = self.upper(key)?;
        self.drop_from(key);
        Ok(upper)
    }

    /// Captures what the other captures besides: the low number is the greater of the two, and the entries of
    /// both above it stay. Where a number stands in both, its own entry stays. Refused NoMemory, and unchanged
    /// then.
    pub fn join(&mut self, other: &AbLsn) -> Result<(), Refusal>
        ensures joined { OnOk result (self.new ≡ joined_with self.old other.now) }
        ensures captured { OnOk result ((m : ℕ) →
            captures self.new m ≡ (captures self.old m || captures other.now m)) }
        ensures unchanged { OnErr result (self.new ≡ self.old) }
        ensures refused { IfErr result (λ refusal. refusal ≡ Refusal.NoMemory) }
    {
        let mut entries = self.entries.copied()?;
        let low = keep_above(&mut entries, self.low, other.low);
        place_all(&mut entries, low, &other.entries)?;
        self.low = low;
        self.entries = entries;
        Ok(())
    }
}
