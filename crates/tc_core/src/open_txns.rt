//! The open transactions, each in a slot of its own, found by their numbers.
ghost use Rattle.std.specs.Prelude.{◌≡◌, ◌≢◌, ◌<◌, ◌+◌, ℕ, ◌↔◌, [], ◌∷◌, length, slice_get, All, IsTrue, IsSome, IsSomeAnd, IfSome, IfNone, IfErr, OnOk, OnErr};
ghost use Rattle.std.specs.Option.{option_copied};
ghost use Rattle.slab.specs.Slab.{get, ContainsKey, slab_len};
ghost use Rattle.tc_core.specs.Changed.{happens};
ghost use Rattle.tc_core.specs.OpenTxns.{find, without, AreBelow, oldest, wants as is_wanted};

use crate::change::{Change, make_change};
use crate::open_txn::OpenTxn;
use record_key::Refusal;
use slab::Slab;
use std::alloc::Global;
use std::marker::Model;

/// Who is looked for.
#[derive(Debug, Clone, Copy, PartialEq, Eq)]
pub enum Wanted {
    /// One that waits for an answer, or for what it reads.
    Unanswered,
    /// One that is being rolled back.
    Rolling,
    /// The one that waits for the read of this number.
    Reader(u64),
}

/// Open transactions in slots, and the slot of each with its number, the newest last.
#[derive(Debug, Drop)]
pub struct OpenTxns {
    txns: Slab<OpenTxn>,
    slots: Vec<(u64, usize)>,
}

impl Model for OpenTxns {
    ghost use Rattle.std.specs.Prelude.{List};
    ghost use Rattle.tc_core.specs.declared.open_txn.OpenTxn.{OpenTxn};
    ghost use Rattle.tc_core.specs.Slots.{in_slots, AreAllSlots};

    ghost Value = { List OpenTxn };

    ghost view = { λ o. in_slots o.txns o.slots.items };

    ghost invariant = { λ o. AreAllSlots o.txns o.slots.items };
}

impl OpenTxns {
    /// No transaction is open. Takes no memory; the allocator serves later ones.
    pub fn new(alloc: Global) -> OpenTxns
        ensures { result ≡ [] }
    {
        OpenTxns {
            txns: Slab::new(alloc),
            slots: Vec::new(alloc),
        }
    }

    /// How many are open.
    pub fn len(&self) -> usize
        ensures { result ≡ length self.now }
    {
        self.slots.len()
    }

    /// Whether none is.
    pub fn is_empty(&self) -> bool
        ensures { IsTrue result ↔ self.now ≡ [] }
    {
        self.len() == 0
    }

    /// The transaction of this number.
    pub fn find(&self, txn: u64) -> Option<&OpenTxn>
        ensures { option_copied result ≡ find txn self.now }
    {
        let place = place_of(&self.slots, txn)?;
        self.txns.get(self.slots[place].1)
    }

    /// Adds the newest transaction. Refused NoMemory.
    pub fn add(&mut self, opened: OpenTxn) -> Result<(), Refusal>
        requires { AreBelow opened.txn self.old }
        ensures added { OnOk result (self.new ≡ opened ∷ self.old) }
        ensures refused { IfErr result (λ refusal. refusal ≡ Refusal.NoMemory) }
        ensures unchanged { OnErr result (self.new ≡ self.old) }
    {
        self.txns.reserve(1)?;
        self.slots.push((opened.txn, self.txns.vacant_key()))?;
        self.txns.insert_reserved(opened);
        Ok(())
    }

    /// Something happens to the transaction of this number, if it is open. Takes no memory.
    #[inline(always)]
    pub fn change(&mut self, txn: u64, what: Change)
        ensures { self.new ≡ happens txn what self.old }
    {
        if let Some(place) = place_of(&self.slots, txn) {
            if let Some(open_txn) = self.txns.get_mut(self.slots[place].1) {
                make_change(open_txn, what);
            }
        }
    }

    /// Removes the transaction of this number, which is open. Takes no memory.
    pub fn remove(&mut self, txn: u64)
        requires { IsSome (find txn self.old) }
        ensures { self.new ≡ without txn self.old }
    {
        if let Some(place) = place_of(&self.slots, txn) {
            let (_, slot) = self.slots.remove(place);
            vacate(&mut self.txns, slot);
        }
    }

    /// Of those that are wanted, the one with the least number. Looks at each open transaction.
    pub fn oldest(&self, wanted: Wanted) -> Option<&OpenTxn>
        ensures { option_copied result ≡ oldest (is_wanted wanted) self.now }
    {
        for (_, slot) in &self.slots {
            if let Some(opened) = self.txns.get(*slot) {
                if wants(wanted, opened) {
                    return Some(opened);
                }
            }
        }
        None
    }
}

// Takes the transaction out of a slot. Takes no memory.
fn vacate(txns: &mut Slab<OpenTxn>, slot: usize)
    requires { ContainsKey txns.old slot }
    ensures others { (k : ℕ) → k ≢ slot → get txns.new k ≡ get txns.old k }
    ensures one_less { slab_len txns.new + 1 ≡ slab_len txns.old }
{
    txns.remove(slot);
}

// Where the slot of the transaction of this number stands. Looks from the newest down, since that is asked for most.
fn place_of(slots: &[(u64, usize)], txn: u64) -> Option<usize>
    ensures none { IfNone result (All (λ slot. slot.0 ≢ txn) slots.now) }
    ensures found { IfSome result (λ place. IsSomeAnd (slice_get slots.now place) (λ slot. slot.0 ≡ txn)) }
    ensures within { IfSome result (λ place. place < length slots.now) }
{
    slots.iter().rposition(|slot| slot.0 == txn)
}

fn wants(wanted: Wanted, opened: &OpenTxn) -> bool
    ensures { result ≡ is_wanted wanted opened.now }
{
    match wanted {
        Wanted::Unanswered => opened.waits(),
        Wanted::Rolling => opened.rolling.is_some(),
        Wanted::Reader(number) => matches!(&opened.reading, Some(read) if read.number == number),
    }
}

/// The same transaction again, if there is one. Takes no memory.
pub fn copied(found: Option<&OpenTxn>) -> Option<OpenTxn>
    ensures { result ≡ option_copied found.entry }
{
    match found {
        Some(opened) => Some(opened.copied()),
        None => None,
    }
}
