//! The savepoints of a transaction.
ghost use Rattle.std.specs.Prelude.{◌≡◌, ℕ, ◌+◌, ◌-◌, ◌<◌, ◌≤◌, [], ◌∷◌, ◌++◌, List, length, take, slice_get, Some, IfOk, IfErr, OnOk, OnErr};
ghost use Rattle.tc_undo.specs.Savepoints.{IsPresent};

use arrayvec::ArrayVec;
use record_key::Refusal;
use std::marker::Model;

/// No more savepoints are present at a time.
const MOST_SAVES: usize = 16;

/// At most 16 savepoints, the earliest first. Each is the log's end when it was set. Takes no memory.
#[derive(Debug, Clone, PartialEq, Eq, Drop)]
pub struct Saves {
    ends: ArrayVec<u64, 16>,
}

impl Model for Saves {
    ghost use Rattle.std.specs.Prelude.{List, ℕ, ◌≤◌, length};
    ghost use Rattle.std.specs.Coded.{coded_ℕ, coded_list};

    ghost Value = { List ℕ };

    ghost coded = { coded_list coded_ℕ };

    ghost view = { λ s. s.ends.items };

    ghost invariant = { λ s. length s.ends.items ≤ 16 };

    ghost inverse = { λ ends. record { ends = record { items = ends } } };
}

impl Saves {
    /// No savepoint is set.
    pub fn new() -> Saves
        ensures { result ≡ [] }
    {
        Saves {
            ends: ArrayVec::new(),
        }
    }

    /// How many there are.
    pub fn len(&self) -> usize
        ensures { result ≡ length self.now }
    {
        self.ends.len()
    }

    /// The same savepoints again. Takes no memory.
    pub fn copied(&self) -> Saves
        ensures { result ≡ self.now }
    {
        self.clone().unwrap()
    }

    /// Sets a savepoint at the log's end, and answers its number: the count of present ones plus 1. Refused Full where
    /// 16 are present.
    pub fn save(&mut self, end: u64) -> Result<u64, Refusal>
        ensures number { IfOk result (λ savepoint. savepoint ≡ length self.old + 1) }
        ensures saved { OnOk result (self.new ≡ self.old ++ end ∷ []) }
        ensures allowed { OnOk result (length self.old < 16) }
        ensures refused { IfErr result (λ refusal. refusal ≡ Refusal.Full) }
        ensures full { OnErr result (16 ≤ length self.old) }
        ensures unchanged { OnErr result (self.new ≡ self.old) }
    {
        if self.ends.len() >= MOST_SAVES {
            return Err(Refusal::Full);
        }
        self.ends.push(end);
        Ok(self.ends.len() as u64)
    }

    /// Drops the savepoints after this one, and gives what it remembers. Refused BadSavepoint where it isn't present.
    pub fn back_to(&mut self, savepoint: u64) -> Result<u64, Refusal>
        ensures remembered { IfOk result (λ end. slice_get self.old (savepoint - 1) ≡ Some end) }
        ensures present { OnOk result (IsPresent self.old savepoint) }
        ensures dropped { OnOk result (self.new ≡ take savepoint self.old) }
        ensures refused { IfErr result (λ refusal. refusal ≡ Refusal.BadSavepoint) }
        ensures absent { OnErr result (IsPresent self.old savepoint → ⊥) }
        ensures unchanged { OnErr result (self.new ≡ self.old) }
    {
        if savepoint == 0 || savepoint > self.ends.len() as u64 {
            return Err(Refusal::BadSavepoint);
        }
        let end = self.ends[savepoint as usize - 1];
        self.ends.truncate(savepoint as usize);
        Ok(end)
    }
}
