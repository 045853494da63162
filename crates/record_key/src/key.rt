//! The key of a record.
ghost use Rattle.std.specs.Prelude.{◌≡◌, ◌<◌, ◌≤◌, ◌↔◌, ℕ, length, Some, IfOk, IsErrOf, refl};
ghost use Rattle.std.specs.Ordering.{nat_cmp};
ghost use Rattle.std.specs.Cmp.Lexicographic.{slice_cmp, nat_list_cmp_total, texts_po, texts_ties};

use crate::refusal::Refusal;
use crate::words::order_of_texts;
use arrayvec::ArrayVec;
use std::alloc::AllocError;
use std::cmp::Ordering;
use std::marker::Model;

/// A key: 1 to 32 bytes, kept inline. Keys are ordered by their bytes, a beginning first.
#[derive(Debug, PartialEq, Eq, Drop)]
pub struct Key {
    bytes: ArrayVec<u8, 32>,
}

impl Model for Key {
    ghost use Rattle.std.specs.Prelude.{List, ℕ, ◌<◌, ◌≤◌, length};
    ghost use Rattle.std.specs.Coded.{coded_ℕ, coded_list};

    ghost Value = { List ℕ };

    ghost coded = { coded_list coded_ℕ };

    ghost view = { λ k. k.bytes.items };

    ghost invariant = { λ k. (0 < length k.bytes.items) × (length k.bytes.items ≤ 32) };

    ghost inverse = { λ bytes. record { bytes = record { items = bytes } } };
}

impl Key {
    /// The greatest length of a key, in bytes.
    pub const MAX_LEN: usize = 32;

    /// The key of these bytes. Takes no memory.
    pub fn new(bytes: &[u8]) -> Result<Key, Refusal>
        ensures ok { 0 < length bytes.now → length bytes.now ≤ 32 → result ≡ Ok bytes.now }
        ensures empty { length bytes.now ≡ 0 → result ≡ Err Refusal.EmptyKey }
        ensures too_long { 32 < length bytes.now → result ≡ Err Refusal.TooLong }
    {
        if bytes.is_empty() {
            return Err(Refusal::EmptyKey);
        }
        match ArrayVec::try_from(bytes) {
            Ok(bytes) => Ok(Key { bytes }),
            Err(_) => Err(Refusal::TooLong),
        }
    }

    /// The key's bytes.
    pub fn as_bytes(&self) -> &[u8]
        ensures bytes { result.now ≡ self.now }
        ensures not_empty { 0 < length self.now }
        ensures bounded { length self.now ≤ 32 }
    {
        self.bytes.as_slice()
    }

    /// Another of the same bytes. Takes no memory.
    pub fn copied(&self) -> Key
        ensures { result ≡ self.now }
    {
        match ArrayVec::try_from(self.as_bytes()) {
            Ok(bytes) => Key { bytes },
            Err(_) => unreachable!(),
        }
    }
}

impl Clone for Key {
    ghost use Rattle.std.specs.Prelude.{◌≡◌, ⊤};

    ghost is_clone = { λ a b. b ≡ a };

    ghost is_infallible = { λ _. ⊤ };

    fn clone(&self) -> Result<Self, AllocError> {
        Ok(self.copied())
    }
}

impl PartialOrd for Key {
    ghost partial_cmp = { λ a b. Some (slice_cmp nat_cmp a b) };

    ghost laws = { texts_po };

    fn partial_cmp(&self, other: &Self) -> Option<Ordering> {
        Some(self.cmp(other))
    }
}

impl Ord for Key {
    ghost cmp = { λ a b. slice_cmp nat_cmp a b };

    ghost total = { nat_list_cmp_total };

    ghost matches_partial_cmp = { λ a b. refl };

    ghost matches_eq = { λ a b. texts_ties a b };

    fn cmp(&self, other: &Self) -> Ordering {
        order_of_texts(self.as_bytes(), other.as_bytes())
    }
}
