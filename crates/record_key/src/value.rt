//! The value of a record.
ghost use Rattle.std.specs.Prelude.{◌≡◌, ◌<◌, ◌≤◌, length};
ghost use Rattle.record_key.specs.Amounts.{summed};

use crate::refusal::Refusal;
use arrayvec::ArrayVec;
use byteorder::{BigEndian, ByteOrder};
use std::alloc::AllocError;
use std::marker::Model;

/// A value: 0 to 120 bytes, kept inline.
#[derive(Debug, PartialEq, Eq, Drop)]
pub struct Value {
    bytes: ArrayVec<u8, 120>,
}

impl Model for Value {
    ghost use Rattle.std.specs.Prelude.{List, ℕ, ◌≤◌, length};
    ghost use Rattle.std.specs.Coded.{coded_ℕ, coded_list};

    ghost Value = { List ℕ };

    ghost coded = { coded_list coded_ℕ };

    ghost view = { λ v. v.bytes.items };

    ghost invariant = { λ v. length v.bytes.items ≤ 120 };

    ghost inverse = { λ bytes. record { bytes = record { items = bytes } } };
}

impl Value {
    /// The greatest length of a value, in bytes.
    pub const MAX_LEN: usize = 120;

    /// The value of these bytes. Takes no memory.
    pub fn new(bytes: &[u8]) -> Result<Value, Refusal>
        ensures ok { length bytes.now ≤ 120 → result ≡ Ok bytes.now }
        ensures too_long { 120 < length bytes.now → result ≡ Err Refusal.TooLong }
    {
        match ArrayVec::try_from(bytes) {
            Ok(bytes) => Ok(Value { bytes }),
            Err(_) => Err(Refusal::TooLong),
        }
    }

    /// The value's bytes.
    pub fn as_bytes(&self) -> &[u8]
        ensures bytes { result.now ≡ self.now }
        ensures bounded { length self.now ≤ 120 }
    {
        self.bytes.as_slice()
    }

    /// Another of the same bytes. Takes no memory.
    pub fn copied(&self) -> Value
        ensures { result ≡ self.now }
    {
        match ArrayVec::try_from(self.as_bytes()) {
            Ok(bytes) => Value { bytes },
            Err(_) => unreachable!(),
        }
    }

    /// The number that the value is with an amount more, which runs round at 2^64; none where it is no number, which
    /// just a value of 8 bytes is. Takes no memory.
    #[tactic(auto, unfolding(crate::specs::Amounts::summed))]
    pub fn plus(&self, amount: u64) -> Option<Value>
        ensures { result ≡ summed self.now amount }
    {
        let bytes = self.as_bytes();
        if bytes.len() != 8 {
            return None;
        }
        let sum = BigEndian::read_u64(bytes).wrapping_add(amount);
        Value::new(&sum.to_be_bytes()).ok()
    }
}

impl Clone for Value {
    ghost use Rattle.std.specs.Prelude.{◌≡◌, ⊤};

    ghost is_clone = { λ a b. b ≡ a };

    ghost is_infallible = { λ _. ⊤ };

    fn clone(&self) -> Result<Self, AllocError> {
        Ok(self.copied())
    }
}
