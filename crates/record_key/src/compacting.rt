//! Entries as slots over one buffer: what is put there, and how the buffer doesn't grow with what went.
ghost use Rattle.std.specs.Prelude.{◌≡◌, ◌+◌, ◌*◌, ◌/◌, ◌<◌, ◌≤◌, ◌↔◌, length, map, vec_len, IsTrue, IsOk, IfOk, IfErr, OnOk, OnErr};
ghost use Rattle.std.specs.List.{AllByRecursion, insert};
ghost use Rattle.std.specs.Vec.{vec_capacity};
ghost use Rattle.record_key.specs.Compacting.{used_in};
ghost use Rattle.record_key.specs.Lent.{answer_lent};
ghost use Rattle.record_key.specs.Packed.{packed, entry_in, IsFilled};
ghost use Rattle.smallvec.specs.SmallVec.{HasRoomFor};

use crate::key::Key;
use crate::lent::AnswerRef;
use crate::packed::{PACKED_LIMIT, packed_entry, packed_len, put};
use crate::refusal::Refusal;
use crate::slot::Slot;
use smallvec::SmallVec;
use std::alloc::Global;

/// Puts an entry at a place, those from there on behind it. Refused NoMemory, and unchanged then.
pub(crate) fn put_at(
    slots: &mut SmallVec<Slot, 4>,
    bytes: &mut Vec<u8>,
    at: usize,
    number: u64,
    key: &Key,
    answer: &AnswerRef<'_>,
) -> Result<(), Refusal>
    requires place { at ≤ length slots.old.items }
    requires filled { AllByRecursion (IsFilled bytes.old.items) slots.old.items }
    ensures filled { AllByRecursion (IsFilled bytes.new.items) slots.new.items }
    ensures inserted { OnOk result (map (entry_in bytes.new.items) slots.new.items
        ≡ insert (map (entry_in bytes.old.items) slots.old.items) at
        (record { number = number; key = key.now; answer = answer_lent answer.now })) }
    ensures grown { OnOk result (length bytes.new.items
        ≡ length bytes.old.items + length (packed key.now (answer_lent answer.now))) }
    ensures room { vec_len bytes.old + 155 ≤ vec_capacity bytes.old → HasRoomFor slots.old 1 → IsOk result }
    ensures unchanged { OnErr result (map (entry_in bytes.new.items) slots.new.items
        ≡ map (entry_in bytes.old.items) slots.old.items) }
    ensures refused { IfErr result (λ refusal. refusal ≡ Refusal.NoMemory) }
{
    bytes.reserve(PACKED_LIMIT)?;
    let place = bytes.len();
    slots.insert(at, Slot { number, place })?;
    put(bytes, key, answer);
    Ok(())
}

/// The same entries in a buffer that has nothing else. Refused NoMemory.
pub(crate) fn copied(
    alloc: Global,
    slots: &[Slot],
    bytes: &[u8],
) -> Result<(SmallVec<Slot, 4>, Vec<u8>), Refusal>
    requires { AllByRecursion (IsFilled bytes.now) slots.now }
    ensures filled { IfOk result (λ copied. AllByRecursion (IsFilled copied.1.items) copied.0.items) }
    ensures same { IfOk result (λ copied. map (entry_in copied.1.items) copied.0.items
        ≡ map (entry_in bytes.now) slots.now) }
    ensures tight { IfOk result (λ copied. length copied.1.items ≤ used_in bytes.now slots.now) }
    ensures refused { IfErr result (λ refusal. refusal ≡ Refusal.NoMemory) }
{
    let mut copied_slots = SmallVec::new(alloc);
    let mut copied_bytes = Vec::new(alloc);
    for slot in slots {
        let entry = packed_entry(bytes, *slot);
        let at = copied_slots.len();
        let answer = entry.answer.lent();
        put_at(
            &mut copied_slots,
            &mut copied_bytes,
            at,
            entry.number,
            &entry.key,
            &answer,
        )?;
    }
    Ok((copied_slots, copied_bytes))
}

/// Where the buffer is full and at least half of it is left by entries that were dropped, takes another without
/// these. So the buffer doesn't grow with what went. Refused NoMemory, and unchanged then.
pub(crate) fn compact(slots: &mut SmallVec<Slot, 4>, bytes: &mut Vec<u8>) -> Result<(), Refusal>
    requires { AllByRecursion (IsFilled bytes.old.items) slots.old.items }
    ensures filled { AllByRecursion (IsFilled bytes.new.items) slots.new.items }
    ensures same { map (entry_in bytes.new.items) slots.new.items
        ≡ map (entry_in bytes.old.items) slots.old.items }
    ensures compacted { OnOk result (vec_capacity bytes.old < vec_len bytes.old + 155
        → vec_len bytes.new ≤ 2 * used_in bytes.old.items slots.old.items) }
    ensures room { vec_len bytes.old + 155 ≤ vec_capacity bytes.old
        → IsOk result × (slots.new ≡ slots.old) × (bytes.new ≡ bytes.old) }
    ensures in_use { vec_len bytes.old / 2 < used_in bytes.old.items slots.old.items
        → IsOk result × (slots.new ≡ slots.old) × (bytes.new ≡ bytes.old) }
    ensures refused { IfErr result (λ refusal. refusal ≡ Refusal.NoMemory) }
{
    if bytes.capacity() - bytes.len() < PACKED_LIMIT && is_half_spare(slots.as_slice(), bytes) {
        let (copied_slots, copied_bytes) = copied(*bytes.allocator(), slots.as_slice(), bytes)?;
        *slots = copied_slots;
        *bytes = copied_bytes;
    }
    Ok(())
}

/// At least half of the bytes are no entry's.
fn is_half_spare(slots: &[Slot], bytes: &[u8]) -> bool
    requires { AllByRecursion (IsFilled bytes.now) slots.now }
    ensures { IsTrue result ↔ used_in bytes.now slots.now ≤ length bytes.now / 2 }
{
    let mut left = bytes.len() / 2;
    for slot in slots {
        let len = packed_len(bytes, slot.place);
        if left < len {
            return false;
        }
        left -= len;
    }
    true
}
