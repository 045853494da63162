//! A key and an answer as bytes: three that tell the key's length, the answer's kind and the length of its value, then
//! the key, then the value.
ghost use Rattle.std.specs.Prelude.{◌≡◌, ◌+◌, ◌≤◌, ◌++◌, length, drop, Some, vec_len};
ghost use Rattle.std.specs.Vec.{vec_capacity};
ghost use Rattle.record_key.specs.Order.{is_below};
ghost use Rattle.record_key.specs.Amounts.{amount_bytes};
ghost use Rattle.record_key.specs.Compacting.{packed_len};
ghost use Rattle.record_key.specs.Lent.{answer_lent};
ghost use Rattle.record_key.specs.Packed.{kind_of, value_told, amount_of, answer_from, packed, key_at, packed_answer, entry_in, HasLengths, IsPacked};

use crate::entry::Entry;
use crate::key::Key;
use crate::lent::AnswerRef;
use crate::op::Answer;
use crate::slot::Slot;
use crate::value::Value;
use byteorder::{BigEndian, ByteOrder};

/// The bytes in front of a key.
const HEAD_LEN: usize = 3;

/// The most bytes that a key and an answer take.
pub(crate) const PACKED_LIMIT: usize = 155;

/// Appends a key and an answer. There is room for them.
#[tactic(auto, unfolding(crate::specs::Packed::packed))]
pub(crate) fn put(bytes: &mut Vec<u8>, key: &Key, answer: &AnswerRef<'_>)
    requires { vec_len bytes.old + 155 ≤ vec_capacity bytes.old }
    ensures packed { bytes.new.items ≡ bytes.old.items ++ packed key.now (answer_lent answer.now) }
    ensures lengths { HasLengths key.now (answer_lent answer.now) }
{
    let amount = amount_of(answer).to_be_bytes();
    let (key, value) = (key.as_bytes(), value_of(answer, &amount));
    bytes.push_reserved(key.len() as u8);
    bytes.push_reserved(kind_of(answer));
    bytes.push_reserved(value.len() as u8);
    extend(bytes, key);
    extend(bytes, value);
}

/// Appends bytes for which there is room.
fn extend(bytes: &mut Vec<u8>, more: &[u8])
    requires { vec_len bytes.old + length more.now ≤ vec_capacity bytes.old }
    ensures items { bytes.new.items ≡ bytes.old.items ++ more.now }
    ensures len { vec_len bytes.new ≡ vec_len bytes.old + length more.now }
    ensures capacity { vec_capacity bytes.old ≤ vec_capacity bytes.new }
{
    match bytes.extend_from_slice(more) {
        Ok(()) => {}
        Err(_) => unreachable!(),
    }
}

fn kind_of(answer: &AnswerRef<'_>) -> u8
    ensures { result ≡ kind_of (answer_lent answer.now) }
{
    match answer {
        AnswerRef::Inserted => 1,
        AnswerRef::Updated(_) => 2,
        AnswerRef::Was(None) => 3,
        AnswerRef::Was(Some(_)) => 4,
        AnswerRef::Deleted(_) => 5,
        AnswerRef::Exists => 6,
        AnswerRef::NoRecord => 7,
        AnswerRef::NotNumber => 8,
        AnswerRef::Added(_) => 9,
    }
}

/// The amount that an answer tells, 0 where it tells none.
fn amount_of(answer: &AnswerRef<'_>) -> u64
    ensures { result ≡ amount_of (answer_lent answer.now) }
{
    match answer {
        AnswerRef::Added(amount) => *amount,
        _ => 0,
    }
}

/// The bytes of the value or the amount that an answer tells, none where it tells none.
#[tactic(auto, unfolding(crate::specs::Amounts::amount_bytes))]
fn value_of<'a>(answer: &'a AnswerRef<'_>, amount: &'a [u8; 8]) -> &'a [u8]
    requires { amount.now ≡ amount_bytes (amount_of (answer_lent answer.now)) }
    ensures bytes { result.now ≡ value_told (answer_lent answer.now) }
    ensures bounded { length result.now ≤ 120 }
{
    match answer {
        AnswerRef::Updated(value) | AnswerRef::Was(Some(value)) | AnswerRef::Deleted(value) => {
            value.as_bytes()
        }
        AnswerRef::Added(_) => amount,
        AnswerRef::Inserted
        | AnswerRef::Was(None)
        | AnswerRef::Exists
        | AnswerRef::NoRecord
        | AnswerRef::NotNumber => &[],
    }
}

/// The key at a place, where one stands there.
#[tactic(auto, unfolding(crate::specs::Packed::key_at))]
pub(crate) fn key_at(bytes: &[u8], place: usize) -> Option<Key>
    ensures { IsPacked bytes.now place → result ≡ Some (key_at bytes.now place) }
{
    let tail = tail_at(bytes, place);
    if tail.len() < HEAD_LEN || tail.len() - HEAD_LEN < tail[0] as usize {
        return None;
    }
    Key::new(&tail[HEAD_LEN..HEAD_LEN + tail[0] as usize]).ok()
}

/// Whether the key at a place is below this one. Where none stands it isn't.
pub(crate) fn is_under(bytes: &[u8], place: usize, key: &Key) -> bool
    ensures { IsPacked bytes.now place → result ≡ is_below (key_at bytes.now place) key.now }
{
    match key_at(bytes, place) {
        Some(found) => found < *key,
        None => false,
    }
}

/// The entry whose key and answer stand at its place.
pub(crate) fn packed_entry(bytes: &[u8], slot: Slot) -> Entry
    requires { IsPacked bytes.now slot.place }
    ensures { result ≡ entry_in bytes.now slot }
{
    match key_at(bytes, slot.place) {
        Some(key) => Entry {
            number: slot.number,
            key,
            answer: answer_at(bytes, slot.place),
        },
        None => unreachable!(),
    }
}

/// How many bytes the key and the answer at a place take, 0 where none stand.
pub(crate) fn packed_len(bytes: &[u8], place: usize) -> usize
    ensures { IsPacked bytes.now place → result ≡ packed_len bytes.now place }
{
    let tail = tail_at(bytes, place);
    if tail.len() < HEAD_LEN {
        return 0;
    }
    HEAD_LEN + tail[0] as usize + tail[2] as usize
}

/// The bytes from a place on, none where it is past the end.
fn tail_at(bytes: &[u8], place: usize) -> &[u8]
    ensures { result.now ≡ drop place bytes.now }
{
    if place < bytes.len() {
        &bytes[place..]
    } else {
        &[]
    }
}

/// The answer at a place.
#[tactic(auto, unfolding(crate::specs::Packed::packed_answer))]
pub(crate) fn answer_at(bytes: &[u8], place: usize) -> Answer
    requires { IsPacked bytes.now place }
    ensures { result ≡ packed_answer bytes.now place }
{
    let tail = tail_at(bytes, place);
    let from = HEAD_LEN + tail[0] as usize;
    match Value::new(&tail[from..from + tail[2] as usize]) {
        Ok(value) => answer_of(tail[1], value),
        Err(_) => unreachable!(),
    }
}

#[tactic(auto, unfolding(crate::specs::Amounts::amount_in))]
fn answer_of(kind: u8, value: Value) -> Answer
    requires { kind ≡ 9 → length value ≡ 8 }
    ensures { result ≡ answer_from kind value }
{
    match kind {
        1 => Answer::Inserted,
        2 => Answer::Updated(value),
        3 => Answer::Was(None),
        4 => Answer::Was(Some(value)),
        5 => Answer::Deleted(value),
        6 => Answer::Exists,
        8 => Answer::NotNumber,
        9 => Answer::Added(BigEndian::read_u64(value.as_bytes())),
        _ => Answer::NoRecord,
    }
}
