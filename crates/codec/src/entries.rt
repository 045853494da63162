//! Entries: what a leaf keeps of operations that are done.
ghost use Rattle.std.specs.Prelude.{◌≡◌, ◌≤◌, ◌<◌, ◌^◌, length, drop, IfSome, OnSome, IfNone};
ghost use Rattle.std.specs.List.{flat_map, AllByRecursion};
ghost use Rattle.codec.specs.Entries.{entry_bytes, entries_bytes, HasEntryNumber, IsEntry};
ghost use Rattle.codec.specs.Writing.{HasRoom, Puts};
ghost use Rattle.codec.specs.Reading.{Gives, Finds, numbers_rise, counted_at, items_at, entry_at, entries_at};

use crate::fault::Fault;
use crate::frame::HEADER_LEN;
use crate::lengths::{answer_len, key_len};
use crate::reading::{take_answer, take_count, take_key, take_number};
use crate::writing::{put_answer, put_number, put_text};
use record_key::{Entries, Entry};
use std::alloc::Global;

/// Whether each entry's number is above the one before it, the first entry's above `low`.
pub(crate) fn entries_rise(low: u64, entries: &Entries) -> bool
    ensures { result ≡ numbers_rise low entries.now }
{
    let mut before = low;
    for at in 0..entries.len() {
        let number = entries.entry(at).number;
        if number <= before {
            return false;
        }
        before = number;
    }
    true
}

/// A number, a key and an answer.
fn take_entry(bytes: &[u8]) -> Option<(Entry, &[u8])>
    ensures { Gives (λ x. (x.0, x.1.now)) result (entry_at bytes.now) }
{
    let (number, rest) = take_number(bytes)?;
    let (key, rest) = take_key(rest)?;
    let (answer, rest) = take_answer(rest)?;
    Some((
        Entry {
            number,
            key,
            answer: answer.owned(),
        },
        rest,
    ))
}

fn take_each(alloc: Global, count: u64, bytes: &[u8]) -> Result<(Entries, &[u8]), Fault>
    ensures { Finds (λ x. (x.0, x.1.now)) result (items_at entry_at count bytes.now) }
{
    let mut entries = Entries::new(alloc);
    let mut rest = bytes;
    for _ in 0..count {
        let Some(part) = take_entry(rest) else {
            return Err(Fault::Outside);
        };
        match entries.push(&part.0) {
            Ok(()) => {}
            Err(_) => return Err(Fault::Memory),
        }
        rest = part.1;
    }
    Ok((entries, rest))
}

/// A count, and that many entries.
#[tactic(auto, unfolding(crate::specs::Reading::entries_at))]
pub(crate) fn take_entries(alloc: Global, bytes: &[u8]) -> Result<(Entries, &[u8]), Fault>
    ensures { Finds (λ x. (x.0, x.1.now)) result (entries_at bytes.now) }
{
    let Some((count, rest)) = take_count(bytes) else {
        return Err(Fault::Outside);
    };
    take_each(alloc, count, rest)
}

#[tactic(auto, using(crate::proofs::Lists::entry_length))]
fn entry_len(entry: &Entry) -> usize
    requires { HasEntryNumber entry.now }
    ensures len { result ≡ length (entry_bytes entry.now) }
    ensures bounded { result ≤ 163 }
    ensures spelled { IsEntry entry.now }
{
    HEADER_LEN + key_len(&entry.key) + answer_len(&entry.answer.lent())
}

/// How many bytes each entry takes, together. None where that is 2 to the power of 64 or more.
fn each_len(entries: &Entries) -> Option<usize>
    requires { AllByRecursion HasEntryNumber entries.now }
    ensures some { IfSome result (λ len. len ≡ length (flat_map entry_bytes entries.now)) }
    ensures spelled { OnSome result (AllByRecursion IsEntry entries.now) }
    ensures none { IfNone result (2 ^ 64 ≤ length (flat_map entry_bytes entries.now)) }
{
    let mut len: usize = 0;
    for at in 0..entries.len() {
        let Some(sum) = len.checked_add(entry_len(&entries.entry(at))) else {
            return None;
        };
        len = sum;
    }
    Some(len)
}

fn put_entry(out: &mut Vec<u8>, entry: &Entry)
    requires { HasRoom out.old (entry_bytes entry.now) }
    ensures { Puts out.old out.new (entry_bytes entry.now) }
{
    put_number(out, entry.number);
    put_text(out, entry.key.as_bytes());
    put_answer(out, &entry.answer.lent());
}

fn put_each(out: &mut Vec<u8>, entries: &Entries)
    requires { HasRoom out.old (flat_map entry_bytes entries.now) }
    ensures { Puts out.old out.new (flat_map entry_bytes entries.now) }
{
    for at in 0..entries.len() {
        put_entry(out, &entries.entry(at));
    }
}

/// How many bytes the entries take, with their count. None where that is 2 to the power of 64 or more.
#[tactic(auto, unfolding(crate::specs::Entries::entries_bytes), using(crate::proofs::Numbered::number_lengths))]
pub(crate) fn entries_len(entries: &Entries) -> Option<usize>
    requires { AllByRecursion HasEntryNumber entries.now }
    ensures some { IfSome result (λ len. len ≡ length (entries_bytes entries.now)) }
    ensures few { length entries.now < 2 ^ 64 }
    ensures spelled { OnSome result (AllByRecursion IsEntry entries.now) }
    ensures none { IfNone result (2 ^ 64 ≤ length (entries_bytes entries.now)) }
{
    let _count = entries.len();
    let Some(len) = each_len(entries) else {
        return None;
    };
    len.checked_add(HEADER_LEN)
}

#[tactic(auto, unfolding(crate::specs::Entries::entries_bytes), using(crate::proofs::Numbered::number_lengths))]
pub(crate) fn put_entries(out: &mut Vec<u8>, entries: &Entries)
    requires { HasRoom out.old (entries_bytes entries.now) }
    ensures { Puts out.old out.new (entries_bytes entries.now) }
{
    put_number(out, entries.len() as u64);
    put_each(out, entries);
}
