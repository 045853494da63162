//! Packed rows, as a reply has them.
ghost use Rattle.std.specs.Prelude.{◌≡◌, ◌<◌, ◌≤◌, ◌^◌, ◌∷◌, ◌++◌, [], length, OnOk, OnErr, OnSome, IfOk, IfErr, IfSome, IfNone};
ghost use Rattle.std.specs.Cmp.Rules.{comparing};
ghost use Rattle.std.proofs.Common.{rules};
ghost use Rattle.std.specs.List.{AllByRecursion};
ghost use Rattle.codec.specs.Rows.{same_rows, rows_bytes, IsRow};
ghost use Rattle.codec.specs.Writing.{HasRoom, Puts};
ghost use Rattle.codec.specs.PackedRows.{rows_spelled, ArePacked};
ghost use Rattle.codec.specs.Reading.{Gives, Finds, rows_at, row_at, text_at, rows_end};
ghost use Rattle.record_key.specs.Order.{is_below};

use crate::fault::Fault;
use crate::frame::HEADER_LEN;
use crate::key_order::is_below;
use crate::lent_rows::LentRows;
use crate::reading::{take_bytes, take_count};
use crate::row_buffer::RowBuffer;
use crate::writing::{put_bytes, put_number};
use record_key::{Key, Refusal, Value, ValueRef};
use std::alloc::{AllocError, Global};
use std::marker::Model;

/// Rows as their bytes, as `RowBuffer` has them.
#[derive(Debug, Drop)]
pub struct Rows {
    buffer: RowBuffer,
}

impl Model for Rows {
    ghost use Rattle.std.specs.Prelude.{List};
    ghost use Rattle.record_key.specs.Rows.{Row};

    ghost Value = { List Row };

    ghost view = { λ r. r.buffer.rows };
}

impl Rows {
    /// None. Takes no memory; the allocator serves later ones.
    pub fn new(alloc: Global) -> Rows
        ensures { result ≡ [] }
    {
        Rows {
            buffer: RowBuffer::new(alloc),
        }
    }

    /// How many there are.
    pub fn len(&self) -> usize
        ensures { result ≡ length self.now }
    {
        self.buffer.len()
    }

    /// Puts copies of the rows at the end. Refused NoMemory, and unchanged then.
    pub fn add(&mut self, more: &LentRows<'_>) -> Result<(), Refusal>
        ensures added { OnOk result (self.new ≡ self.old ++ more.now) }
        ensures unchanged { OnErr result (self.new ≡ self.old) }
        ensures refused { IfErr result (λ refusal. refusal ≡ Refusal.NoMemory) }
    {
        self.buffer.add(more)
    }

    /// Puts a row at the end. Refused NoMemory, and unchanged then.
    pub fn push(&mut self, key: &Key, value: &ValueRef<'_>) -> Result<(), Refusal>
        ensures pushed { OnOk result (self.new ≡ self.old ++ (key.now, value.now) ∷ []) }
        ensures unchanged { OnErr result (self.new ≡ self.old) }
        ensures refused { IfErr result (λ refusal. refusal ≡ Refusal.NoMemory) }
    {
        let len = 2 + key.as_bytes().len() + value.as_bytes().len();
        self.buffer.make_room(len)?;
        self.buffer.insert(self.buffer.len(), key, value);
        Ok(())
    }

    /// The rows, lent: to be read one after another.
    pub fn lent(&self) -> LentRows<'_>
        ensures { result ≡ self.now }
    {
        self.buffer.lent()
    }

    /// The rows, to be changed.
    pub fn into_buffer(self) -> RowBuffer
        ensures { result.rows ≡ self }
    {
        let Rows { buffer } = self;
        buffer
    }

    /// The rows as a plain list. Refused where memory is.
    pub fn to_rows(&self, alloc: Global) -> Result<Vec<(Key, Value)>, AllocError>
        ensures { IfOk result (λ rows. rows.items ≡ self.now) }
    {
        let mut rows = Vec::new(alloc);
        let mut rest = self.lent();
        while let Some(row) = rest.next() {
            rows.push(row)?;
        }
        Ok(rows)
    }

    /// The same rows again. Refused where memory is.
    #[tactic(auto, using(crate::proofs::PackedRows::packs, crate::proofs::PackedRows::spells))]
    pub fn copied(&self) -> Result<Rows, AllocError>
        ensures { IfOk result (λ rows. rows ≡ self.now) }
    {
        let rows = self.lent();
        copy_of(self.buffer.allocator(), rows.as_bytes(), rows.len())
    }
}

/// How many bytes rows take with their count. None where that is 2 to the power of 64 or more.
#[tactic(auto, unfolding(crate::specs::Rows::rows_bytes), using(crate::proofs::Numbered::number_lengths))]
pub(crate) fn rows_len(rows: &LentRows<'_>) -> Option<usize>
    ensures some { IfSome result (λ len. len ≡ length (rows_bytes rows.now)) }
    ensures few { length rows.now < 2 ^ 64 }
    ensures spelled { OnSome result (AllByRecursion IsRow rows.now) }
    ensures none { IfNone result (2 ^ 64 ≤ length (rows_bytes rows.now)) }
{
    let _count = rows.len();
    rows.as_bytes().len().checked_add(HEADER_LEN)
}

/// Appends the rows' count, and each.
#[tactic(auto, unfolding(crate::specs::Rows::rows_bytes), using(crate::proofs::Numbered::number_lengths))]
pub(crate) fn put_rows(out: &mut Vec<u8>, rows: &LentRows<'_>)
    requires { HasRoom out.old (rows_bytes rows.now) }
    ensures { Puts out.old out.new (rows_bytes rows.now) }
{
    put_number(out, rows.len() as u64);
    put_bytes(out, rows.as_bytes());
}

impl PartialEq for Rows {
    ghost eq = { same_rows };

    ghost laws = { Prim.search (comparing, rules) };

    #[tactic(auto, using(crate::proofs::PackedRows::equal_bytes))]
    fn eq(&self, other: &Rows) -> bool {
        self.lent().as_bytes() == other.lent().as_bytes()
    }
}

impl Eq for Rows {
    ghost laws = { Prim.search (comparing, rules) };
}

/// A text of at least `low` bytes and at most `high`.
fn take_text(bytes: &[u8], low: usize, high: usize) -> Option<(&[u8], &[u8])>
    ensures { Gives (λ x. (x.0.now, x.1.now)) result (text_at low high bytes.now) }
{
    let (text, rest) = take_bytes(bytes)?;
    if text.len() < low || high < text.len() {
        None
    } else {
        Some((text, rest))
    }
}

/// A key, then a value.
#[tactic(auto, unfolding(crate::specs::Reading::key_at, crate::specs::Reading::value_at))]
pub(crate) fn take_texts(bytes: &[u8]) -> Option<((&[u8], &[u8]), &[u8])>
    ensures { Gives (λ x. ((x.0.0.now, x.0.1.now), x.1.now)) result (row_at bytes.now) }
{
    let (key, rest) = take_text(bytes, 1, Key::MAX_LEN)?;
    let (value, rest) = take_text(rest, 0, Value::MAX_LEN)?;
    Some(((key, value), rest))
}

/// What follows so many rows with rising keys.
fn skip_rows(count: u64, bytes: &[u8]) -> Option<&[u8]>
    ensures { Gives (λ rest. rest.now) result (rows_end [] count bytes.now) }
{
    let mut before: &[u8] = &[];
    let mut rest = bytes;
    for _ in 0..count {
        let Some(((key, _value), after)) = take_texts(rest) else {
            return None;
        };
        if !is_below(before, key) {
            return None;
        }
        before = key;
        rest = after;
    }
    Some(rest)
}

/// A count, and that many rows with rising keys. They are copied once, after all of them were read.
#[tactic(auto, unfolding(crate::specs::Reading::rows_at))]
pub(crate) fn take_rows(alloc: Global, bytes: &[u8]) -> Result<(Rows, &[u8]), Fault>
    ensures { Finds (λ x. (x.0, x.1.now)) result (rows_at bytes.now) }
{
    let Some((count, rest)) = take_count(bytes) else {
        return Err(Fault::Outside);
    };
    let Some(after) = skip_rows(count, rest) else {
        return Err(Fault::Outside);
    };
    let rows = copy_of(alloc, &rest[..rest.len() - after.len()], count as usize)?;
    Ok((rows, after))
}

/// The rows that the bytes are, so many.
pub(crate) fn copy_of(alloc: Global, bytes: &[u8], count: usize) -> Result<Rows, AllocError>
    requires { ArePacked (rows_spelled count bytes.now) bytes.now }
    ensures { IfOk result (λ rows. rows ≡ rows_spelled count bytes.now) }
{
    Ok(Rows {
        buffer: RowBuffer::copy_of(alloc, bytes, count)?,
    })
}
