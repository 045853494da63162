//! Packed rows where their bytes stand: the place of a key among them, and they themselves, one after another.
ghost use Rattle.std.specs.Prelude.{◌≡◌, ◌<◌, ◌≤◌, ◌∷◌, [], length, take, drop, get_or, IfSome, IfNone, IfOk, IfErr};
ghost use Rattle.std.specs.List.{flat_map, AllByRecursion};
ghost use Rattle.record_key.specs.Rows.{IsPlaceOf};
ghost use Rattle.codec.specs.Rows.{row_bytes, IsRow};
ghost use Rattle.codec.specs.PackedRows.{first_text, after_text, HasText};

use record_key::{Key, Value, ValueRef, order_of_texts};
use std::cmp::Ordering;
use std::marker::Model;

/// Rows that are lent, as their bytes.
#[derive(Debug, Drop)]
pub struct LentRows<'a> {
    bytes: &'a [u8],
    count: usize,
}

impl<'a> Model for LentRows<'a> {
    ghost use Rattle.std.specs.Prelude.{List};
    ghost use Rattle.record_key.specs.Rows.{Row};
    ghost use Rattle.codec.specs.PackedRows.{rows_spelled, ArePacked};

    ghost Value = { List Row };

    ghost view = { λ r. rows_spelled r.count r.bytes.now };

    ghost invariant = { λ r. ArePacked (rows_spelled r.count r.bytes.now) r.bytes.now };
}

impl<'a> LentRows<'a> {
    ghost use Rattle.codec.specs.PackedRows.{rows_spelled, ArePacked};

    /// So many rows, which the bytes are.
    pub(crate) fn new(bytes: &'a [u8], count: usize) -> LentRows<'a>
        requires { ArePacked (rows_spelled count bytes.now) bytes.now }
        ensures { result ≡ rows_spelled count bytes.now }
    {
        LentRows { bytes, count }
    }

    /// The same rows, lent once more.
    pub fn again(&self) -> LentRows<'a>
        ensures { result ≡ self.now }
    {
        LentRows {
            bytes: self.bytes,
            count: self.count,
        }
    }

    /// How many there are.
    pub fn len(&self) -> usize
        ensures { result ≡ length self.now }
    {
        self.count
    }

    /// Their bytes.
    pub(crate) fn as_bytes(&self) -> &'a [u8]
        ensures bytes { result.now ≡ flat_map row_bytes self.now }
        ensures each { AllByRecursion IsRow self.now }
    {
        self.bytes
    }

    /// Takes the next row off, and gives the bytes of its key and its value. None after the last one. Takes no memory.
    pub fn next_texts(&mut self) -> Option<(&'a [u8], &'a [u8])>
        ensures row { IfSome result (λ row. self.old ≡ (row.0.now, row.1.now) ∷ self.new) }
        ensures each { IfSome result (λ row. IsRow (row.0.now, row.1.now)) }
        ensures end { IfNone result (self.old ≡ []) }
    {
        if self.count == 0 {
            return None;
        }
        let (key, rest) = split_text(self.bytes);
        let (value, rest) = split_text(rest);
        self.bytes = rest;
        self.count -= 1;
        Some((key, value))
    }

    /// Takes the next row off. None after the last one. Takes no memory.
    pub fn next(&mut self) -> Option<(Key, Value)>
        ensures row { IfSome result (λ row. self.old ≡ row ∷ self.new) }
        ensures end { IfNone result (self.old ≡ []) }
    {
        let (key, value) = self.next_texts()?;
        match (Key::new(key), Value::new(value)) {
            (Ok(key), Ok(value)) => Some((key, value)),
            _ => unreachable!(),
        }
    }

    /// Those from a place on, counted from 0.
    pub fn from(&self, at: usize) -> LentRows<'a>
        requires { at ≤ length self.now }
        ensures { result ≡ drop at self.now }
    {
        let mut rest = self.again();
        for _ in 0..at {
            let _row = rest.next_texts();
        }
        rest
    }

    /// Those before a place.
    pub fn before(&self, at: usize) -> LentRows<'a>
        requires { at ≤ length self.now }
        ensures { result ≡ take at self.now }
    {
        let rest = self.from(at);
        LentRows {
            bytes: &self.bytes[..self.bytes.len() - rest.bytes.len()],
            count: at,
        }
    }

    /// The place of the key's row among rows in order, or where it would go.
    pub fn place_of(&self, key: &Key) -> Result<usize, usize>
        ensures place { IsPlaceOf key.now self.now result }
        ensures within { IfOk result (λ at. at < length self.now) }
        ensures bounded { IfErr result (λ gap. gap ≤ length self.now) }
    {
        let count = self.len();
        let mut rest = self.again();
        for at in 0..count {
            let Some((text, _)) = rest.next_texts() else {
                unreachable!()
            };
            match order_of_texts(text, key.as_bytes()) {
                Ordering::Less => {}
                Ordering::Equal => return Ok(at),
                Ordering::Greater => return Err(at),
            }
        }
        Err(count)
    }

    /// The key of the row at a place.
    pub fn key(&self, at: usize) -> Key
        requires { at < length self.now }
        ensures { result ≡ (get_or self.now at ([], [])).0 }
    {
        match self.from(at).next() {
            Some((key, _)) => key,
            None => unreachable!(),
        }
    }

    /// The value of the row at a place.
    pub fn value(&self, at: usize) -> ValueRef<'a>
        requires { at < length self.now }
        ensures { result ≡ (get_or self.now at ([], [])).1 }
    {
        match self.from(at).next_texts() {
            Some((_, value)) => match ValueRef::new(value) {
                Some(value) => value,
                None => unreachable!(),
            },
            None => unreachable!(),
        }
    }
}

/// The key or the value that bytes begin with, and what follows it. Whoever calls it owes that one stands there.
fn split_text(bytes: &[u8]) -> (&[u8], &[u8])
    requires { HasText bytes.now }
    ensures text { result.0.now ≡ first_text bytes.now }
    ensures rest { result.1.now ≡ after_text bytes.now }
{
    bytes[1..].split_at(bytes[0] as usize)
}
