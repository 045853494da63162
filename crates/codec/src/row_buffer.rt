//! Packed rows that change in their place.
ghost use Rattle.std.specs.Prelude.{◌≡◌, ◌<◌, ◌≤◌, ◌+◌, ◌-◌, ◌++◌, [], length, take, drop, insert, remove, slice_set, vec_len, OnOk, OnErr, IfOk, IfErr};
ghost use Rattle.std.specs.Vec.{vec_capacity};
ghost use Rattle.std.specs.List.{flat_map};
ghost use Rattle.codec.specs.Rows.{row_bytes, IsRow};

use crate::gap::{fit, put_text_at};
use crate::lent_rows::LentRows;
use record_key::{Key, Refusal, ValueRef};
use std::alloc::{AllocError, Global};
use std::marker::Model;

/// Rows as their bytes, one row after another: a byte of length and the key, a byte of length and the value.
#[derive(Debug, Drop)]
pub struct RowBuffer {
    bytes: Vec<u8>,
    count: usize,
}

impl Model for RowBuffer {
    ghost use Rattle.std.specs.Prelude.{◌-◌, vec_len};
    ghost use Rattle.std.specs.Vec.{vec_capacity};
    ghost use Rattle.std.specs.List.{flat_map};
    ghost use Rattle.codec.specs.PackedRows.{rows_spelled, ArePacked, RowsWithRoom};

    ghost Value = { RowsWithRoom };

    ghost view = { λ r. record {
      rows = rows_spelled r.count r.bytes.items;
      room = vec_capacity r.bytes - vec_len r.bytes;
    } };

    ghost invariant = { λ r. ArePacked (rows_spelled r.count r.bytes.items) r.bytes.items };
}

impl RowBuffer {
    ghost use Rattle.codec.specs.PackedRows.{rows_spelled, ArePacked};

    /// None. Takes no memory; the allocator serves later ones.
    pub fn new(alloc: Global) -> RowBuffer
        ensures { result.rows ≡ [] }
    {
        RowBuffer {
            bytes: Vec::new(alloc),
            count: 0,
        }
    }

    /// Copies of rows, so many, which the bytes are. Refused where memory is.
    pub(crate) fn copy_of(
        alloc: Global,
        bytes: &[u8],
        count: usize,
    ) -> Result<RowBuffer, AllocError>
        requires { ArePacked (rows_spelled count bytes.now) bytes.now }
        ensures { IfOk result (λ rows. rows.rows ≡ rows_spelled count bytes.now) }
    {
        let mut copy = Vec::new(alloc);
        copy.extend_from_slice(bytes)?;
        Ok(RowBuffer { bytes: copy, count })
    }

    /// What serves their memory.
    pub fn allocator(&self) -> Global {
        *self.bytes.allocator()
    }

    /// How many there are.
    pub fn len(&self) -> usize
        ensures { result ≡ length self.now.rows }
    {
        self.count
    }

    /// The rows, lent.
    pub fn lent(&self) -> LentRows<'_>
        ensures { result ≡ self.now.rows }
    {
        LentRows::new(&self.bytes, self.count)
    }

    /// Makes room for so many bytes. Refused NoMemory, where there isn't room already.
    pub fn make_room(&mut self, bytes: usize) -> Result<(), Refusal>
        ensures room { OnOk result (bytes ≤ self.new.room) }
        ensures same { self.new.rows ≡ self.old.rows }
        ensures refused { IfErr result (λ refusal. refusal ≡ Refusal.NoMemory) }
        ensures lacked { OnErr result (self.old.room < bytes) }
    {
        self.bytes.reserve(bytes)?;
        Ok(())
    }

    /// Puts copies of the rows at the end. Refused NoMemory, where there isn't room for them, and unchanged then.
    pub fn add(&mut self, more: &LentRows<'_>) -> Result<(), Refusal>
        ensures added { OnOk result (self.new.rows ≡ self.old.rows ++ more.now) }
        ensures unchanged { OnErr result (self.new.rows ≡ self.old.rows) }
        ensures refused { IfErr result (λ refusal. refusal ≡ Refusal.NoMemory) }
        ensures lacked { OnErr result (self.old.room < length (flat_map row_bytes more.now)) }
    {
        self.bytes.extend_from_slice(more.as_bytes())?;
        self.count += more.len();
        Ok(())
    }

    /// Puts a row at a place, those from there on behind it. There is room. Takes no memory.
    pub fn insert(&mut self, at: usize, key: &Key, value: &ValueRef<'_>)
        requires place { at ≤ length self.old.rows }
        requires room { length (row_bytes (key.now, value.now)) ≤ self.old.room }
        ensures { self.new.rows ≡ insert self.old.rows at (key.now, value.now) }
    {
        let start = self.start_of(at);
        put(&mut self.bytes, start, start, key, value);
        self.count += 1;
    }

    /// Puts a row in the place of another. There is room. Takes no memory.
    pub fn set(&mut self, at: usize, key: &Key, value: &ValueRef<'_>)
        requires place { at < length self.old.rows }
        requires room { length (row_bytes (key.now, value.now)) ≤ self.old.room }
        ensures { self.new.rows ≡ slice_set self.old.rows at (key.now, value.now) }
    {
        let (start, end) = self.row_at(at);
        put(&mut self.bytes, start, end, key, value);
    }

    /// Takes the row at a place out. Takes no memory.
    pub fn remove(&mut self, at: usize)
        requires { at < length self.old.rows }
        ensures { self.new.rows ≡ remove self.old.rows at }
    {
        let (start, end) = self.row_at(at);
        fit(&mut self.bytes, start, end, 0);
        self.count -= 1;
    }

    /// Drops the rows from a place on. Takes no memory.
    pub fn truncate(&mut self, at: usize)
        requires { at ≤ length self.old.rows }
        ensures { self.new.rows ≡ take at self.old.rows }
    {
        let start = self.start_of(at);
        self.bytes.truncate(start);
        self.count = at;
    }

    /// How many bytes the rows before a place take.
    fn start_of(&self, at: usize) -> usize
        requires { at ≤ length self.now.rows }
        ensures { result ≡ length (flat_map row_bytes (take at self.now.rows)) }
    {
        self.bytes.len() - self.lent().from(at).as_bytes().len()
    }

    /// Where the bytes of the row at a place begin and end.
    fn row_at(&self, at: usize) -> (usize, usize)
        requires { at < length self.now.rows }
        ensures start { result.0 ≡ length (flat_map row_bytes (take at self.now.rows)) }
        ensures end { result.1 ≡ length (flat_map row_bytes (take (at + 1) self.now.rows)) }
    {
        let mut rest = self.lent().from(at);
        let start = self.bytes.len() - rest.as_bytes().len();
        let _row = rest.next_texts();
        (start, self.bytes.len() - rest.as_bytes().len())
    }
}

/// Puts a row in the place of the bytes from `start` to `end`. There is room.
fn put(bytes: &mut Vec<u8>, start: usize, end: usize, key: &Key, value: &ValueRef<'_>)
    requires ordered { start ≤ end }
    requires within { end ≤ vec_len bytes.old }
    requires room { vec_len bytes.old + length (row_bytes (key.now, value.now)) ≤ vec_capacity bytes.old }
    ensures put { bytes.new.items
        ≡ take start bytes.old.items ++ (row_bytes (key.now, value.now) ++ drop end bytes.old.items) }
    ensures row { IsRow (key.now, value.now) }
{
    let (key, value) = (key.as_bytes(), value.as_bytes());
    fit(bytes, start, end, 2 + key.len() + value.len());
    put_text_at(bytes, start, key);
    put_text_at(bytes, start + 1 + key.len(), value);
}
