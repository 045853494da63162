//! A slow table that can't be wrong, for tests to compare with.
ghost use Rattle.std.specs.Prelude.{◌≡◌, ◌<◌, ◌≤◌, length, OnOk, OnErr, IfOk, IfErr};
ghost use Rattle.std.specs.Option.{option_copied};
ghost use Rattle.std.specs.FinMap.{empty, get, insert, remove, entries};
ghost use Rattle.record_key.specs.Table.{Table, answer_in, after};
ghost use Rattle.record_key.specs.Rows.{IsAt, IsGapFor, AreInOrder, table_of};

use crate::key::Key;
use crate::op::{Answer, Op};
use crate::value::Value;
use std::alloc::{AllocError, Global};
use std::cmp::Ordering;
use std::marker::Model;

/// A table as a vector of its rows in key order, read from its beginning for each operation.
#[derive(Debug, Drop)]
pub struct PlainTable {
    rows: Vec<(Key, Value)>,
}

impl Model for PlainTable {
    ghost use Rattle.record_key.specs.Table.{Table, table_code};
    ghost use Rattle.record_key.specs.Rows.{AreInOrder, table_of};

    ghost Value = { Table };

    ghost coded = { table_code };

    ghost view = { λ t. table_of t.rows.items };

    ghost invariant = { λ t. AreInOrder t.rows.items };
}

impl PlainTable {
    /// The table of no records.
    pub fn new(alloc: Global) -> PlainTable
        ensures { result ≡ empty }
    {
        PlainTable {
            rows: Vec::new(alloc),
        }
    }

    /// The rows, in key order.
    pub fn rows(&self) -> &[(Key, Value)]
        ensures { result.now ≡ entries self.now }
    {
        self.rows.as_slice()
    }

    /// The value at the key.
    pub fn get(&self, key: &Key) -> Option<&Value>
        ensures { option_copied result ≡ get self.now key.now }
    {
        match place_of(self.rows.as_slice(), key) {
            Ok(at) => Some(&self.rows[at].1),
            Err(_) => None,
        }
    }

    /// Does the operation and answers it. A refused growth leaves the table as it was.
    pub fn apply(&mut self, op: &Op) -> Result<Answer, AllocError>
        ensures answer { IfOk result (λ answer. answer ≡ answer_in self.old op.now) }
        ensures table { OnOk result (self.new ≡ after self.old op.now) }
        ensures refused { OnErr result (self.new ≡ self.old) }
    {
        match (op, self.value_at(op.key())) {
            (Op::Insert(key, value), None) => {
                put_row(&mut self.rows, key, value)?;
                Ok(Answer::Inserted)
            }
            (Op::Insert(_, _), Some(_)) => Ok(Answer::Exists),
            (Op::Update(key, value), Some(old)) => {
                put_row(&mut self.rows, key, value)?;
                Ok(Answer::Updated(old))
            }
            (Op::Upsert(key, value), old) => {
                put_row(&mut self.rows, key, value)?;
                Ok(Answer::Was(old))
            }
            (Op::Delete(key), Some(old)) => {
                remove_row(&mut self.rows, key);
                Ok(Answer::Deleted(old))
            }
            (Op::Add(key, amount), Some(old)) => match old.plus(*amount) {
                Some(sum) => {
                    put_row(&mut self.rows, key, &sum)?;
                    Ok(Answer::Added(*amount))
                }
                None => Ok(Answer::NotNumber),
            },
            (Op::Update(_, _), None) => Ok(Answer::NoRecord),
            (Op::Delete(_), None) => Ok(Answer::NoRecord),
            (Op::Add(_, _), None) => Ok(Answer::NoRecord),
        }
    }
}

impl PlainTable {
    /// A copy of the value at the key.
    fn value_at(&self, key: &Key) -> Option<Value>
        ensures { result ≡ get self.now key.now }
    {
        match self.get(key) {
            Some(value) => Some(value.copied()),
            None => None,
        }
    }
}

/// Puts the row of the key, over one that is there.
fn put_row(rows: &mut Vec<(Key, Value)>, key: &Key, value: &Value) -> Result<(), AllocError>
    requires { AreInOrder rows.old.items }
    ensures ordered { AreInOrder rows.new.items }
    ensures ok { OnOk result (table_of rows.new.items ≡ insert (table_of rows.old.items) key.now value.now) }
    ensures refused { OnErr result (rows.new.items ≡ rows.old.items) }
{
    let row = (key.copied(), value.copied());
    match place_of(rows.as_slice(), key) {
        Ok(at) => rows[at] = row,
        Err(at) => rows.insert(at, row)?,
    }
    Ok(())
}

/// Removes the row of the key, where there is one.
fn remove_row(rows: &mut Vec<(Key, Value)>, key: &Key)
    requires { AreInOrder rows.old.items }
    ensures ordered { AreInOrder rows.new.items }
    ensures table { table_of rows.new.items ≡ remove (table_of rows.old.items) key.now }
{
    if let Ok(at) = place_of(rows.as_slice(), key) {
        rows.remove(at);
    }
}

/// Where the key's row stands, or where it would go.
fn place_of(rows: &[(Key, Value)], key: &Key) -> Result<usize, usize>
    ensures at { IfOk result (IsAt key.now rows.now) }
    ensures gap { IfErr result (IsGapFor key.now rows.now) }
    ensures within { IfOk result (λ place. place < length rows.now) }
    ensures bounded { IfErr result (λ place. place ≤ length rows.now) }
{
    for (place, row) in rows.iter().enumerate() {
        match row.0.cmp(key) {
            Ordering::Less => {}
            Ordering::Equal => return Ok(place),
            Ordering::Greater => return Err(place),
        }
    }
    Err(rows.len())
}
