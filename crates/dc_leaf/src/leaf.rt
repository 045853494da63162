//! One leaf.
ghost use Rattle.std.specs.Prelude.{◌≡◌};
ghost use Rattle.std.specs.Option.{option_copied};
ghost use Rattle.std.specs.FinMap as map;
ghost use Rattle.record_key.specs.Entries.{StandBetween};
ghost use Rattle.record_key.specs.Rows.{AreInOrder, LieBetween, table_of};
ghost use Rattle.record_key.specs.Order.{rows_in};
ghost use Rattle.dc_ab_lsn.specs.AbLsn.{captures};
ghost use Rattle.dc_leaf.specs.Leaf.{first, IsLeaf};

use crate::rows::{rows_below, rows_from, value_at};
use codec::{LentRows, RowBuffer};
use dc_ab_lsn::AbLsn;
use record_key::{Entries, Key, ValueRef};
use std::alloc::Global;
use std::marker::Model;

/// What a request came to.
#[derive(Debug, Clone, Copy, PartialEq, Eq)]
pub enum Done {
    /// It was performed now.
    Performed,
    /// It had been performed before.
    Repeated,
}

/// The records between two fences, in key order, and which requests were performed on them.
#[derive(Debug, Drop)]
pub struct Leaf {
    pub(crate) id: u64,
    pub(crate) last: u64,
    pub(crate) low_fence: Option<Key>,
    pub(crate) high_fence: Option<Key>,
    pub(crate) rows: RowBuffer,
    pub(crate) ab: AbLsn,
}

impl Model for Leaf {
    ghost use Rattle.dc_leaf.specs.Leaf.{LeafView};
    ghost use Rattle.std.specs.Coded.{codes};
    ghost use Rattle.record_key.specs.Table.{table_code};
    ghost use Rattle.record_key.specs.Rows.{AreInOrder, LieBetween, table_of};
    ghost use Rattle.record_key.specs.Entries.{StandBetween};

    ghost Value = { LeafView };

    ghost coded = { Prim.hlevel (codes, table_code) };

    ghost view = { λ l. record {
      id = l.id;
      last = l.last;
      low_fence = l.low_fence;
      high_fence = l.high_fence;
      rows = table_of l.rows.rows;
      ab = l.ab;
    } };

    ghost invariant = { λ l. AreInOrder l.rows.rows
        × (LieBetween l.low_fence l.high_fence l.rows.rows × StandBetween l.low_fence l.high_fence l.ab.entries) };
}

impl Leaf {
    /// The first leaf of a tree: number 1, no fences, no records, nothing performed. Takes no memory; the
    /// allocator serves what comes later.
    pub fn first(alloc: Global) -> Leaf
        ensures { result ≡ first }
    {
        Leaf {
            id: 1,
            last: 0,
            low_fence: None,
            high_fence: None,
            rows: RowBuffer::new(alloc),
            ab: AbLsn::new(alloc),
        }
    }

    /// The leaf of these parts: its number, the last system transaction that changed it, its fences, its records in key
    /// order, and what it has captured. Takes no memory.
    pub fn from_parts(
        id: u64,
        last: u64,
        fences: (Option<Key>, Option<Key>),
        rows: RowBuffer,
        ab: AbLsn,
    ) -> Leaf
        requires in_order { AreInOrder rows.rows }
        requires rows_between { LieBetween fences.0 fences.1 rows.rows }
        requires entries_between { StandBetween fences.0 fences.1 ab.entries }
        ensures { result ≡ record {
          id = id;
          last = last;
          low_fence = fences.0;
          high_fence = fences.1;
          rows = table_of rows.rows;
          ab = ab;
        } }
    {
        let (low_fence, high_fence) = fences;
        Leaf {
            id,
            last,
            low_fence,
            high_fence,
            rows,
            ab,
        }
    }

    /// The leaf's number.
    pub fn id(&self) -> u64
        ensures { result ≡ self.now.id }
    {
        self.id
    }

    /// The last system transaction that changed the leaf, 0 if none.
    pub fn last(&self) -> u64
        ensures { result ≡ self.now.last }
    {
        self.last
    }

    /// The least key that belongs to the leaf, none where there is no bound.
    pub fn low_fence(&self) -> Option<&Key>
        ensures { option_copied result ≡ self.now.low_fence }
    {
        self.low_fence.as_ref()
    }

    /// The key below which the leaf's keys lie, none where there is no bound.
    pub fn high_fence(&self) -> Option<&Key>
        ensures { option_copied result ≡ self.now.high_fence }
    {
        self.high_fence.as_ref()
    }

    /// The records, in key order.
    pub fn rows(&self) -> LentRows<'_>
        ensures { result ≡ map.entries self.now.rows }
    {
        self.rows.lent()
    }

    /// The number up to which every request counts as performed.
    pub fn low(&self) -> u64
        ensures { result ≡ self.now.ab.low }
    {
        self.ab.low()
    }

    /// The numbers above the low one that were performed, rising, with their answers.
    pub fn entries(&self) -> &Entries
        ensures { result.now ≡ self.now.ab.entries }
    {
        self.ab.entries()
    }

    /// Whether the request of this number counts as performed. Takes no memory.
    pub fn captures(&self, number: u64) -> bool
        ensures { result ≡ captures self.now.ab number }
    {
        self.ab.captures(number)
    }

    /// The value at the key. Takes no memory.
    pub fn get(&self, key: &Key) -> Option<ValueRef<'_>>
        ensures { result ≡ map.get self.now.rows key.now }
    {
        let rows = self.rows.lent();
        value_at(&rows, key, rows.place_of(key))
    }

    /// The records from `low` on, below `high` where there is one. Takes no memory.
    pub fn scan(&self, low: &Key, high: Option<&Key>) -> LentRows<'_>
        ensures { result
            ≡ rows_in (record { lo = low.now; hi = option_copied high.entry }) self.now.rows }
    {
        let rows = rows_from(&self.rows.lent(), low);
        match high {
            Some(high) => rows_below(&rows, high),
            None => rows,
        }
    }

    /// What holds of every leaf: its records and entries lie in its fences, and the entries' numbers rise from
    /// above the low one.
    pub fn kept(&self)
        ensures { IsLeaf self.now }
    {
        let _count = self.rows.len();
        let _entries = self.ab.entries();
    }
}
