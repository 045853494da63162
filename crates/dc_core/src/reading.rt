//! What reads find, and what is seen of the leaves and their log.
ghost use Rattle.std.specs.Prelude.{◌≡◌, ◌<◌, ◌≤◌, Some, None, length, get_or, IfOk, IfErr, OnOk};
ghost use Rattle.std.specs.FinMap as map;
ghost use Rattle.std.specs.Option.{option_copied};
ghost use Rattle.record_key.specs.Order.{rows_in};
ghost use Rattle.framed_log.specs.Beginning.{beginning};
ghost use Rattle.dc_leaf.specs.Leaf.{first};
ghost use Rattle.dc_tree.specs.Leaves.{leaf_at, all_rows, rows_of};
ghost use Rattle.dc_store.specs.Devices.{spelled};
ghost use Rattle.dc_core.specs.DcView.{leaves, value_at};
ghost use Rattle.dc_core.specs.Serves.{range, after_redo_refusal};

use crate::dc::Dc;
use codec::{LentRows, Reply, Rows};
use dc_leaf::{Leaf, RowSink, add_rows};
use record_key::{Key, Refusal, Value, ValueRef};
use stable::{LogDevice, PageDevice};

impl<D: LogDevice, P: PageDevice> Dc<D, P> {
    pub(crate) fn read(&self, session: u64, read: u64, key: &Key) -> Reply
        ensures { result ≡ Reply.Row session read (map.get (leaf_at self.now.system.leaves key.now).rows key.now) }
    {
        let value = match self.system.get(key) {
            Some(value) => Some(value.owned()),
            None => None,
        };
        Reply::Row {
            session,
            read,
            value,
        }
    }

    /// What a read of this key by this session finds, apart from the reply. Refused as `allows` says of a Get.
    pub fn get(&self, session: u64, key: &Key) -> Result<Option<ValueRef<'_>>, Refusal>
        ensures found { IfOk result (λ value. value ≡ value_at self.now key.now) }
        ensures allowed { OnOk result (after_redo_refusal self.now session ≡ None) }
        ensures refused { IfErr result (λ refusal. after_redo_refusal self.now session ≡ Some refusal) }
    {
        self.after_redo(session)?;
        Ok(self.system.get(key))
    }

    pub(crate) fn scan(
        &self,
        session: u64,
        read: u64,
        low: &Key,
        high: Option<&Key>,
    ) -> Result<Reply, Refusal>
        ensures found { IfOk result (λ reply. reply
            ≡ Reply.Rows session read
            (rows_in (range low.now (option_copied high.entry)) (rows_of self.now.system.leaves))) }
        ensures refused { IfErr result (λ refusal. refusal ≡ Refusal.NoMemory) }
    {
        let mut found = ReplyRows {
            rows: Rows::new(self.system.allocator()),
        };
        self.system.scan(low, high, &mut found)?;
        let ReplyRows { rows } = found;
        Ok(Reply::Rows {
            session,
            read,
            rows,
        })
    }

    /// Copies of the records, in key order. Refused NoMemory.
    pub fn rows(&self) -> Result<Vec<(Key, Value)>, Refusal>
        ensures rows { IfOk result (λ rows. rows.items ≡ all_rows (leaves self.now)) }
        ensures memory { IfErr result (λ refusal. refusal ≡ Refusal.NoMemory) }
    {
        let mut rows = Vec::new(self.system.allocator());
        for place in 0..self.system.len() {
            add_rows(&mut rows, &self.system.leaf(place).rows())?;
        }
        Ok(rows)
    }

    /// How many records the log of the leaves has.
    pub fn records(&self) -> u64
        ensures { result ≡ length self.now.system.log }
    {
        self.system.records()
    }

    /// The number up to which they are stable.
    pub fn stable_end(&self) -> u64
        ensures { result ≡ self.now.system.stable }
    {
        self.system.stable_end()
    }

    /// How many bytes of the log the first records have, so many.
    pub fn end_of(&self, count: u64) -> usize
        requires { count ≤ length self.now.system.log }
        ensures { result ≡ length (spelled (beginning self.now.system.log count)) }
    {
        self.system.end_of(count)
    }

    /// How many leaves there are.
    pub fn leaves(&self) -> usize
        ensures { result ≡ length (leaves self.now) }
    {
        self.system.len()
    }

    /// The leaf at a place in key order, from 0.
    pub fn leaf(&self, place: usize) -> &Leaf
        requires { place < length (leaves self.now) }
        ensures { result.now ≡ get_or (leaves self.now) place first }
    {
        self.system.leaf(place)
    }
}

/// The rows of a reply, as a scan finds them.
#[derive(Drop)]
struct ReplyRows {
    rows: Rows,
}

impl RowSink for ReplyRows {
    ghost rows = { λ found. found.rows };

    fn add(&mut self, more: &LentRows<'_>) -> Result<(), Refusal> {
        self.rows.add(more)
    }
}
