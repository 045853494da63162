//! The leaves of a data component with the devices that outlive them.
ghost use Rattle.std.specs.Prelude.{◌≡◌, ◌++◌, ◌<◌, ◌≤◌, ◌^◌, [], true, length, get_or, Some, None, IsOk, IfOk, IfErr, OnOk, OnErr, IsOkUnless};
ghost use Rattle.std.specs.FinMap as map;
ghost use Rattle.std.specs.Option.{option_copied};
ghost use Rattle.record_key.specs.Lent.{op_lent};
ghost use Rattle.record_key.specs.Table.{key_of};
ghost use Rattle.dc_ab_lsn.specs.AbLsn.{captures};
ghost use Rattle.dc_leaf.specs.Leaf.{first};
ghost use Rattle.stable.specs.Crash.{BeginsWith};
ghost use Rattle.stable.specs.Usage.{IsToCome};
ghost use Rattle.record_key.specs.Order.{rows_in};
ghost use Rattle.dc_tree.specs.Leaves.{leaf_at, place_at, rows_of};
ghost use Rattle.dc_tree.specs.Performs.{PerformsAt};
ghost use Rattle.framed_log.specs.Beginning.{beginning};
ghost use Rattle.dc_store.specs.SystemView.{fresh_system, failing_at};
ghost use Rattle.dc_store.specs.Devices.{spelled};
ghost use Rattle.dc_store.specs.Changes.{lowered};
ghost use Rattle.dc_store.specs.Gives.{append_refusal};
ghost use Rattle.dc_store.specs.Kept.{IsSystem};

use crate::change_log::{ChangeLog, LAST_NUMBER};
use crate::devices::{Device, Devices, Refused};
use dc_leaf::{AnswerSink, Done, Leaf, RowSink};
use dc_tree::{LeafSet, one_leaf};
use record_key::{Key, OpRef, Refusal, ValueRef};
use stable::{CrashLog, CrashPages, LogDevice, PageDevice};
use std::alloc::Global;
use std::marker::Model;

/// Leaves, the log of what was done to them, and their pages.
#[derive(Drop)]
pub struct SystemTxns<L: LeafSet, D: LogDevice, P: PageDevice> {
    pub(crate) leaves: L,
    pub(crate) log: ChangeLog<D>,
    pub(crate) pages: P,
    // Where a leaf's image is spelled before it is written.
    pub(crate) image: Vec<u8>,
}

impl<L: LeafSet, D: LogDevice, P: PageDevice> Model for SystemTxns<L, D, P> {
    ghost use Rattle.std.specs.Coded.{codes};
    ghost use Rattle.record_key.specs.Table.{table_code};
    ghost use Rattle.dc_store.specs.SystemView.{SystemView, pages_code};
    ghost use Rattle.dc_store.specs.Kept.{IsSystem};
    ghost use Rattle.dc_store.specs.Seen.{seen};

    ghost Value = { SystemView };

    ghost coded = { Prim.hlevel (codes, table_code, pages_code) };

    ghost view = { λ s. seen (L.leaves s.leaves) s.log (P.pages s.pages) (P.usage s.pages) };

    ghost invariant = { λ s. IsSystem (seen (L.leaves s.leaves) s.log (P.pages s.pages) (P.usage s.pages)) };
}

impl<L: LeafSet, D: LogDevice, P: PageDevice> SystemTxns<L, D, P> {
    /// One leaf for all keys, on devices that hold nothing. Refused NoMemory, with the devices.
    pub fn new(alloc: Global, log: D, pages: P) -> Result<SystemTxns<L, D, P>, Refused<D, P>>
        requires no_log { (D.forced log ≡ []) × (D.pending log ≡ []) }
        requires no_pages { P.pages pages ≡ map.empty }
        ensures fresh { IfOk result (λ system. system ≡ fresh_system (D.usage log) (P.usage pages)) }
        ensures refused { IfErr result (λ left. left.refusal ≡ Refusal.NoMemory) }
        ensures same_log { IfErr result (λ left. left.devices.log ≡ log) }
        ensures same_pages { IfErr result (λ left. left.devices.pages ≡ pages) }
    {
        let leaves = match one_leaf(alloc) {
            Ok(leaves) => leaves,
            Err(refusal) => {
                let devices = Devices { log, pages };
                return Err(Refused { refusal, devices });
            }
        };
        Ok(SystemTxns {
            leaves,
            log: ChangeLog::new(alloc, log),
            pages,
            image: Vec::new(alloc),
        })
    }

    /// The devices, as a crash finds them: all records stand on the log's, and the stable ones are forced; no others
    /// are, where it forces all or nothing.
    pub fn stop(self) -> Devices<D, P>
    where
        L: Drop,
        ensures holds { D.forced result.log ++ D.pending result.log ≡ spelled self.log }
        ensures forced { BeginsWith (D.forced result.log) (spelled (beginning self.log self.stable)) }
        ensures just { D.forces_whole ≡ true → D.forced result.log ≡ spelled (beginning self.log self.stable) }
        ensures pages { P.pages result.pages ≡ self.pages }
        ensures log_usage { D.usage result.log ≡ self.log_usage }
        ensures page_usage { P.usage result.pages ≡ self.page_usage }
    {
        let SystemTxns {
            leaves: _,
            log,
            pages,
            image: _,
        } = self;
        Devices {
            log: log.stop(),
            pages,
        }
    }

    /// Whether the log has a number for one record more. Refused NumbersSpent.
    pub fn can_log(&self) -> Result<(), Refusal>
        ensures allowed { OnOk result (append_refusal self.now ≡ None) }
        ensures refused { IfErr result (λ refusal. append_refusal self.now ≡ Some refusal) }
    {
        if self.log.len() >= LAST_NUMBER {
            return Err(Refusal::NumbersSpent);
        }
        Ok(())
    }

    /// Performs the operation under this number at the leaf of its key, or gives the answer that it had under it before,
    /// if that is still kept: it goes into the sink, for this asker. Refused NoMemory, and unchanged then; a repeated
    /// number takes no memory.
    pub fn perform<S: AnswerSink>(
        &mut self,
        number: u64,
        op: &OpRef<'_>,
        asker: u64,
        sink: &mut S,
    ) -> Result<Done, Refusal>
        requires number { number < 2 ^ 48 }
        requires may { S.may_take sink.old asker number }
        ensures done { IfOk result (λ done.
            PerformsAt self.old.leaves number (op_lent op.now) done (S.told sink.new) self.new.leaves) }
        ensures given { OnOk result (S.takes sink.old asker number (S.told sink.new) sink.new) }
        ensures rest { self.new ≡ record self.old { leaves = self.new.leaves } }
        ensures repeated { captures (leaf_at self.old.leaves (key_of (op_lent op.now))).ab number ≡ true → IsOk result }
        ensures refused { OnErr result (self.new ≡ self.old) }
        ensures untold { OnErr result (sink.new ≡ sink.old) }
        ensures memory { IsOkUnless result Refusal.NoMemory }
    {
        let done = self.leaves.perform(number, op, asker, sink)?;
        Ok(done)
    }

    /// Counts every request up to this number as performed at each leaf. Takes no memory.
    pub fn lower(&mut self, low: u64)
        requires { low < 2 ^ 48 }
        ensures { self.new ≡ lowered self.old low }
    {
        self.leaves.raise(low);
    }

    /// The value at the key. Takes no memory.
    pub fn get(&self, key: &Key) -> Option<ValueRef<'_>>
        ensures { result ≡ map.get (leaf_at self.now.leaves key.now).rows key.now }
    {
        self.leaves.get(key)
    }

    /// Puts copies of the records from `low` on, below `high` where there is one, at the end of `found`. Refused NoMemory;
    /// some of them may stand there then.
    pub fn scan<S: RowSink>(
        &self,
        low: &Key,
        high: Option<&Key>,
        found: &mut S,
    ) -> Result<(), Refusal>
        ensures found { OnOk result (S.rows found.new ≡ S.rows found.old
            ++ rows_in (record { lo = low.now; hi = option_copied high.entry })
            (rows_of self.now.leaves)) }
        ensures memory { IsOkUnless result Refusal.NoMemory }
    {
        self.leaves.scan(low, high, found)
    }

    /// How many records the log has.
    pub fn records(&self) -> u64
        ensures { result ≡ length self.now.log }
    {
        self.log.len()
    }

    /// The number up to which records are stable.
    pub fn stable_end(&self) -> u64
        ensures { result ≡ self.now.stable }
    {
        self.log.stable_end()
    }

    /// How many bytes of the log the first records have, so many.
    pub fn end_of(&self, count: u64) -> usize
        requires { count ≤ length self.now.log }
        ensures { result ≡ length (spelled (beginning self.now.log count)) }
    {
        self.log.end_of(count)
    }

    /// How many leaves there are.
    pub fn len(&self) -> usize
        ensures count { result ≡ length self.now.leaves }
        ensures some { 0 < result }
    {
        self.leaves.len()
    }

    /// The leaf at a place, from 0, in key order.
    pub fn leaf(&self, place: usize) -> &Leaf
        requires { place < length self.now.leaves }
        ensures { result.now ≡ get_or self.now.leaves place first }
    {
        self.leaves.leaf(place)
    }

    /// The place of the leaf that has the key.
    pub fn place_of(&self, key: &Key) -> usize
        ensures place { result ≡ place_at self.now.leaves key.now }
        ensures within { result < length self.now.leaves }
    {
        self.leaves.place_of(key)
    }

    /// What serves the leaves' memory.
    pub fn allocator(&self) -> Global {
        self.leaves.allocator()
    }

    /// What holds at every moment, whatever the devices held when they were opened: the leaves have all keys among
    /// them, each record of the log has a spelling, and each page is an image.
    pub fn kept(&self)
        ensures { IsSystem self.now }
    {
        let _ = &self.leaves;
    }

    /// What holds at every moment: a failure of a device that was set is still to come.
    pub fn to_come(&self)
        ensures log { IsToCome self.now.log_usage }
        ensures pages { IsToCome self.now.page_usage }
    {
        self.log.to_come();
        self.pages.kept();
    }
}

impl<L: LeafSet, D: CrashLog, P: CrashPages> SystemTxns<L, D, P> {
    /// The `n`-th call of the device from now fails, once. It takes the place of a failure of that device that was set
    /// and hasn't happened.
    pub fn fail_at(&mut self, device: Device, n: u64)
        requires { 1 ≤ n }
        ensures { self.new ≡ failing_at device n self.old }
    {
        match device {
            Device::Log => self.log.fail_at(n),
            Device::Pages => self.pages.fail_at(n),
        }
    }
}
