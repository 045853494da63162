//! Leaves changed in their place, by the nodes above them.
ghost use Rattle.std.specs.Prelude.{◌≡◌, ◌<◌, ◌^◌, false, length, get_or, OnOk, OnErr, IsOkUnless};
ghost use Rattle.record_key.specs.Lent.{op_lent};
ghost use Rattle.record_key.specs.Table.{key_of};
ghost use Rattle.dc_leaf.specs.Leaf.{first};
ghost use Rattle.dc_leaf.specs.Parting.{lower_of};
ghost use Rattle.dc_tree.specs.Choosing.{summary_of};
ghost use Rattle.dc_tree.specs.Finding.{IsInside};
ghost use Rattle.dc_tree.specs.Nodes.{IsChangedAt, IsWhole, raised_node};
ghost use Rattle.dc_tree.specs.Performs.{IsAskedBelow};

use super::children::{node_at, node_of, renew_after, summary_in};
use super::node::{Below, Node};
use super::summary::Summary;
use dc_leaf::{AnswerSink, Done, Leaf};
use record_key::{Key, OpRef, Refusal};

impl Node {
    /// The leaf of the key performs the operation: the last one that begins at it or below, or the first leaf.
    pub fn perform<S: AnswerSink>(
        &mut self,
        number: u64,
        op: &OpRef<'_>,
        asker: u64,
        sink: &mut S,
    ) -> Result<Done, Refusal>
        requires whole { IsWhole self.old }
        requires inside { IsInside self.old.leaves (key_of (op_lent op.now)) }
        requires may { S.may_take sink.old asker number }
        ensures asked { IsAskedBelow self.old number (op_lent op.now) result (S.told sink.new) self.new }
        ensures given { OnOk result (S.takes sink.old asker number (S.told sink.new) sink.new) }
        ensures kept { OnErr result (sink.new ≡ sink.old) }
        ensures memory { IsOkUnless result Refusal.NoMemory }
    {
        let mut done = Err(Refusal::NoMemory);
        self.perform_into(number, op, asker, sink, &mut done);
        done
    }

    /// The same, with what came of it written where the caller has a place for it, and whether the node's summary is
    /// another now given back: if not, those above it stay.
    fn perform_into<S: AnswerSink>(
        &mut self,
        number: u64,
        op: &OpRef<'_>,
        asker: u64,
        sink: &mut S,
        done: &mut Result<Done, Refusal>,
    ) -> bool
        requires whole { IsWhole self.old }
        requires inside { IsInside self.old.leaves (key_of (op_lent op.now)) }
        requires may { S.may_take sink.old asker number }
        ensures asked { IsAskedBelow self.old number (op_lent op.now) done.new (S.told sink.new) self.new }
        ensures given { OnOk done.new (S.takes sink.old asker number (S.told sink.new) sink.new) }
        ensures kept { OnErr done.new (sink.new ≡ sink.old) }
        ensures memory { IsOkUnless done.new Refusal.NoMemory }
        ensures same { result ≡ false → summary_of self.new.leaves ≡ summary_of self.old.leaves }
    {
        match &mut self.below {
            Below::Leaf(leaf) => {
                *done = leaf.perform(number, op, asker, sink);
                self.summary.renew(Summary::of_leaf(leaf))
            }
            Below::Inner(children) => {
                let i = node_of(children.as_slice(), op.key());
                if !children[i].perform_into(number, op, asker, sink, done) {
                    return false;
                }
                renew_after(&mut self.summary, children.as_slice(), i)
            }
        }
    }

    /// Each leaf counts every request up to this number as performed.
    pub fn raise(&mut self, low: u64)
        ensures { self.new ≡ raised_node low self.old }
    {
        match &mut self.below {
            Below::Leaf(leaf) => {
                leaf.raise(low);
                self.summary = Summary::of_leaf(leaf);
            }
            Below::Inner(children) => {
                for i in 0..children.len() {
                    children[i].raise(low);
                }
                self.summary = summary_in(children.as_slice());
            }
        }
    }

    /// The leaf at a place gives up what stands at the key or above; system transaction `last` does it.
    pub fn drop_from(&mut self, place: usize, key: &Key, last: u64)
        requires { place < length self.old.leaves }
        ensures changed { IsChangedAt place self.old self.new }
        ensures lower { get_or self.new.leaves place first
            ≡ lower_of (get_or self.old.leaves place first) key.now last }
    {
        match &mut self.below {
            Below::Leaf(leaf) => {
                leaf.drop_from(key, last);
                self.summary = Summary::of_leaf(leaf);
            }
            Below::Inner(children) => {
                let (i, rest) = node_at(children.as_slice(), place);
                children[i].drop_from(rest, key, last);
                self.summary = summary_in(children.as_slice());
            }
        }
    }

    /// Puts a leaf in the place of one that begins where it does.
    pub fn put(&mut self, place: usize, leaf: Box<Leaf>)
        requires there { place < length self.old.leaves }
        requires begins { leaf.value.low_fence ≡ (get_or self.old.leaves place first).low_fence }
        ensures changed { IsChangedAt place self.old self.new }
        ensures put { get_or self.new.leaves place first ≡ leaf.value }
        ensures counted { length self.new.leaves < 2 ^ 64 }
    {
        match &mut self.below {
            Below::Leaf(old) => {
                self.summary = Summary::of_leaf(&leaf);
                *old = leaf;
            }
            Below::Inner(children) => {
                let (i, rest) = node_at(children.as_slice(), place);
                children[i].put(rest, leaf);
                self.summary = summary_in(children.as_slice());
            }
        }
    }
}
