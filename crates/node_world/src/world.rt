//! The world: a node, one event at a time.
ghost use Rattle.std.specs.Prelude.{◌≡◌, ◌<◌, ◌↔◌, true, false, [], IsTrue, length, get_or, MatchOption, Some, None, OnOk, OnErr, IfOk, IfErr, if◌then◌else◌};
ghost use Rattle.std.specs.FinMap.{entries};
ghost use Rattle.history.specs.Log.{record_at};
ghost use Rattle.history.specs.ListMachine.{fresh};
ghost use Rattle.framed_log.specs.Beginning.{beginning};
ghost use Rattle.tc_log.specs.Spelled.{spelled};
ghost use Rattle.dc_leaf.specs.Leaf.{first};
ghost use Rattle.dc_tree.specs.Leaves.{rows_of};
ghost use Rattle.node_sides.specs.dc_core.specs.DcView.{leaves};
ghost use Rattle.node_sides.specs.tc_core.specs.Causes.{begin_refusal};
ghost use Rattle.node_sides.specs.tc_core.specs.LowWater.{IsGreatestAnnounced};
ghost use Rattle.node_sides.specs.node_laws.specs.Component.{LeavesBytes};
ghost use Rattle.node_sides.specs.node_laws.specs.Halves.{node_of};
ghost use Rattle.node_sides.specs.node_laws.specs.Failing.{AreToCome};
ghost use Rattle.node_sides.specs.node_laws.specs.Forgetting.{without_messages};
ghost use Rattle.node_sides.specs.node_laws.specs.Node.{fresh_node, joined, if_up};
ghost use Rattle.node_sides.specs.node_laws.specs.Simulation.{NodeStandsFor};
ghost use Rattle.node_sides.specs.node_laws.specs.Sound.{SaysNoBadBytes};
ghost use Rattle.node_sides.specs.node_laws.specs.Standing.{IsNode, StandsForSome};
ghost use Rattle.node_sides.specs.node_laws.specs.Stepping.{IsStep};
ghost use Rattle.simulation.specs.Reading.{machine_read};
ghost use Rattle.node_sides.specs.node_laws.specs.Kept.{IsKept, IsRebuildable, IsFreshDc};
ghost use Rattle.node_sides.specs.node_laws.specs.Promises.{Promises};
ghost use Rattle.node_sides.specs.node_laws.specs.Rounds.{IsNextRound, IsAtRest, AreApart, round_for, recovery_round};

use crate::node::Node;
use dc_leaf::Leaf;
use history::Record;
use node_sides::dc_core::Dc;
use node_sides::node_laws::{Event, Out, Round, forgetting_law};
use node_sides::tc_core::{OpenTxn, Phase, Tc};
use node_sides::{DcSide, TcSide};
use record_key::{Key, Refusal, Value};
use stable::{CrashLog, CrashPages, MemLog, MemPages};
use std::alloc::Global;
use std::marker::Model;

/// A node with what holds of it at every moment.
#[derive(Drop)]
pub struct World<D: CrashLog = MemLog, P: CrashPages = MemPages> {
    node: Node<D, P>,
}

impl<D: CrashLog, P: CrashPages> Model for World<D, P> {
    ghost use Rattle.std.specs.Coded.{codes};
    ghost use Rattle.record_key.specs.Table.{table_code};
    ghost use Rattle.node_sides.specs.dc_store.specs.SystemView.{pages_code};
    ghost use Rattle.node_sides.specs.node_laws.specs.Node.{NodeView};
    ghost use Rattle.node_sides.specs.node_laws.specs.Standing.{IsNode};
    ghost use Rattle.node_world.specs.Seen.{seen};

    ghost Value = { NodeView };

    ghost coded = { Prim.hlevel (codes, table_code, pages_code) };

    ghost view = { λ w. seen w.node };

    ghost invariant = { λ w. IsNode (seen w.node) };
}

impl World<MemLog, MemPages> {
    /// A new node: nothing is logged, stored or sent, and no session runs. Refused NoMemory.
    pub fn new(alloc: Global) -> Result<World, Refusal>
        ensures node { IfOk result (λ world. world ≡ fresh_node) }
        ensures stands { IfOk result (λ world. NodeStandsFor world fresh) }
        ensures memory { IfErr result (λ refusal. refusal ≡ Refusal.NoMemory) }
    {
        Ok(World {
            node: Node::new(alloc)?,
        })
    }
}

impl<D: CrashLog, P: CrashPages> World<D, P> {
    /// A node of a component that was opened on a log, whoever wrote that, and of a data component of no records: redo
    /// brings it all that stands in the log. It stands for the machine that the log tells of: whoever has committed
    /// there has committed, and whoever was open loses.
    pub fn over(alloc: Global, tc: Tc<D>, dc: Dc<D, P>) -> World<D, P>
        requires log { IsRebuildable tc }
        requires empty { IsFreshDc dc }
        ensures node { result ≡ joined tc dc }
        ensures stands { NodeStandsFor result (machine_read tc.log) }
    {
        tc.kept();
        dc.kept();
        World {
            node: Node::of(alloc, TcSide::of(alloc, tc), DcSide::of(alloc, dc)),
        }
    }

    /// A node of the two components of one that was parted. No message is on its way.
    pub fn of(alloc: Global, tc: TcSide<D>, dc: DcSide<D, P>) -> World<D, P>
        requires kept { IsNode (node_of tc dc [] []) }
        ensures { result ≡ node_of tc dc [] [] }
    {
        World {
            node: Node::of(alloc, tc, dc),
        }
    }

    /// The two components apart; every message between them is let go. What holds of the node is handed on with them.
    pub fn parted(self) -> (TcSide<D>, DcSide<D, P>)
        ensures node { without_messages self ≡ node_of result.0 result.1 [] [] }
        ensures kept { IsNode (node_of result.0 result.1 [] []) }
    {
        forgetting_law();
        let World { node } = self;
        let Node {
            tc,
            dc,
            requests: _,
            replies: _,
        } = node;
        (tc, dc)
    }

    /// One event. What it came to and what it left are what the components' contracts say. Whatever list machine the
    /// node stood for, it leads from there to one that the node stands for then. What holds of a node at every moment
    /// holds after it too. No event is refused for bytes: a component that is restarted reads what its devices hold.
    pub fn step(&mut self, event: &Event) -> Out
        ensures step { IsStep self.old event.now result self.new }
        ensures readable { SaysNoBadBytes result }
    {
        let mut out = Out::Nothing;
        self.step_into(event, &mut out);
        out
    }

    /// The same, with what it came to written in its place, whatever stood there: so a caller that keeps one output for
    /// many events is spared a copy of 150 bytes for each.
    pub fn step_into(&mut self, event: &Event, out: &mut Out)
        ensures { IsStep self.old event.now out.new self.new }
    {
        self.node.step(event, out);
    }

    /// Lets go of every message, as if the network had lost them: none can be delivered any more, and the next one of
    /// each kind is number 1. Nothing else changes. Takes no memory, and keeps the room that the messages had.
    pub fn forget(&mut self)
        ensures { self.new ≡ without_messages self.old }
    {
        forgetting_law();
        self.node.requests.forget();
        self.node.replies.forget();
    }

    /// What holds at every moment, and what the node promises by that: every leaf is honest, also after any crash, a
    /// cached one once what a crash has lost is taken back; no operation is compensated twice, no compensation is
    /// refused, whose Commit record is stable has committed; and where the node is settled, its records are those of a
    /// plain map, by its own log and for each list machine that it stands for.
    pub fn kept(&self)
        ensures kept { IsKept self.now }
        ensures promised { Promises self.now }
    {
        let _ = &self.node;
    }

    /// A failure that was set is still to come: so no call of a device that was due to fail has succeeded.
    pub fn to_come(&self)
        ensures { AreToCome self.now }
    {
        self.node.tc.to_come();
        self.node.dc.to_come();
    }

    /// There is a list machine that the node stands for: what `kept` promises of each holds of one.
    pub fn stood(&self)
        ensures { StandsForSome self.now }
    {
        let _ = &self.node;
    }

    /// The transaction component, where it runs. Refused NotConnected.
    pub(crate) fn running_tc(&self) -> Result<&Tc<D>, Refusal>
        ensures up { OnOk result (self.now.tc_up ≡ true) }
        ensures tc { IfOk result (λ tc. tc.now ≡ self.now.tc) }
        ensures refused { IfErr result (λ refusal. refusal ≡ Refusal.NotConnected) }
        ensures down { OnErr result (self.now.tc_up ≡ false) }
    {
        self.node.tc.running()
    }

    /// The data component, where it runs. Refused NotConnected.
    fn running_dc(&self) -> Result<&Dc<D, P>, Refusal>
        ensures up { OnOk result (self.now.dc_up ≡ true) }
        ensures dc { IfOk result (λ dc. dc.now ≡ self.now.dc) }
        ensures refused { IfErr result (λ refusal. refusal ≡ Refusal.NotConnected) }
        ensures down { OnErr result (self.now.dc_up ≡ false) }
    {
        self.node.dc.running()
    }

    /// Copies of the records of the data component, in key order. Refused NotConnected where it is down, NoMemory.
    pub fn rows(&self) -> Result<Vec<(Key, Value)>, Refusal>
        ensures rows { IfOk result (λ rows. rows.items ≡ entries (rows_of (leaves self.now.dc))) }
        ensures up { OnOk result (self.now.dc_up ≡ true) }
        ensures refused { IfErr result (λ refusal.
            refusal ≡ (if self.now.dc_up then Refusal.NoMemory else Refusal.NotConnected)) }
    {
        self.node.dc.rows()
    }

    /// How many leaves the data component has. Refused NotConnected where it is down.
    pub fn leaves(&self) -> Result<usize, Refusal>
        ensures count { IfOk result (λ count. count ≡ length (leaves self.now.dc)) }
        ensures up { OnOk result (self.now.dc_up ≡ true) }
        ensures refused { IfErr result (λ refusal. refusal ≡ Refusal.NotConnected) }
        ensures down { OnErr result (self.now.dc_up ≡ false) }
    {
        Ok(self.running_dc()?.leaves())
    }

    /// The leaf at a place in key order, from 0, of a data component that runs.
    pub fn leaf(&self, place: usize) -> &Leaf
        requires up { self.now.dc_up ≡ true }
        requires within { place < length (leaves self.now.dc) }
        ensures { result.now ≡ get_or (leaves self.now.dc) place first }
    {
        match self.running_dc() {
            Ok(dc) => dc.leaf(place),
            Err(_) => unreachable!(),
        }
    }

    /// Whether a transaction may begin, memory and the device aside.
    pub fn can_begin(&self) -> Result<(), Refusal>
        ensures up { OnOk result (self.now.tc_up ≡ true) }
        ensures allowed { OnOk result (begin_refusal self.now.tc ≡ None) }
        ensures refused { IfErr result (λ refusal.
            if_up self.now.tc_up (begin_refusal self.now.tc) ≡ Some refusal) }
    {
        self.running_tc()?.can_begin()
    }

    /// How many requests were sent since the last were let go.
    pub fn requests(&self) -> u64
        ensures { result ≡ length self.now.requests }
    {
        self.node.requests.len()
    }

    /// How many replies were given since then.
    pub fn replies(&self) -> u64
        ensures { result ≡ length self.now.replies }
    {
        self.node.replies.len()
    }

    /// How many records the log has. Refused NotConnected where the transaction component is down; so are the next two.
    pub fn records(&self) -> Result<u64, Refusal>
        ensures count { IfOk result (λ count. count ≡ length self.now.tc.log) }
        ensures up { OnOk result (self.now.tc_up ≡ true) }
        ensures refused { IfErr result (λ refusal. refusal ≡ Refusal.NotConnected) }
        ensures down { OnErr result (self.now.tc_up ≡ false) }
    {
        self.node.tc.records()
    }

    /// The record of this number. Takes no memory.
    pub fn record(&self, number: u64) -> Result<Option<Record>, Refusal>
        ensures record { IfOk result (λ found. found ≡ record_at self.now.tc.log number) }
        ensures up { OnOk result (self.now.tc_up ≡ true) }
        ensures refused { IfErr result (λ refusal. refusal ≡ Refusal.NotConnected) }
        ensures down { OnErr result (self.now.tc_up ≡ false) }
    {
        Ok(self.running_tc()?.record(number))
    }

    /// The number up to which records are stable.
    pub fn stable_end(&self) -> Result<u64, Refusal>
        ensures end { IfOk result (λ end. end ≡ self.now.tc.stable) }
        ensures up { OnOk result (self.now.tc_up ≡ true) }
        ensures refused { IfErr result (λ refusal. refusal ≡ Refusal.NotConnected) }
        ensures down { OnErr result (self.now.tc_up ≡ false) }
    {
        self.node.tc.stable_end()
    }

    /// The greatest number that a LowWater may announce, 0 where clients aren't served. Refused NotConnected.
    pub fn greatest_low(&self) -> Result<u64, Refusal>
        ensures low { IfOk result (IsGreatestAnnounced self.now.tc) }
        ensures up { OnOk result (self.now.tc_up ≡ true) }
        ensures refused { IfErr result (λ refusal. refusal ≡ Refusal.NotConnected) }
        ensures down { OnErr result (self.now.tc_up ≡ false) }
    {
        self.node.tc.greatest_low()
    }

    /// By how many whole records and how many bytes of the next one a crash keeps so many bytes of what isn't stable of the
    /// log, or all of it where it has fewer. Refused NotConnected.
    pub fn cut_after(&self, kept: u64) -> Result<(u64, u64), Refusal>
        ensures leaves { IfOk result (λ cut. LeavesBytes self.now.tc kept cut.0 cut.1) }
        ensures up { OnOk result (self.now.tc_up ≡ true) }
        ensures refused { IfErr result (λ refusal. refusal ≡ Refusal.NotConnected) }
        ensures down { OnErr result (self.now.tc_up ≡ false) }
    {
        self.node.tc.cut_after(kept)
    }

    /// The bytes of the stable records, as docs/FORMATS.md spells them: what whoever keeps the log outside has to keep.
    /// They only grow, but for a crash. Lent, without a device call. Refused NotConnected where the transaction component
    /// is down.
    pub fn stable_bytes(&self) -> Result<&[u8], Refusal>
        ensures bytes { IfOk result (λ bytes. bytes.now ≡ spelled (beginning self.now.tc.log self.now.tc.stable)) }
        ensures up { OnOk result (self.now.tc_up ≡ true) }
        ensures refused { IfErr result (λ refusal. refusal ≡ Refusal.NotConnected) }
        ensures down { OnErr result (self.now.tc_up ≡ false) }
    {
        self.node.tc.stable_bytes()
    }

    /// The first round of settling that applies, if any is left: restart the data component, then the other; connect
    /// where they have no session in common; recover until nobody is left whom a crash found open; for the least
    /// transaction with an unanswered request, force the log where its record isn't stable, else exchange it; undo
    /// for the least one that is being rolled back; force where records aren't stable.
    pub fn next_round(&self) -> Option<Round>
        ensures { MatchOption result (IsAtRest self.now) (IsNextRound self.now) }
    {
        self.kept();
        let Ok(dc) = self.running_dc() else {
            return Some(Round::RestartDc);
        };
        let Ok(tc) = self.running_tc() else {
            return Some(Round::RestartTc);
        };
        if is_apart(tc, dc) {
            return Some(Round::Connect);
        }
        let stable = tc.stable_end();
        match tc.phase() {
            Phase::Running => {}
            phase => return Some(recovery_round(phase, stable)),
        }
        if let Some(open) = tc.first_unanswered() {
            return Some(answer_round(open, stable));
        }
        if let Some(open) = tc.first_rolling() {
            return Some(Round::Undo { txn: open.txn });
        }
        if stable < tc.records() {
            return Some(Round::Force);
        }
        None
    }
}

/// The transaction component has no session that the data component runs.
fn is_apart<D: CrashLog, P: CrashPages>(tc: &Tc<D>, dc: &Dc<D, P>) -> bool
    ensures { IsTrue result ↔ AreApart tc.now dc.now }
{
    matches!(tc.phase(), Phase::Unconnected | Phase::Connecting) || dc.session() != tc.session()
}

/// The round of a recovery that goes on: a record of undo where it awaits none, a force where it awaits a compensation
/// that isn't stable, else an exchange.
fn recovery_round(phase: Phase, stable: u64) -> Round
    ensures { result ≡ recovery_round stable phase }
{
    match phase {
        Phase::Undoing { waiting: None } => Round::Lose,
        Phase::Undoing {
            waiting: Some(number),
        } if stable < number => Round::Force,
        _ => Round::Recover,
    }
}

/// The round of a transaction that waits: a force where it waits for a record that isn't stable, else an exchange.
fn answer_round(asker: &OpenTxn, stable: u64) -> Round
    ensures { result ≡ round_for asker.now.txn stable asker.now.waiting }
{
    match asker.waiting {
        Some(number) if stable < number => Round::Force,
        _ => Round::Exchange { txn: asker.txn },
    }
}
