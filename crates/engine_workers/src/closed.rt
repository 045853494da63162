//! What an engine leaves.
ghost use Rattle.std.specs.Prelude.{◌≡◌, length, slice_get, IfOk, IfErr, IfSome, IfNone, Some, None};
ghost use Rattle.node_world.specs.node_laws.specs.Node.{NodeView};
ghost use Rattle.node_world.specs.node_laws.specs.Promises.{Promises};
ghost use Rattle.engine_sessions.specs.engine_history.specs.Ending.{EndsWith, LeavesNode};
ghost use Rattle.engine_sessions.specs.engine_history.specs.Steps.{RunsFrom, RunsTo};
ghost use Rattle.engine_workers.specs.Closing.{IsLeftBy};

use engine_sessions::engine_history::{EventHistory, Naming, Published, Step};
use node_world::World;
use record_key::{Key, Refusal, Value};
use stable::{CrashLog, CrashPages, MemLog, MemPages};
use std::alloc::Global;
use std::marker::Model;

/// The history with its entries, where the data component ran at the end its records, and the node.
#[derive(Drop)]
struct Left<J: Naming, D: CrashLog, P: CrashPages> {
    published: Published<J>,
    history: EventHistory<J>,
    rows: Option<Vec<(Key, Value)>>,
    node: Box<World<D, P>>,
}

/// What an engine leaves, behind a pointer as what it is made of. Contracts see the steps, the records and the node.
#[derive(Drop)]
pub struct Closed<J: Naming, D: CrashLog = MemLog, P: CrashPages = MemPages> {
    left: Box<Left<J, D, P>>,
}

impl<J: Naming, D: CrashLog, P: CrashPages> Model for Closed<J, D, P> {
    ghost use Rattle.std.specs.Coded.{codes};
    ghost use Rattle.record_key.specs.Table.{table_code};
    ghost use Rattle.node_world.specs.dc_store.specs.SystemView.{pages_code};
    ghost use Rattle.engine_workers.specs.Closing.{ClosedView, IsLeftBy};

    ghost Value = { ClosedView };

    ghost coded = { Prim.hlevel (codes, table_code, pages_code) };

    ghost view = { λ c. record {
      steps = c.left.value.history;
      rows = c.left.value.rows;
      node = c.left.value.node.value;
    } };

    ghost invariant = { λ c. IsLeftBy J.start c.left.value.history c.left.value.rows c.left.value.node.value };
}

impl<J: Naming, D: CrashLog + Drop, P: CrashPages + Drop> Closed<J, D, P> {
    /// What the history ends with. Refused NoMemory.
    pub(crate) fn new(
        alloc: Global,
        published: Published<J>,
        history: EventHistory<J>,
        rows: Option<Vec<(Key, Value)>>,
        node: Box<World<D, P>>,
    ) -> Result<Closed<J, D, P>, Refusal>
        requires left { IsLeftBy J.start history rows node.value }
        ensures closed { IfOk result (λ closed. closed ≡ record { steps = history; rows = rows; node = node.value }) }
        ensures refused { IfErr result (λ refusal. refusal ≡ Refusal.NoMemory) }
    {
        let left = Left {
            published,
            history,
            rows,
            node,
        };
        Ok(Closed {
            left: Box::new(alloc, left)?,
        })
    }

    /// The steps are a run of the node, from its start on, which ends with these records and leaves this node, once its
    /// messages are let go; and what a node promises at every moment holds at its end. So where it is settled, the records
    /// are those of a plain map after the operations that stand.
    pub fn kept(&self)
        ensures run { RunsFrom J.start self.now.steps }
        ensures rows { EndsWith J.start self.now.steps self.now.rows }
        ensures left { LeavesNode J.start self.now.steps self.now.node }
        ensures promised { (w : NodeView) → RunsTo J.start self.now.steps w → Promises w }
    {
        self.left.history.is_run();
    }

    /// How many steps there are.
    pub fn len(&self) -> usize
        ensures { result ≡ length self.now.steps }
    {
        self.left.history.count()
    }

    /// The step at a place, from 0.
    pub fn step(&self, place: usize) -> Option<&Step>
        ensures step { IfSome result (λ step. slice_get self.now.steps place ≡ Some step.now) }
        ensures none { IfNone result (slice_get self.now.steps place ≡ None) }
    {
        let token = self.left.history.token(place)?;
        Some(&self.left.published.entries().value(&token).step)
    }

    /// The records in key order, where the data component ran.
    pub fn rows(&self) -> Option<&[(Key, Value)]>
        ensures rows { IfSome result (λ rows. IfSome self.now.rows (λ all. rows.now ≡ all.items)) }
        ensures none { IfNone result (self.now.rows ≡ None) }
    {
        Some(self.left.rows.as_ref()?.as_slice())
    }

    /// The node, between whose components no message is on its way: it goes on alone, or as another engine's, or is
    /// renewed. The history is let go.
    pub fn into_node(self) -> Box<World<D, P>>
        ensures { result.value ≡ self.node }
    {
        let Left {
            published: _,
            history: _,
            rows: _,
            node,
        } = Box::into_inner(self.left);
        node
    }
}
