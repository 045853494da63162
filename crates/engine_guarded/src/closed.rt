//! What a node under a lock leaves.
ghost use Rattle.std.specs.Prelude.{◌≡◌, false};
ghost use Rattle.std.specs.List.{AllByRecursion};
ghost use Rattle.engine_history.specs.Commands.{commands};
ghost use Rattle.engine_history.specs.node_laws.specs.Forgetting.{without_messages};
ghost use Rattle.engine_history.specs.node_laws.specs.Promises.{Promises};
ghost use Rattle.engine_history.specs.node_laws.specs.Standing.{StandsForSome};
ghost use Rattle.engine_guarded.specs.Closing.{HasSeenAll, IsIdle};
ghost use Rattle.engine_guarded.specs.Found.{IsOwned};
ghost use Rattle.engine_guarded.specs.Running.{PassesFrom};

use crate::caller::Caller;
use crate::entry::Entry;
use crate::guarded::Guarded;
use boxcar::Vec as Entries;
use engine_history::{Naming, Step};
use ghost_list::GhostList;
use node_world::World;
use stable::{CrashLog, CrashPages};
use std::marker::{Model, PhantomData};

/// A node that nobody calls any more. Contracts see the steps that were made, and the node.
#[derive(Drop)]
pub struct Closed<J: Naming, D: CrashLog, P: CrashPages> {
    node: Box<World<D, P>>,
    steps: GhostList<Step>,
    of: PhantomData<J>,
}

impl<J: Naming, D: CrashLog, P: CrashPages> Model for Closed<J, D, P> {
    ghost use Rattle.std.specs.Coded.{codes};
    ghost use Rattle.record_key.specs.Table.{table_code};
    ghost use Rattle.node_world.specs.dc_store.specs.SystemView.{pages_code};
    ghost use Rattle.engine_guarded.specs.Found.{Found};
    ghost use Rattle.engine_guarded.specs.Closing.{IsLeftBy};

    ghost Value = { Found };

    ghost coded = { Prim.hlevel (codes, table_code, pages_code) };

    ghost view = { λ c. record { steps = c.steps.items; node = c.node.value } };

    ghost invariant = { λ c. IsLeftBy J.start J.sessions c.steps.items c.node.value };
}

impl<J: Naming, D: CrashLog, P: CrashPages> Closed<J, D, P> {
    /// The steps lead from the start to the node, where messages may be let go between them; whoever crashed a component
    /// or armed a failure was the engine; and what a node promises at every moment holds at the end.
    pub fn kept(&self)
        ensures passes { PassesFrom J.start self.now.steps self.now.node }
        ensures owned { AllByRecursion (IsOwned J.sessions) self.now.steps }
        ensures promised { Promises self.now.node }
        ensures stands { StandsForSome self.now.node }
    {
        self.node.kept();
        self.node.stood();
    }

    /// The node.
    pub fn world(&self) -> &World<D, P>
        ensures { result.now ≡ self.now.node }
    {
        &self.node
    }

    /// The node, between whose components no message is on its way: it goes on alone, or as another engine's, or is
    /// renewed.
    pub fn into_node(self) -> Box<World<D, P>>
        ensures { result.value ≡ self.node }
    {
        let Closed {
            node,
            steps: _,
            of: _,
        } = self;
        node
    }
}

// Each of these has seen all of its calls.
fn see_all<J: Naming, D: CrashLog, P: CrashPages>(
    guarded: &mut Guarded<J, D, P>,
    entries: &Entries<Entry>,
    callers: Vec<Caller<J>>,
)
    requires entries { entries.now ≡ J.entries }
    requires idle { AllByRecursion IsIdle callers.items }
    ensures same { guarded.new ≡ guarded.old }
    ensures seen { AllByRecursion (HasSeenAll guarded.old.steps) callers.items }
{
    for caller in callers {
        let mut caller = caller;
        guarded.see(entries, &mut caller);
    }
}

impl<J: Naming, D: CrashLog, P: CrashPages> Guarded<J, D, P> {
    /// The end, once every session is back, with what the engine kept itself: each session has seen all of its calls, and
    /// the engine all that it commanded. Every message is let go.
    pub fn close(
        self,
        entries: &Entries<Entry>,
        callers: Vec<Caller<J>>,
        own: Caller<J>,
    ) -> Closed<J, D, P>
        requires entries { entries.now ≡ J.entries }
        requires idle { AllByRecursion IsIdle callers.items }
        requires own { own.number ≡ J.sessions }
        requires rest { own.busy ≡ false }
        ensures steps { result.steps ≡ self.steps }
        ensures node { result.node ≡ without_messages self.node }
        ensures seen { AllByRecursion (HasSeenAll self.steps) callers.items }
        ensures commands { commands self.steps ≡ commands own.steps }
    {
        let (mut guarded, mut own) = (self, own);
        see_all(&mut guarded, entries, callers);
        guarded.see(entries, &mut own);
        guarded.kept();
        guarded.into_closed()
    }

    // The node with its steps, without its messages.
    fn into_closed(self) -> Closed<J, D, P>
        ensures steps { result.steps ≡ self.steps }
        ensures node { result.node ≡ without_messages self.node }
    {
        let Guarded {
            world,
            steps,
            places: _,
            low: _,
            pace: _,
            of: _,
        } = self;
        let mut node = world;
        node.forget();
        Closed {
            node,
            steps,
            of: PhantomData,
        }
    }
}
