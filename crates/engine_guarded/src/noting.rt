//! How the list of steps goes on, and what an entry notes of it.
ghost use Rattle.std.specs.Prelude.{◌≡◌, ◌++◌, ◌∷◌, [], Some, None};
ghost use Rattle.engine_guarded.specs.Running.{made};

use engine_history::Step;
use engine_history::node_laws::{Event, Out};
use ghost_list::GhostList;

/// These, and then a step that is no call.
pub(crate) fn with_step(steps: &GhostList<Step>, event: &Event, out: &Out) -> GhostList<Step>
    ensures { result.items ≡ steps.now.items ++ made None event.now out.now ∷ [] }
{
    GhostList::picked(0, steps, event, out)
}

/// These, and then a session's call.
pub(crate) fn with_call(
    steps: &GhostList<Step>,
    session: u64,
    event: &Event,
    out: &Out,
) -> GhostList<Step>
    ensures { result.items ≡ steps.now.items ++ made (Some session) event.now out.now ∷ [] }
{
    GhostList::picked(session, steps, event, out)
}

/// The same again.
pub(crate) fn again(steps: &GhostList<Step>) -> GhostList<Step>
    ensures { result.items ≡ steps.now.items }
{
    GhostList::picked(0, steps, &(), &())
}
