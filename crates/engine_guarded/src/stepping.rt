//! A step of the node, and the greatest low number that was announced by then.
ghost use Rattle.std.specs.Prelude.{◌≡◌, ◌≤◌, max};
ghost use Rattle.engine_history.specs.Marking.{if_sent, low_of};
ghost use Rattle.engine_history.specs.node_laws.specs.Stepping.{IsStep};

use engine_history::node_laws::{Event, Out};
use node_world::World;
use stable::{CrashLog, CrashPages};

// The number, where it was sent, else 0.
fn if_sent(low: u64, out: &Out) -> u64
    ensures { result ≡ if_sent low out.now }
{
    match out {
        Out::Sent(_) => low,
        _ => 0,
    }
}

// The number that was announced where the event came to this, 0 where none was.
fn low_of(event: &Event, out: &Out) -> u64
    ensures { result ≡ low_of event.now out.now }
{
    match event {
        Event::LowWater { low } => if_sent(*low, out),
        _ => 0,
    }
}

/// One event, and the greatest number that was announced then. No announced number is more than what is stable of the
/// log, which never gets less.
pub(crate) fn stepped<D: CrashLog, P: CrashPages>(
    world: &mut World<D, P>,
    low: &mut u64,
    event: &Event,
    out: &mut Out,
)
    requires stable { low.old ≤ world.old.tc.stable }
    ensures node { IsStep world.old event.now out.new world.new }
    ensures low { low.new ≡ max low.old (low_of event.now out.new) }
    ensures stable { low.new ≤ world.new.tc.stable }
{
    world.kept();
    world.step_into(event, out);
    *low = (*low).max(low_of(event, out));
}
