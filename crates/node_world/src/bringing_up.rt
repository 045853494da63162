//! A node that was opened on a log is brought to rest.
ghost use Rattle.std.specs.Prelude.{◌≡◌, ◌≤◌, ◌++◌, length, take, drop, filter};
ghost use Rattle.node_sides.specs.node_laws.specs.Kept.{IsKept};
ghost use Rattle.node_world.specs.BringingUp.{BringsUp, Eases, tells};

use crate::settling::play;
use crate::world::World;
use node_sides::node_laws::{Event, Out};
use record_key::Refusal;
use stable::{CrashLog, CrashPages};

/// Plays the rounds of `settle` until none is left, as whoever has opened a log or restarted a component does: after
/// each a leaf that redo has filled may be split, and every message is let go. So an opening takes time by what the log
/// has, whatever the count of rows, and no memory for its messages. Makes no client's call. Of what the events came to
/// `told` gets what tells a client something. Refused NoMemory, NumbersSpent, Device; what was done before stands.
pub fn bring_up<D: CrashLog, P: CrashPages>(
    world: &mut World<D, P>,
    told: &mut Vec<Out>,
) -> Result<(), Refusal>
    ensures { BringsUp world.old told.old.items told.new.items result world.new }
{
    world.kept();
    while let Some(round) = world.next_round() {
        let before = told.len();
        let played = play(world, round, told);
        keep_telling(told, before);
        played?;
        ease(world);
        world.kept();
    }
    Ok(())
}

/// A leaf is split, if one may be that is large, and every message is let go. Where that is refused, a later one does it.
fn ease<D: CrashLog, P: CrashPages>(world: &mut World<D, P>)
    ensures { Eases world.old world.new }
{
    let mut out = Out::Nothing;
    world.step_into(&Event::Tend, &mut out);
    world.forget();
}

/// Removes those outputs from this place on that tell nobody anything.
fn keep_telling(outs: &mut Vec<Out>, from: usize)
    requires { from ≤ length outs.old.items }
    ensures { outs.new.items ≡ take from outs.old.items ++ filter tells (drop from outs.old.items) }
{
    let mut place = from;
    while place < outs.len() {
        if tells(&outs[place]) {
            place += 1;
        } else {
            outs.remove(place);
        }
    }
}

/// Whether it tells a client something.
fn tells(out: &Out) -> bool
    ensures { result ≡ tells out.now }
{
    match out {
        Out::Answered { .. }
        | Out::Row { .. }
        | Out::Rows { .. }
        | Out::Back { .. }
        | Out::RolledBack(_)
        | Out::Lost(_) => true,
        Out::Stable { committed, .. } | Out::Connects { committed, .. } => !committed
            .as_slice()
            .is_empty(),
        _ => false,
    }
}
