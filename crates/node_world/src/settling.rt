//! Rounds, until none is left.
ghost use Rattle.std.specs.Prelude.{◌≡◌, ◌∷◌, []};
ghost use Rattle.node_sides.specs.node_laws.specs.Kept.{IsKept};
ghost use Rattle.node_sides.specs.node_laws.specs.Rounds.{Settles, Does, IsNextRound, IsExchange, events_of, exchange, fewer};

use crate::world::World;
use node_sides::node_laws::{Event, Out, Round};
use record_key::Refusal;
use stable::{CrashLog, CrashPages};

/// Plays the first round that applies until none is left, or as many as `most` says: true where none is left.
/// Then both components run in one session, nothing waits, nothing is being rolled back, nobody whom a crash found
/// open is left and every record is stable. Makes no client's call. Refused NoMemory, NumbersSpent, Device; what was
/// done before stands, with its outputs in `out`.
pub fn settle<D: CrashLog, P: CrashPages>(
    world: &mut World<D, P>,
    most: Option<u64>,
    out: &mut Vec<Out>,
) -> Result<bool, Refusal>
    ensures { Settles world.old most out.old.items out.new.items result world.new }
{
    world.kept();
    let mut left = most;
    while let Some(round) = world.next_round() {
        if left == Some(0) {
            return Ok(false);
        }
        left = less_one(left);
        play(world, round, out)?;
        world.kept();
    }
    Ok(true)
}

fn less_one(left: Option<u64>) -> Option<u64>
    ensures { result ≡ fewer left }
{
    match left {
        Some(rounds) if rounds > 0 => Some(rounds - 1),
        Some(_) => Some(0),
        None => None,
    }
}

/// The events of a round that applies, up to one that is refused.
pub(crate) fn play<D: CrashLog, P: CrashPages>(
    world: &mut World<D, P>,
    round: Round,
    out: &mut Vec<Out>,
) -> Result<(), Refusal>
    requires kept { IsKept world.old }
    requires next { IsNextRound world.old round }
    ensures { Does world.old (events_of world.old round) out.old.items out.new.items result world.new }
{
    match round {
        Round::RestartDc => perform(world, &Event::RestartDc, out),
        Round::RestartTc => perform(world, &Event::RestartTc, out),
        Round::Connect => exchange(world, &Event::Reconnect, out),
        Round::Recover => exchange(world, &Event::Recover, out),
        Round::Lose => perform(world, &Event::Recover, out),
        Round::Exchange { txn } => exchange(world, &Event::Send { txn }, out),
        Round::Force => perform(world, &Event::Force, out),
        Round::Undo { txn } => perform(world, &Event::Undo { txn }, out),
    }
}

/// An event that sends a request, the request's delivery, and that of its reply.
fn exchange<D: CrashLog, P: CrashPages>(
    world: &mut World<D, P>,
    event: &Event,
    out: &mut Vec<Out>,
) -> Result<(), Refusal>
    requires { IsExchange world.old event.now }
    ensures { Does world.old (exchange world.old event.now) out.old.items out.new.items result world.new }
{
    perform(world, event, out)?;
    let request = world.requests();
    perform(world, &Event::Request { number: request }, out)?;
    let reply = world.replies();
    perform(world, &Event::Reply { number: reply }, out)
}

/// One event, with its output where it isn't refused.
fn perform<D: CrashLog, P: CrashPages>(
    world: &mut World<D, P>,
    event: &Event,
    out: &mut Vec<Out>,
) -> Result<(), Refusal>
    ensures { Does world.old (event.now ∷ []) out.old.items out.new.items result world.new }
{
    if out.reserve(1).is_err() {
        return Err(Refusal::NoMemory);
    }
    // It is written where it is to stand: each hand-over of one is a copy.
    let last = out.len();
    out.push_reserved(Out::Nothing);
    world.step_into(event, &mut out[last]);
    match &out[last] {
        Out::Refused(refusal) => {
            let refusal = *refusal;
            out.truncate(last);
            Err(refusal)
        }
        _ => Ok(()),
    }
}
