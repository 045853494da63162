//! Whole lists of events: the headline.
ghost use Rattle.std.specs.Prelude.{◌≡◌, IfOk, OnErr, IsOkUnless};
ghost use Rattle.history.specs.History.{plain};
ghost use Rattle.history.specs.ListMachine.{Machine};
ghost use Rattle.dc_tree.specs.Leaves.{rows_of};
ghost use Rattle.node_sides.specs.dc_core.specs.DcView.{leaves};
ghost use Rattle.node_sides.specs.node_laws.specs.Stepping.{Chain};
ghost use Rattle.node_sides.specs.node_laws.specs.Simulation.{LeadsAll, NodeStandsFor, IsSettled};

use crate::world::World;
use node_sides::node_laws::{Event, Out};
use record_key::Refusal;
use stable::{CrashLog, CrashPages};
use std::alloc::Global;

/// Does the events in order. Each is a step of the components' contracts, and whatever list machine the node stood
/// for, the events with their outputs lead from there to one that it stands for then: each client's answer is that of
/// one list of operations with the rolled-back ones crossed out. Where the node is settled then, its records are what a
/// plain map holds after the operations that stand. Refused NoMemory before any event.
pub fn drive<D: CrashLog, P: CrashPages>(
    alloc: Global,
    world: &mut World<D, P>,
    events: &[Event],
) -> Result<Vec<Out>, Refusal>
    ensures chain { IfOk result (λ outs. Chain world.old events.now outs.items world.new) }
    ensures run { IfOk result (λ outs. LeadsAll world.old events.now outs.items world.new) }
    ensures rows { (m : Machine) → NodeStandsFor world.new m → IsSettled world.new
        → rows_of (leaves world.new.dc) ≡ plain m.h }
    ensures refused { OnErr result (world.new ≡ world.old) }
    ensures memory { IsOkUnless result Refusal.NoMemory }
{
    world.kept();
    let mut outs = Vec::with_capacity(alloc, events.len())?;
    for event in events {
        let mut out = Out::Nothing;
        world.step_into(event, &mut out);
        match outs.push(out) {
            Ok(()) => {}
            Err(_) => unreachable!(),
        }
    }
    world.kept();
    Ok(outs)
}
