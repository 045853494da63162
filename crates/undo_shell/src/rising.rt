//! An opened node comes to rest.
use crate::progress::Progress;
use crate::stored::Node;
use crate::terminals::Terminals;
use node_world::{Event, bring_up, settle};
use record_key::Refusal;
use std::alloc::Global;
use std::time::Clock;

/// Brings a node that was opened to rest, and tells how far it is. What that tells clients is of none that is there.
pub fn bring_to_rest<R>(rt: &R, terminals: Terminals, node: &mut Node) -> Result<(), Refusal>
where
    R: Eprint + AllocGlobal + Clock,
{
    if terminals.errors {
        let mut progress = Progress::new(rt, true);
        let risen = rise(rt, node, &mut progress);
        progress.end(rt);
        risen?;
    }
    bring_up(node, &mut Vec::new(rt.alloc()))
}

/// Plays the rounds of `bring_up` one by one, up to where none is left.
fn rise<R>(rt: &R, node: &mut Node, progress: &mut Progress) -> Result<(), Refusal>
where
    R: Eprint + AllocGlobal + Clock,
{
    for round in 1..u64::MAX {
        if play(rt.alloc(), node)? {
            break;
        }
        progress.tell(rt, round, "operations of the log");
    }
    Ok(())
}

/// Plays a round, after which a leaf may be split and every message is let go. Gives whether none is left.
fn play(alloc: Global, node: &mut Node) -> Result<bool, Refusal> {
    let rests = settle(node, Some(1), &mut Vec::new(alloc))?;
    // Where that is refused, a later one does it.
    let _tended = node.step(&Event::Tend);
    node.forget();
    Ok(rests)
}
