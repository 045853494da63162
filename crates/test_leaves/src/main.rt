//! Tests of leaves, one and many of them in a list and in a tree, over their public calls: scripts of calls with what
//! each answers, and calls in a mixed order beside a slow plain program.
//!
//! Knows: the public calls of the crates of leaves, and of keys; nothing of a log.
//! Must not know: anything that these crates keep to themselves.
//! Promises nothing: it is run. It says what no clause says: that a call succeeds, and that a fast body does what a slow
//! plain one does.
#![tactic(auto)]

mod both;
mod calls;
mod many;
mod mixed;
mod ops;
mod plain_leaves;
mod same;
mod shown;
mod single;

use dc_leaf::leaf_law;
use dc_tree::{LeafList, LeafSet, Tree, tree_law, tree_undo_law};
use many::Many;
use plain_leaves::PlainLeaves;
use single::Single;
use std::io;
use std::process::ExitCode;
use test_calls::{Tally, play, report, script_in, status};

fn main(rt: HostRuntime) -> io::Result<ExitCode> {
    leaf_law();
    tree_law();
    tree_undo_law();
    let differ = single_leaf(&rt)?;
    let differ = differ.wrapping_add(played::<LeafList>(&rt, "list")?);
    let differ = differ.wrapping_add(played::<Tree>(&rt, "tree")?);
    let differ = differ.wrapping_add(compared::<LeafList>(&rt, "list beside the plain program")?);
    let differ = differ.wrapping_add(compared::<Tree>(&rt, "tree beside the plain program")?);
    Ok(status(differ.wrapping_add(beside(&rt)?)))
}

/// Plays the script of one leaf. Gives how many lines differ.
fn single_leaf(rt: &HostRuntime) -> io::Result<u64> {
    let script = script_in(rt, "leaf")?;
    let tally = play(rt, script.as_str(), &mut Single::new(rt.alloc()));
    told(rt, "leaf", tally)
}

/// Plays the script of many leaves, in a set of this kind.
fn played<L: LeafSet + Drop>(rt: &HostRuntime, name: &str) -> io::Result<u64> {
    let script = script_in(rt, "leaves")?;
    let tally = play(rt, script.as_str(), &mut Many::<L>::new(rt.alloc()));
    told(rt, name, tally)
}

/// Calls in a mixed order of a set of this kind and of the plain program.
fn compared<L: LeafSet + Drop>(rt: &HostRuntime, name: &str) -> io::Result<u64> {
    let mut tally = Tally::NONE;
    let mut plain = PlainLeaves::new(rt.alloc());
    match calls::one_leaf_again::<L>(rt.alloc(), &mut tally) {
        Ok(mut leaves) => mixed::calls(&mut leaves, &mut plain, 4000, &mut tally),
        Err(_) => tally.count(false),
    }
    told(rt, name, tally)
}

/// Other calls in a mixed order of the list and of the tree.
fn beside(rt: &HostRuntime) -> io::Result<u64> {
    let mut tally = Tally::NONE;
    let list = calls::one_leaf_again::<LeafList>(rt.alloc(), &mut tally);
    match (list, calls::one_leaf_again::<Tree>(rt.alloc(), &mut tally)) {
        (Ok(mut list), Ok(mut tree)) => both::calls(&mut list, &mut tree, 4000, &mut tally),
        _ => tally.count(false),
    }
    told(rt, "tree beside the list", tally)
}

fn told(rt: &HostRuntime, name: &str, tally: Tally) -> io::Result<u64> {
    report(rt, name, &tally)?;
    Ok(tally.differ)
}
