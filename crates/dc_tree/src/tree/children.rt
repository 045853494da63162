//! Nodes beside one another, at one depth.
ghost use Rattle.std.specs.Prelude.{◌≡◌, ◌<◌, ◌^◌, true, false, length};
ghost use Rattle.dc_tree.specs.Choosing.{summary_of};
ghost use Rattle.dc_tree.specs.Nodes.{AreChildren, height_in, low_of, under};
ghost use Rattle.dc_tree.specs.Finding.{IsIn, IsNodeOf};
ghost use Rattle.dc_tree.specs.Quiet.{IsQuietAt, WasSummary};

use super::node::Node;
use super::summary::Summary;
use crate::choosing::may_join;
use record_key::Key;

/// How many leaves are below them.
pub fn count_in(nodes: &[Node]) -> usize
    requires { length (under nodes.now) < 2 ^ 64 }
    ensures { result ≡ length (under nodes.now) }
{
    let mut count = 0;
    for node in nodes {
        count += node.count();
    }
    count
}

/// Where the first leaf below them begins.
pub fn low_in(nodes: &[Node]) -> Option<Key>
    requires { AreChildren (height_in nodes.now) nodes.now }
    ensures { result ≡ low_of (under nodes.now) }
{
    if nodes.is_empty() {
        None
    } else {
        nodes[0].low().map(|fence| fence.copied())
    }
}

/// What decides which of the leaves below them are tended first.
pub fn summary_in(nodes: &[Node]) -> Summary
    requires { AreChildren (height_in nodes.now) nodes.now }
    ensures { result ≡ summary_of (under nodes.now) }
{
    if nodes.is_empty() {
        return Summary::nothing();
    }
    let mut all = nodes[0].summary();
    for i in 1..nodes.len() {
        all = all.before(nodes[i].summary());
    }
    all
}

/// Renews what was kept of nodes of which the one at a place was changed. Whether it is not the same. While no leaf is
/// large and no two may be joined, the first leaf and the last tell it.
pub fn renew_after(summary: &mut Summary, nodes: &[Node], changed: usize) -> bool
    requires whole { AreChildren (height_in nodes.now) nodes.now }
    requires there { changed < length nodes.now }
    requires before { WasSummary nodes.now changed summary.old }
    ensures renewed { summary.new ≡ summary_of (under nodes.now) }
    ensures same { result ≡ false → summary.new ≡ summary.old }
{
    if summary.is_quiet() && is_quiet_at(nodes, changed) {
        let last = nodes[nodes.len() - 1].summary().last;
        summary.renew_ends(nodes[0].summary().first, last)
    } else {
        summary.renew(summary_in(nodes))
    }
}

/// Whether no leaf below the node at a place is large, and none may be joined there or with one of the nodes beside it.
fn is_quiet_at(nodes: &[Node], place: usize) -> bool
    requires there { place < length nodes.now }
    ensures { result ≡ true → IsQuietAt nodes.now place }
{
    let summary = nodes[place].summary();
    summary.is_quiet()
        && (place == 0 || !may_join(nodes[place - 1].summary().last.count, summary.first.count))
        && (place + 1 == nodes.len()
            || !may_join(summary.last.count, nodes[place + 1].summary().first.count))
}

/// The node in which a place among the leaves lies, and the place there.
pub fn node_at(nodes: &[Node], place: usize) -> (usize, usize)
    requires { place < length (under nodes.now) }
    ensures { IsIn nodes.now place result.0 result.1 }
{
    let mut i = 0;
    let mut rest = place;
    while rest >= nodes[i].count() {
        rest -= nodes[i].count();
        i += 1;
    }
    (i, rest)
}

/// The node below which the key's leaf lies, found by halves.
pub fn node_of(nodes: &[Node], key: &Key) -> usize
    requires { 0 < length nodes.now }
    ensures { IsNodeOf nodes.now key.now result }
{
    let mut i = 0;
    let mut end = nodes.len();
    while end - i > 1 {
        let middle = i + (end - i) / 2;
        if nodes[middle].begins_at_most(key) {
            i = middle;
        } else {
            end = middle;
        }
    }
    i
}
