//! Whether leaves are the same.
use crate::plain_leaves::PlainLeaves;
use codec::LentRows;
use dc_leaf::Leaf;
use dc_tree::{LeafList, LeafSet, Tree};
use record_key::{Entries, Key, Value};

/// Whether both list the same.
fn are_same_entries(one: &Entries, other: &Entries) -> bool {
    if one.len() != other.len() {
        return false;
    }
    for place in 0..one.len() {
        if one.entry(place) != other.entry(place) {
            return false;
        }
    }
    true
}

/// Whether both are the same rows.
fn are_same_rows(one: &LentRows<'_>, other: &LentRows<'_>) -> bool {
    let (mut one, mut other) = (one.again(), other.again());
    if one.len() != other.len() {
        return false;
    }
    for _ in 0..one.len() {
        if one.next() != other.next() {
            return false;
        }
    }
    true
}

/// Whether these rows are those that are listed.
fn are_listed(rows: &LentRows<'_>, listed: &[(Key, Value)]) -> bool {
    let mut rest = rows.again();
    for (key, value) in listed {
        let Some(row) = rest.next() else {
            return false;
        };
        if row.0 != *key || row.1 != *value {
            return false;
        }
    }
    rest.len() == 0
}

fn are_same(one: &Leaf, other: &Leaf) -> bool {
    one.id() == other.id()
        && one.last() == other.last()
        && one.low() == other.low()
        && one.low_fence() == other.low_fence()
        && one.high_fence() == other.high_fence()
        && are_same_rows(&one.rows(), &other.rows())
        && are_same_entries(one.entries(), other.entries())
}

/// Whether the same ones are tended first where this is the known end.
fn are_tended_alike(list: &LeafList, tree: &Tree, known: u64) -> bool {
    list.first_large(known) == tree.first_large(known)
        && list.first_pair(known) == tree.first_pair(known)
}

/// Whether the leaves of both are the same, and so are those that are tended first.
pub fn are_same_leaves(list: &LeafList, tree: &Tree) -> bool {
    if list.len() != tree.len() {
        return false;
    }
    let middle = list.leaf(list.len() / 2).top();
    for known in [0, middle, u64::MAX] {
        if !are_tended_alike(list, tree, known) {
            return false;
        }
    }
    for place in 0..list.len() {
        if !are_same(list.leaf(place), tree.leaf(place)) {
            return false;
        }
    }
    true
}

/// Whether the leaves begin at the plain program's fences and have its rows that lie there.
pub fn are_plain<L: LeafSet>(leaves: &L, plain: &PlainLeaves) -> bool {
    if leaves.len() != plain.fences().len().wrapping_add(1) {
        return false;
    }
    leaves.kept();
    let mut rows = plain.rows();
    for place in 0..leaves.len() {
        let leaf = leaves.leaf(place);
        let count = count_below(rows, plain.fence(place.wrapping_add(1)));
        let Some(here) = rows.get(..count) else {
            return false;
        };
        if leaf.low_fence() != plain.fence(place) || !are_listed(&leaf.rows(), here) {
            return false;
        }
        rows = rows.get(count..).unwrap_or(&[]);
    }
    rows.is_empty()
}

/// How many of the first rows lie below the fence; all where there is none.
fn count_below(rows: &[(Key, Value)], fence: Option<&Key>) -> usize {
    let Some(fence) = fence else {
        return rows.len();
    };
    let mut count = 0usize;
    for row in rows {
        if row.0 >= *fence {
            break;
        }
        count = count.wrapping_add(1);
    }
    count
}
