//! The node that an engine leaves goes on, and is renewed.
use node_store::renew;
use node_world::{World, bring_up};
use record_key::{Key, Value};
use stable::{MemLog, MemPages};
use std::alloc::{AllocError, Global};
use test_pool_cases::Verdict;

/// A record.
pub type Row = (Key, Value);

/// Whether the node that an engine left, brought to rest, has the records with which the engine ended, where it was quiet
/// then; and whether its renewed node has the same.
pub fn goes_on(alloc: Global, rows: &[Row], node: Box<World>) -> Verdict {
    let mut node = node;
    let was_quiet = node.is_quiet();
    bring_up(&mut *node, &mut Vec::new(alloc))?;
    let kept = node.rows()?;
    if was_quiet && kept.as_slice() != rows {
        return Ok(false);
    }
    is_renewed(alloc, &node, kept.as_slice())
}

// Whether the renewed node has these records, where the node is quiet.
fn is_renewed(alloc: Global, node: &World, rows: &[Row]) -> Verdict {
    if !node.is_quiet() {
        return Ok(true);
    }
    match renew(
        alloc,
        node,
        MemLog::new(alloc),
        MemLog::new(alloc),
        MemPages::new(alloc),
    ) {
        Ok(renewed) => has_rows(alloc, renewed, rows),
        Err(left) => Err(left.refusal),
    }
}

// Whether the node, brought to rest, has these records.
fn has_rows(alloc: Global, node: World, rows: &[Row]) -> Verdict {
    let mut node = node;
    bring_up(&mut node, &mut Vec::new(alloc))?;
    Ok(node.rows()?.as_slice() == rows)
}

/// The same records again.
pub fn copied(alloc: Global, rows: &[Row]) -> Result<Vec<Row>, AllocError> {
    let mut copies = Vec::with_capacity(alloc, rows.len())?;
    for (key, value) in rows {
        copies.push((key.copied(), value.copied()))?;
    }
    Ok(copies)
}
