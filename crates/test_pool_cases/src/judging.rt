//! What an engine leaves, judged.
use crate::left::Leaves;
use crate::parts::Part;
use crate::plan::{FALLS, Many, Trouble};
use crate::playing::{OWN, own_key};
use crate::told::put_rows;
use crate::verdict::Verdict;
use crate::{machine, parts};
use std::alloc::Global;
use test_model::node_laws::Out;

/// Whether the history is what the plain model says, and each session's calls in it what its client noted; and where the
/// case is whole, the records too.
pub fn is_history<L: Leaves>(alloc: Global, closed: &L, parts: &[Part], whole: bool) -> Verdict {
    for part in parts {
        if !parts::agrees(closed, part) {
            return Ok(false);
        }
    }
    machine::agrees(alloc, closed, whole)
}

/// Whether these records are left.
pub fn leaves<L: Leaves>(alloc: Global, closed: &L, wanted: &str) -> Verdict {
    let mut text = String::new(alloc);
    match closed.records() {
        Some(rows) => put_rows(&mut text, rows)?,
        None => text.push_str("down")?,
    }
    Ok(text.as_str() == wanted)
}

/// Whether the case wasn't hollow: each client's own record is left, and each crash was one.
pub fn is_played<L: Leaves>(closed: &L, many: &Many) -> Verdict {
    let wanted = match many.plan.trouble {
        Trouble::Crashes(_) => FALLS,
        Trouble::Nothing | Trouble::Failures(_) => 0,
    };
    Ok(falls(closed) == wanted && has_own(closed, many)?)
}

// How often a component fell that ran.
fn falls<L: Leaves>(closed: &L) -> usize {
    let mut count = 0usize;
    for place in 0..closed.count() {
        if let Some(step) = closed.step_at(place)
            && *step.out.lent().get() == Out::Down
        {
            count = count.saturating_add(1);
        }
    }
    count
}

fn has_own<L: Leaves>(closed: &L, many: &Many) -> Verdict {
    let Some(rows) = closed.records() else {
        return Ok(false);
    };
    for client in 0..many.sessions as u64 {
        let key = own_key(client)?;
        if !rows
            .iter()
            .any(|row| row.0 == key && row.1.as_bytes() == OWN.as_slice())
        {
            return Ok(false);
        }
    }
    Ok(true)
}
