//! A scan of leaves in boxes.
ghost use Rattle.std.specs.Prelude.{◌≡◌, ◌++◌, OnOk, IsOkUnless};
ghost use Rattle.std.specs.Option.{option_copied};
ghost use Rattle.record_key.specs.Order.{rows_in};
ghost use Rattle.dc_tree.specs.Leaves.{AreLeaves, rows_of};
ghost use Rattle.dc_tree.specs.Lists.{is_past, leaves_in};

use crate::boxes::place_in;
use dc_leaf::{Leaf, RowSink};
use record_key::{Key, Refusal};

/// Puts copies of the records from `low` on, below `high` where there is one, at the end of `found`. Refused NoMemory;
/// some of them may stand there then.
pub fn scan_in<S: RowSink>(
    leaves: &[Box<Leaf>],
    low: &Key,
    high: Option<&Key>,
    found: &mut S,
) -> Result<(), Refusal>
    requires { AreLeaves (leaves_in leaves.now) }
    ensures found { OnOk result (S.rows found.new ≡ S.rows found.old
        ++ rows_in (record { lo = low.now; hi = option_copied high.entry })
        (rows_of (leaves_in leaves.now))) }
    ensures memory { IsOkUnless result Refusal.NoMemory }
{
    for leaf in &leaves[place_in(leaves, low)..] {
        if begins_past(leaf, high) {
            return Ok(());
        }
        found.add(&leaf.scan(low, high))?;
    }
    Ok(())
}

/// Whether no key of the leaf is below the end of a range, where it has one.
fn begins_past(leaf: &Leaf, high: Option<&Key>) -> bool
    ensures { result ≡ is_past leaf.now.low_fence (option_copied high.entry) }
{
    match (leaf.low_fence(), high) {
        (Some(fence), Some(high)) => !fence.cmp(high).is_lt(),
        _ => false,
    }
}
