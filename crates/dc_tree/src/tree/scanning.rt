//! The records of a range, found by one walk below the nodes that have them.
ghost use Rattle.std.specs.Prelude.{◌≡◌, [], ◌∷◌, IfOk, IsOkUnless};
ghost use Rattle.std.specs.Option.{option_copied};
ghost use Rattle.dc_tree.specs.Nodes.{IsWhole, under};
ghost use Rattle.dc_tree.specs.Scanned.{IsScannedFrom, IsScannedOn, ends_within};

use super::children::node_of;
use super::node::{Below, Node};
use dc_leaf::{Leaf, RowSink};
use record_key::{Key, Refusal};

impl Node {
    /// Puts copies of the records from `low` on, below `high` where there is one, at the end of `found`, from the last
    /// leaf on that begins at `low` or below, or from the first. Whether a leaf ends past the range, so that those after
    /// it have none of it. Refused NoMemory; some of the records may stand there then.
    pub fn scan_from<S: RowSink>(
        &self,
        low: &Key,
        high: Option<&Key>,
        found: &mut S,
    ) -> Result<bool, Refusal>
        requires whole { IsWhole self.now }
        ensures found { IfOk result (λ ended.
            IsScannedFrom (record { lo = low.now; hi = option_copied high.entry }) self.now.leaves
            (S.rows found.old) (S.rows found.new) ended) }
        ensures memory { IsOkUnless result Refusal.NoMemory }
    {
        match &self.below {
            Below::Leaf(leaf) => {
                found.add(&leaf.scan(low, high))?;
                Ok(!ends_within(leaf, high))
            }
            Below::Inner(children) => {
                let i = node_of(children.as_slice(), low);
                if children[i].scan_from(low, high, found)? {
                    return Ok(true);
                }
                scan_nodes(&children[i + 1..], low, high, found)
            }
        }
    }

    /// The same from the first leaf on, where all of them begin above `low`.
    #[cycle(scan)]
    fn scan_on<S: RowSink>(
        &self,
        low: &Key,
        high: Option<&Key>,
        found: &mut S,
    ) -> Result<bool, Refusal>
        ensures found { IfOk result (λ ended.
            IsScannedOn (record { lo = low.now; hi = option_copied high.entry }) self.now.leaves
            (S.rows found.old) (S.rows found.new) ended) }
        ensures memory { IsOkUnless result Refusal.NoMemory }
    {
        match &self.below {
            Below::Leaf(leaf) => scan_leaf(leaf, low, high, found),
            Below::Inner(children) => scan_nodes(children.as_slice(), low, high, found),
        }
    }
}

/// The same below nodes beside one another.
#[cycle(scan)]
fn scan_nodes<S: RowSink>(
    nodes: &[Node],
    low: &Key,
    high: Option<&Key>,
    found: &mut S,
) -> Result<bool, Refusal>
    ensures found { IfOk result (λ ended.
        IsScannedOn (record { lo = low.now; hi = option_copied high.entry }) (under nodes.now)
        (S.rows found.old) (S.rows found.new) ended) }
    ensures memory { IsOkUnless result Refusal.NoMemory }
{
    for node in nodes {
        if node.scan_on(low, high, found)? {
            return Ok(true);
        }
    }
    Ok(false)
}

/// The same of one leaf. One that ends within the range is copied whole, since then no key has to be looked for in it.
fn scan_leaf<S: RowSink>(
    leaf: &Leaf,
    low: &Key,
    high: Option<&Key>,
    found: &mut S,
) -> Result<bool, Refusal>
    ensures found { IfOk result (λ ended.
        IsScannedOn (record { lo = low.now; hi = option_copied high.entry }) (leaf.now ∷ [])
        (S.rows found.old) (S.rows found.new) ended) }
    ensures memory { IsOkUnless result Refusal.NoMemory }
{
    if ends_within(leaf, high) {
        found.add(&leaf.rows())?;
        return Ok(false);
    }
    found.add(&leaf.scan(low, high))?;
    Ok(true)
}

/// Whether all keys of the leaf are below the end of a range, where it has one.
fn ends_within(leaf: &Leaf, high: Option<&Key>) -> bool
    ensures { result ≡ ends_within leaf.now.high_fence (option_copied high.entry) }
{
    match (leaf.high_fence(), high) {
        (_, None) => true,
        (Some(fence), Some(high)) => !high.cmp(fence).is_lt(),
        (None, Some(_)) => false,
    }
}
