//! What the component keeps its leaves in.
ghost use Rattle.std.specs.Prelude.{◌≡◌};
ghost use Rattle.dc_core.specs.DcView.{top_of, top_low};

use dc_store::SystemTxns;
use dc_tree::Tree;
use stable::{LogDevice, PageDevice};

/// A tree of leaves, with their log and their pages.
pub type System<D, P> = SystemTxns<Tree, D, P>;

/// The greatest number of an entry of the leaves, 0 if none.
pub fn top_of<D: LogDevice, P: PageDevice>(system: &System<D, P>) -> u64
    ensures { result ≡ top_of system.now.leaves }
{
    let mut most = 0;
    for place in 0..system.len() {
        most = system.leaf(place).top().max(most);
    }
    most
}

/// The greatest low number of the leaves, 0 if there is none.
pub fn top_low<D: LogDevice, P: PageDevice>(system: &System<D, P>) -> u64
    ensures { result ≡ top_low system.now.leaves }
{
    let mut most = 0;
    for place in 0..system.len() {
        most = system.leaf(place).low().max(most);
    }
    most
}
