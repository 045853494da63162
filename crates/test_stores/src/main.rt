//! Cases of stores: what is kept from one opening to the next, who may open, and what a damaged log comes to.
//!
//! Knows: the public calls of the crates that make a node of a store, and what each line of its data is to answer.
//! Must not know: anything that these crates keep to themselves.
//! Promises its reader to print each line whose answer isn't the one that stands behind it, and how many agree. What
//! the lines say stands at the head of each file. It makes one folder beside its data, again for each store, and leaves
//! none.
#![tactic(auto)]

mod counts;
mod damage;
mod files;
mod opened;
mod stores;

use std::io;
use stores::Stores;
use test_lines::compare;

fn main(rt: HostRuntime) -> io::Result<()> {
    compare(&rt, "runs.txt", &mut Stores::new(&rt))?;
    compare(&rt, "folders.txt", &mut Stores::new(&rt))?;
    compare(&rt, "damage.txt", &mut Stores::new(&rt))?;
    files::remove(&rt)
}
