//! The kernel as a library: a client of a node alone (`alone`), and clients of an engine over a store, each on a thread
//! of its own (`threads`).
#![tactic(auto)]

mod alone;
mod threads;

use record_key::Refusal;
use std::fs;

/// The folder that the store is kept in.
const FOLDER: &str = "apples_store";

fn main(rt: HostRuntime) -> Result<(), Refusal> {
    alone::run(&rt)?;
    // The second engine goes on where the first one ended.
    for _ in 0..2 {
        let apples = threads::run(rt, rt.alloc(), FOLDER)?;
        // (a reader that is gone is no fault of the engine)
        let _ = println!(rt; "apples {apples}");
    }
    // (what is left of it is found by the next run)
    let _ = fs::remove_dir_all(&rt, FOLDER);
    Ok(())
}
