//! Cases of keys, values, operations, inverses, entries and abstract page LSNs; and of records of both logs, requests,
//! replies and images of leaves: bytes, and what they spell.
//!
//! Knows: the public calls of these crates, the formats of their bytes, and what each line of its data is to answer.
//! Must not know: anything that these crates keep to themselves.
//! Promises its reader to print each line whose answer isn't the one that stands behind it, and how many agree. What is
//! read is written again, and named where that isn't what was read.
#![tactic(auto)]

mod abstract_lsns;
mod asked;
mod calls;
mod dc_records;
mod images;
mod keys;
mod packed;
mod records;
mod replies;
mod requests;
mod rows;
mod tables;
mod walking;
mod written;

use abstract_lsns::AbstractLsns;
use calls::Calls;
use keys::Keys;
use packed::Packed;
use std::io;
use tables::Tables;
use test_lines::compare;

/// What the bytes are that are spelled.
const SPELLED: [&str; 7] = [
    "records.txt",
    "requests.txt",
    "replies.txt",
    "rows.txt",
    "images.txt",
    "dc_records.txt",
    "changes.txt",
];

fn main(rt: HostRuntime) -> io::Result<()> {
    compare(&rt, "keys.txt", &mut Keys { alloc: rt.alloc() })?;
    compare(&rt, "tables.txt", &mut Tables::new(rt.alloc()))?;
    compare(&rt, "packed.txt", &mut Packed::new(rt.alloc()))?;
    compare(&rt, "abstract_lsns.txt", &mut AbstractLsns::new(rt.alloc()))?;
    for file in SPELLED {
        compare(&rt, file, &mut Calls { alloc: rt.alloc() })?;
    }
    Ok(())
}
