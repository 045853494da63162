//! Measures parts of a node by themselves: the marks, the log's bytes, the leaves. `bench/measure.sh` says what is
//! printed.
#![tactic(auto)]

ghost use Rattle.std.specs.Prelude.{◌<◌, ◌≤◌};

mod calls;
mod draws;
mod leaves;
mod opening;
mod reads;
mod records;

use dc_tree::{LeafList, LeafSet, Tree};
use std::{env, io};

const READER_COUNTS: [usize; 2] = [1, 3];

fn main(rt: HostRuntime) -> io::Result<()> {
    let words: Vec<String> = env::args(&rt)?.collect(rt.alloc())?;
    let [_, part, ..] = words.as_slice() else {
        return usage(&rt);
    };
    match part.as_bytes() {
        b"marks" => {
            for readers in READER_COUNTS {
                print_reads(&rt, readers, reads::measured(&rt, rt.alloc(), readers)?)?;
            }
            Ok(())
        }
        b"codec" => print_records(&rt),
        b"leaves" => print_leaves(&rt),
        _ => usage(&rt),
    }
}

/// How many reads a second of the marks so many reader threads make beside a thread that raises them.
fn print_reads(rt: &HostRuntime, readers: usize, rates: reads::Rates) -> io::Result<()> {
    let reads::Rates { reads, raises } = rates;
    println!(rt; "readers {readers}: {reads} reads a second beside {raises} raises of both words")?;
    Ok(())
}

/// How many megabytes a second of a log's records are written and read, and how many records a second are opened.
fn print_records(rt: &HostRuntime) -> io::Result<()> {
    let records::Times {
        records,
        bytes,
        put,
        taken,
    } = records::measured(rt, rt.alloc())?;
    println!(rt;
        "records {records}: {bytes} bytes, put at {put} and taken at {taken} megabytes a second"
    )?;
    let few = opening::opened(rt, rt.alloc(), 2_500)?;
    let many = opening::opened(rt, rt.alloc(), 250_000)?;
    println!(rt; "records 10000: {few} opened a second")?;
    println!(rt; "records 1000000: {many} opened a second")?;
    Ok(())
}

/// How many nanoseconds calls on the leaves of a tree and of a list take.
fn print_leaves(rt: &HostRuntime) -> io::Result<()> {
    print_times::<Tree>(rt, "tree", 1_000)?;
    print_times::<Tree>(rt, "tree", 1_000_000)?;
    print_times::<LeafList>(rt, "list", 1_000)?;
    print_times::<LeafList>(rt, "list", 100_000)
}

/// Measures leaves with so many records.
fn print_times<L: LeafSet + Drop>(rt: &HostRuntime, name: &str, records: u64) -> io::Result<()>
    requires some { 0 < records }
    requires few { records ≤ 1_000_000 }
{
    let leaves::Times {
        get,
        perform,
        tend_tenths,
    } = leaves::measured::<L, _>(rt, rt.alloc(), records)?;
    let (tend, part) = (tend_tenths / 10, tend_tenths % 10);
    println!(rt;
        "leaves {name} {records}: get {get} ns, perform {perform} ns, to tend {tend}.{part} ns"
    )?;
    Ok(())
}

fn usage(rt: &HostRuntime) -> io::Result<()> {
    println!(rt; "usage: bench_parts marks|codec|leaves")?;
    Ok(())
}
