//! One measurement: readers that each make a fixed number of reads, and a raiser that raises until they are done.
ghost use Rattle.std.specs.Prelude.{◌≡◌, All, IsTrue};
ghost use Rattle.engine_marks.specs.Seen.{reader};

use engine_marks::{Marks, Seat};
use std::alloc::{AllocError, Global};
use std::io;
use std::sync::atomic::AtomicBool;
use std::sync::atomic::Ordering::SeqCst;
use std::thread::{Threads, join, map_vec};
use std::time::{Clock, Duration, Instant};

const READS: u64 = 100_000_000;

fn read_all(marks: &Marks, mut seat: Seat) -> u64
    requires { seat.marks ≡ marks.now }
{
    let mut last = 0;
    for _ in 0..READS {
        last = marks.read(&mut seat).0;
    }
    last
}

// How often each word was raised.
fn raise_until(marks: &Marks, mut raiser: Seat, done: &AtomicBool) -> u64
    requires { (raiser.marks ≡ marks.now) × IsTrue raiser.raises }
{
    for n in 0..u64::MAX {
        if done.load(SeqCst) {
            return n;
        }
        marks.raise_stable(&mut raiser, n);
        marks.raise_low(&mut raiser, n);
    }
    u64::MAX
}

/// What all readers did together in a second, and how often the raiser raised both words in it.
pub struct Rates {
    pub reads: u64,
    pub raises: u64,
}

fn read_beside_each_other<R: Threads + Sync>(
    rt: &R,
    marks: &Marks,
    seats: Vec<Seat>,
) -> Result<Vec<u64>, AllocError>
    requires { All (λ seat. seat ≡ reader marks.now 0 0) seats.items }
{
    map_vec(rt, seats, &|seat: Seat| read_all(marks, seat))
}

fn in_a_second(count: u64, took: Duration) -> u64 {
    let micros = u64::try_from(took.as_micros()).unwrap_or(u64::MAX);
    count.saturating_mul(1_000_000) / micros.max(1)
}

/// Each reader makes `READS` reads, and the raiser goes on until they are done.
pub fn measured<R: Threads + Clock + Sync>(
    rt: &R,
    alloc: Global,
    readers: usize,
) -> io::Result<Rates> {
    let (marks, raiser, seats) = Marks::new(alloc, readers)?;
    let shared = &marks;
    let done = AtomicBool::new(false);
    let start = Instant::now(rt)?;
    let reading = ||
        requires { All (λ seat. seat ≡ reader shared.now 0 0) seats.items }
    {
        let read = read_beside_each_other(rt, shared, seats);
        done.store(true, SeqCst);
        read
    };
    let (read, raises) = join(rt, reading, || raise_until(shared, raiser, &done));
    let took = start.elapsed(rt)?;
    let count = read?.len() as u64;
    Ok(Rates {
        reads: in_a_second(count.saturating_mul(READS), took),
        raises: in_a_second(raises, took),
    })
}
