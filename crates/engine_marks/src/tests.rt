ghost use Rattle.std.specs.Prelude.{◌≡◌, IsTrue};

use crate::{Marks, Seat};
use std::test::Fail;
use std::thread::{Threads, join};

const RAISES: u64 = 100_000;

const READS: u64 = 100_000;

#[test]
fn alone_reads_what_it_raised(rt: HostRuntime) -> Result<(), Fail> {
    let (marks, mut raiser, readers) = Marks::new(rt.alloc(), 0)?;
    assert_eq!(rt; readers.len(), 0);
    assert_eq!(rt; marks.read(&mut raiser), (0, 0));
    marks.raise_stable(&mut raiser, 5);
    assert_eq!(rt; marks.read(&mut raiser), (5, 0));
    marks.raise_low(&mut raiser, 3);
    assert_eq!(rt; marks.read(&mut raiser), (5, 3));
    marks.raise_stable(&mut raiser, 4);
    marks.raise_low(&mut raiser, 2);
    assert_eq!(rt; marks.read(&mut raiser), (5, 3));
    Ok(())
}

#[test]
fn readers_find_what_was_raised(rt: HostRuntime) -> Result<(), Fail> {
    let (marks, mut raiser, mut readers) = Marks::new(rt.alloc(), 2)?;
    assert_eq!(rt; readers.len(), 2);
    marks.raise_stable(&mut raiser, 7);
    marks.raise_low(&mut raiser, 6);
    for seat in &mut readers {
        assert_eq!(rt; marks.read(seat), (7, 6));
    }
    Ok(())
}

// Whether each pair is no less than the one before it, with low at most stable.
fn keeps_rising(marks: &Marks, mut seat: Seat) -> (bool, Seat)
    requires { seat.marks ≡ marks.now }
    ensures { result.1.marks ≡ seat.marks }
{
    let (mut stable, mut low) = (0, 0);
    let mut rising = true;
    for _ in 0..READS {
        let found = marks.read(&mut seat);
        rising = rising && stable <= found.0 && low <= found.1 && found.1 <= found.0;
        (stable, low) = found;
    }
    (rising, seat)
}

type Watched = (bool, Seat);

fn both_keep_rising<R: Threads + Sync>(
    rt: &R,
    marks: &Marks,
    first: Seat,
    second: Seat,
) -> (Watched, Watched)
    requires { (first.marks ≡ marks.now) × (second.marks ≡ marks.now) }
    ensures { (result.0.1.marks ≡ marks.now) × (result.1.1.marks ≡ marks.now) }
{
    join(
        rt,
        || keeps_rising(marks, first),
        || keeps_rising(marks, second),
    )
}

fn raise_all(marks: &Marks, mut raiser: Seat)
    requires { (raiser.marks ≡ marks.now) × IsTrue raiser.raises }
{
    for n in 0..RAISES {
        marks.raise_stable(&mut raiser, n + 1);
        marks.raise_low(&mut raiser, n);
    }
}

#[test]
fn readers_beside_a_raiser_see_the_words_rise(rt: HostRuntime) -> Result<(), Fail> {
    let (marks, raiser, mut readers) = Marks::new(rt.alloc(), 2)?;
    let (Some(first), Some(second)) = (readers.pop(), readers.pop()) else {
        panic!(&rt; "a seat is missing")
    };
    let shared = &marks;
    let watching = || both_keep_rising(&rt, shared, first, second);
    let ((one, other), ()) = join(&rt, watching, || raise_all(shared, raiser));
    assert!(rt; one.0 && other.0);
    for (_, mut seat) in [one, other] {
        assert_eq!(rt; marks.read(&mut seat), (100_000, 99_999));
    }
    Ok(())
}

#[test]
fn a_reader_learns_what_the_raiser_knows(rt: HostRuntime) -> Result<(), Fail> {
    let (marks, mut raiser, mut readers) = Marks::new(rt.alloc(), 1)?;
    let Some(mut reader) = readers.pop() else {
        panic!(&rt; "the seat is missing")
    };
    marks.raise_stable(&mut raiser, 9);
    marks.learn(&mut raiser, &mut reader);
    assert_eq!(rt; marks.read(&mut reader), (9, 0));
    marks.raise_low(&mut raiser, 9);
    assert_eq!(rt; marks.read(&mut reader), (9, 9));
    Ok(())
}
