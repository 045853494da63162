//! The two words, and the four atomic steps on them.
ghost use Rattle.std.specs.Prelude.{◌≡◌, ◌≤◌, length, max, All, IfOk, IsTrue};
ghost use Rattle.engine_marks.specs.Bytes.{bytes_of};
ghost use Rattle.engine_marks.specs.contracts.seat.Seat.{the_row};
ghost use Rattle.engine_marks.specs.Seen.{having_read, raiser, reader, seeing, SeenBy};

use crate::rule::{Come, Meet, RaiseLow, RaiseStable, ReadLow, ReadStable, Rising, Tell, View};
use crate::seat::Seat;
use atomic_table::Table;
use std::alloc::{AllocError, Allocator, Global};
use std::marker::Model;
use std::mem;

const STABLE: usize = 0;

const LOW: usize = 1;

/// Two words that only rise, stable and low, with low at most stable. One seat raises them, and any number of others
/// read them. A clause sees marks as the name that they share with their seats.
#[derive(Drop)]
pub struct Marks<A: Allocator = Global> {
    table: Table<(), View, (), Rising, A>,
}

impl<A: Allocator> Model for Marks<A> {
    ghost use Rattle.std.specs.Prelude.{◌≡◌};
    ghost use Rattle.atomic_table.specs.Seated.{TableId, table_id_coded};

    ghost Value = { TableId };

    ghost coded = { table_id_coded };

    ghost view = { λ m. m.table.shared.table_id };

    ghost invariant = { λ m. m.table.shared.table_id.words ≡ 2 };
}

impl<A: Allocator> Marks<A> {
    /// Marks with both words 0, the seat that raises them, and one seat for each reader. The one refusal is for want
    /// of memory.
    pub fn new(alloc: A, readers: usize) -> Result<(Marks<A>, Seat, Vec<Seat, A>), AllocError>
    where
        A: Clone,
        ensures raiser { IfOk result (λ made. made.1 ≡ raiser made.0 0 0) }
        ensures count { IfOk result (λ made. length made.2.items ≡ readers) }
        ensures readers { IfOk result (λ made. All (λ seat. seat ≡ reader made.0 0 0) made.2.items) }
    {
        let mut seats = Vec::with_capacity(alloc.clone()?, readers)?;
        let (table, place) = Table::of_words(alloc, &[0, 0], &())?;
        let marks = Marks { table };
        for _ in 0..readers {
            seats.push(marks.reader_seat())?;
        }
        Ok((marks, Seat { place }, seats))
    }

    fn reader_seat(&self) -> Seat
        ensures { result ≡ reader self.now 0 0 }
    {
        Seat {
            place: self.table.shared.load_new_seat::<Come>(STABLE).1,
        }
    }

    /// The words as two loads find them, stable before low. It neither waits nor fails.
    pub fn read(&self, seat: &mut Seat) -> (u64, u64)
        requires { seat.old.marks ≡ self.now }
        ensures ordered { result.1 ≤ result.0 }
        ensures never_falls { (seat.old.stable ≤ result.0) × (seat.old.low ≤ result.1) }
        // the count of readings moves on in no other way, so the answer is what this call has read
        ensures seen { seat.new ≡ having_read seat.old result.0 result.1 }
        // so there is nothing in a seat to answer from, or to tell whose it is: what the raiser's finds, each seat
        // finds
        ensures seat_has_no_bytes { bytes_of the_row ≡ 0 }
        ensures raiser_finds_its_own { IsTrue seat.old.raises → result ≡ (seat.old.stable, seat.old.low) }
    {
        // low first: stable was no less then, and has not fallen since
        let low = self.find_low(seat);
        let stable = self.find_stable(seat);
        (stable, low)
    }

    fn find_low(&self, seat: &mut Seat) -> u64
        requires { seat.old.marks ≡ self.now }
        ensures never_falls { seat.old.low ≤ result }
        ensures seen { seat.new ≡ seeing seat.old (max seat.old.stable result) result }
        ensures raiser_finds_its_own { IsTrue seat.old.raises
            → (result ≡ seat.old.low) × (result ≤ seat.old.stable) }
    {
        self.table.shared.load::<ReadLow>(&mut seat.place, LOW)
    }

    fn find_stable(&self, seat: &mut Seat) -> u64
        requires { seat.old.marks ≡ self.now }
        ensures never_falls { seat.old.stable ≤ result }
        ensures seen { seat.new ≡ having_read seat.old result seat.old.low }
        ensures raiser_finds_its_own { IsTrue seat.old.raises → result ≡ seat.old.stable }
    {
        self.table
            .shared
            .load::<ReadStable>(&mut seat.place, STABLE)
    }

    /// Stable becomes the greater of `n` and what it was: both words are what the raiser's seat has seen.
    pub fn raise_stable(&self, seat: &mut Seat, n: u64)
        requires raiser { (seat.old.marks ≡ self.now) × IsTrue seat.old.raises }
        ensures raised { seat.new ≡ seeing seat.old (max seat.old.stable n) seat.old.low }
    {
        let shared = &self.table.shared;
        shared.fetch_max::<RaiseStable>(&mut seat.place, STABLE, n);
    }

    /// Low becomes the greater of `n` and what it was. It may not pass stable.
    pub fn raise_low(&self, seat: &mut Seat, n: u64)
        requires raiser { (seat.old.marks ≡ self.now) × IsTrue seat.old.raises }
        requires ordered { n ≤ seat.old.stable }
        ensures raised { seat.new ≡ seeing seat.old seat.old.stable (max seat.old.low n) }
    {
        let shared = &self.table.shared;
        shared.fetch_max::<RaiseLow>(&mut seat.place, LOW, n);
    }

    /// Hands on all that the raiser's seat has seen, which is no less than the reader's had. Of the two, the raiser's
    /// seat is first. Each of its three steps reads stable.
    pub fn learn(&self, raiser_seat: &mut Seat, seat: &mut Seat)
        requires raiser { (raiser_seat.old.marks ≡ self.now) × IsTrue raiser_seat.old.raises }
        requires reader { seat.old.marks ≡ self.now }
        ensures raiser_as_before { raiser_seat.new ≡ raiser_seat.old }
        ensures learned { seat.new ≡ reader self.now raiser_seat.old.stable raiser_seat.old.low }
        ensures had_seen_no_more { SeenBy seat.old raiser_seat.old }
    {
        let shared = &self.table.shared;
        let told = shared.split_seat::<Tell>(&mut raiser_seat.place);
        let former = mem::replace(&mut seat.place, told);
        shared.join_seat::<Meet>(&mut raiser_seat.place, former);
        // tells that the reader had seen no more
        shared.load::<Meet>(&mut raiser_seat.place, STABLE);
    }
}
