//! Where the frames of a buffer begin, in little memory: the latest place is kept and each eighth, and the others are
//! found from these.
ghost use Rattle.std.specs.Prelude.{◌≡◌, ◌+◌, ◌<◌, ◌≤◌, true, false, [], length, OnOk, OnErr};
ghost use Rattle.codec.specs.FrameIndex.{next_at, place_at, Indexes};
ghost use Rattle.codec.specs.Marks.{marked};

use crate::frame::HEADER_LEN;
use byteorder::{BigEndian, ByteOrder};
use std::alloc::{AllocError, Global};
use std::marker::Model;

/// Of so many frames the first is marked.
const STEP: usize = 8;

/// Where frames begin that stand one after another from the front of a buffer. It doesn't hold the buffer.
#[derive(Drop)]
pub struct FrameIndex {
    // Where each eighth frame begins. The first of all begins at 0: in its stead stands where the latest begins.
    marks: Vec<usize>,
    // How many frames there are.
    count: usize,
}

impl Model for FrameIndex {
    ghost use Rattle.std.specs.Prelude.{nat_lt, vec_len, vec_capacity};
    ghost use Rattle.codec.specs.FrameIndex.{FrameIndexView};

    ghost Value = { FrameIndexView };

    ghost view = { λ x. record {
      marks = x.marks.items;
      count = x.count;
      has_room = nat_lt (vec_len x.marks) (vec_capacity x.marks);
    } };
}

impl FrameIndex {
    /// Of no frames.
    pub fn new(alloc: Global) -> FrameIndex
        ensures marks { result.marks ≡ [] }
        ensures count { result.count ≡ 0 }
    {
        FrameIndex {
            marks: Vec::new(alloc),
            count: 0,
        }
    }

    /// Forgets all frames. Takes no memory, and keeps its room.
    pub fn clear(&mut self)
        ensures marks { self.new.marks ≡ [] }
        ensures count { self.new.count ≡ 0 }
        ensures room { self.old.has_room ≡ true → self.new.has_room ≡ true }
    {
        self.marks.clear();
        self.count = 0;
    }

    /// How many frames there are.
    pub fn len(&self) -> usize
        ensures { result ≡ self.now.count }
    {
        self.count
    }

    /// Makes room for one more frame.
    pub fn reserve(&mut self) -> Result<(), AllocError>
        ensures marks { self.new.marks ≡ self.old.marks }
        ensures count { self.new.count ≡ self.old.count }
        ensures room { OnOk result (self.new.has_room ≡ true) }
        ensures refused { OnErr result (self.old.has_room ≡ false) }
    {
        self.marks.reserve(1)
    }

    /// Takes in the next frame, which begins at this place.
    pub fn push_reserved(&mut self, place: usize)
        requires room { self.old.has_room ≡ true }
        requires few { self.old.count < 18446744073709551615 }
        ensures marks { self.new.marks ≡ marked self.old.marks self.old.count place }
        ensures count { self.new.count ≡ self.old.count + 1 }
    {
        if self.count % STEP == 0 {
            self.marks.push_reserved(place);
        }
        if !self.marks.is_empty() {
            self.marks[0] = place;
        }
        self.count += 1;
    }

    /// Where the frame begins that has so many before it, told by reading at most seven lengths, none for the latest.
    pub fn place(&self, bytes: &[u8], before: usize) -> usize
        requires indexed { Indexes bytes.now self.now.marks self.now.count }
        requires there { before < self.now.count }
        ensures { result ≡ place_at bytes.now before }
    {
        if before == self.count - 1 {
            return self.marks[0];
        }
        let mut place = if before < STEP {
            0
        } else {
            self.marks[before / STEP]
        };
        for _ in 0..before % STEP {
            place = after(bytes, place);
        }
        place
    }
}

/// Where the frame after the one at a place begins.
#[tactic(auto, unfolding(crate::specs::FrameIndex::next_at, crate::specs::Fields::first_number))]
fn after(bytes: &[u8], place: usize) -> usize
    requires { next_at bytes.now place ≤ length bytes.now }
    ensures { result ≡ next_at bytes.now place }
{
    place + (HEADER_LEN + BigEndian::read_u64(&bytes[place..]) as usize)
}
