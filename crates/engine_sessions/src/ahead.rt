//! Memory ahead of a session's calls.
use std::alloc::{AllocError, Global};

/// How many calls are made before the heap grows again.
const CALLS: u32 = 36;

/// By how many bytes it grows: so many calls take somewhat less. What is free at a heap's end is given back to the system
/// from 128 KB on, where a piece of 64 KB or more is freed.
const BYTES: usize = 60_000;

/// Has the heap of a session's thread grow for many calls at once, and while the thread holds no lock. Left to itself it
/// grows a page at a time, for which every thread is held up.
#[derive(Drop)]
pub(crate) struct Ahead {
    alloc: Global,
    left: u32,
}

impl Ahead {
    pub(crate) fn new(alloc: Global) -> Ahead {
        Ahead { alloc, left: 0 }
    }

    /// A call is about to be made.
    pub(crate) fn call(&mut self) {
        if self.left > 0 {
            self.left -= 1;
            return;
        }
        self.left = CALLS;
        // Where it is refused the call itself says so. Nothing is written there: a fill took more than the heap's growth.
        let piece: Result<Vec<u8>, AllocError> = Vec::with_capacity(self.alloc, BYTES);
        drop(piece);
    }
}
