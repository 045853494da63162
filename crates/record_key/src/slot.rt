//! Where an entry is kept.

use std::alloc::Global;
use std::default::MadeWith;

/// An entry's number, and where among the bytes its key and its answer begin.
#[derive(Debug, Clone, Copy)]
pub(crate) struct Slot {
    pub number: u64,
    pub place: usize,
}

/// Stands in the unused places of a short list.
impl MadeWith<Global> for Slot {
    fn made_with(_alloc: Global) -> Slot {
        Slot {
            number: 0,
            place: 0,
        }
    }
}
