//! What is entered.
ghost use Rattle.std.specs.Prelude.{◌≡◌, []};

use engine_history::Step;
use ghost_list::GhostList;

/// A call's entry: whose it is, and one more than the place of the entry before of that session, 0 where there is none.
/// Contracts see all steps up to the call's end.
#[derive(Drop)]
pub struct Entry {
    pub session: u64,
    pub before: u64,
    pub past: GhostList<Step>,
}

impl Entry {
    /// The entry that stands before the first call.
    pub fn first() -> Entry
        ensures { result.past.items ≡ [] }
    {
        Entry {
            session: 0,
            before: 0,
            past: GhostList::new(),
        }
    }
}

// It has numbers, and what has no bytes.
unsafe impl Sync for Entry {}
