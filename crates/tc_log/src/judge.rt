//! Who is shown the records of a log while they are read.
ghost use Rattle.std.specs.Prelude.{◌≡◌, ◌+◌, List, [], ◌∷◌, length, OnOk, IsOkUnless};
ghost use Rattle.history.specs.Legal.{Fits};
ghost use Rattle.history.specs.declared.record.Record.{Record};

use ghost_list::GhostList;
use history::Record;
use record_key::Refusal;

/// What looks at one record after another, from the first on, so that each is read once.
pub trait Judge {
    /// Those that it was shown, the newest first.
    ghost shown: { Self → List Record };

    /// Looks at the next one, of this number, which fits those before it. Refused NoMemory.
    fn look(&mut self, next: &Record, number: u64) -> Result<(), Refusal>
        requires fits { Fits (shown self.old) next.now }
        requires number { number ≡ length (shown self.old) + 1 }
        ensures shown { OnOk result (shown self.new ≡ next.now ∷ shown self.old) }
        ensures memory { IsOkUnless result Refusal.NoMemory };
}

/// For whom any log will do.
#[derive(Drop)]
pub(crate) struct Unjudged {
    shown: GhostList<Record>,
}

impl Unjudged {
    /// That was shown none.
    pub(crate) fn new() -> Unjudged
        ensures { result.shown.items ≡ [] }
    {
        Unjudged {
            shown: GhostList::new(),
        }
    }
}

impl Judge for Unjudged {
    ghost shown = { λ it. it.shown.items };

    fn look(&mut self, next: &Record, _number: u64) -> Result<(), Refusal> {
        self.shown = self.shown.with(next);
        Ok(())
    }
}
