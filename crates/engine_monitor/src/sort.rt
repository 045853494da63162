//! What a call asks for.
ghost use Rattle.std.specs.Prelude.{◌≡◌};
ghost use Rattle.engine_monitor.specs.Answering.{sort_of};

use engine_guarded::engine_answers::Ask;

/// What a call asks for, without what of. What has no answer but its entry's is asked for at once.
#[derive(Debug, Clone, Copy, PartialEq, Eq)]
pub enum Sort {
    Act,
    Get,
    Scan,
    GoBack,
    Rollback,
    Commit,
    AtOnce,
}

impl Sort {
    /// Of a call of a transaction.
    pub fn of(ask: &Ask) -> Sort
        ensures { result ≡ sort_of ask.now }
    {
        match ask {
            Ask::Act(_) => Sort::Act,
            Ask::Get(_) => Sort::Get,
            Ask::Scan(_, _) => Sort::Scan,
            Ask::Save => Sort::AtOnce,
            Ask::GoBack(_) => Sort::GoBack,
            Ask::Rollback => Sort::Rollback,
            Ask::Commit => Sort::Commit,
        }
    }
}
