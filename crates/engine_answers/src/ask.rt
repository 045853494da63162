//! What a session asks for within its transaction.
ghost use Rattle.std.specs.Prelude.{◌≡◌};
ghost use Rattle.engine_answers.specs.Asking.{event_of};

use engine_history::node_laws::Event;
use record_key::{Key, Op};

/// A call of a session's transaction.
#[derive(Drop)]
pub enum Ask {
    Act(Op),
    Get(Key),
    Scan(Key, Option<Key>),
    Save,
    GoBack(u64),
    Rollback,
    Commit,
}

impl Ask {
    /// The event that it is of this transaction.
    pub fn into_event(self, txn: u64) -> Event
        ensures { result ≡ event_of txn self }
    {
        match self {
            Ask::Act(op) => Event::Act { txn, op },
            Ask::Get(key) => Event::Get { txn, key },
            Ask::Scan(low, high) => Event::Scan { txn, low, high },
            Ask::Save => Event::Save { txn },
            Ask::GoBack(savepoint) => Event::GoBack { txn, savepoint },
            Ask::Rollback => Event::Rollback { txn },
            Ask::Commit => Event::Commit { txn },
        }
    }
}
