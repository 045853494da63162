//! A client's call.
use record_key::{Key, Op, Refusal};
use test_lines::Words;
use test_model::node_laws::Event;

/// What a client asks its session for.
#[derive(Drop)]
pub enum Call {
    Begin,
    Act(Op),
    Get(Key),
    Scan(Key, Option<Key>),
    Save,
    BackTo(u64),
    Rollback,
    Commit,
}

impl Call {
    /// The call that these words say.
    pub fn read(words: &mut Words<'_>) -> Result<Call, Refusal> {
        let first = *words;
        match words.word() {
            "begin" => Ok(Call::Begin),
            "save" => Ok(Call::Save),
            "back" => Ok(Call::BackTo(words.number()?)),
            "rollback" => Ok(Call::Rollback),
            "commit" => Ok(Call::Commit),
            "get" => Ok(Call::Get(words.key()?)),
            "scan" => Ok(Call::Scan(words.key()?, end(words)?)),
            _ => {
                *words = first;
                Ok(Call::Act(words.op()?))
            }
        }
    }

    /// The event that the call is of this transaction.
    pub fn event(&self, txn: u64) -> Event {
        match self {
            Call::Begin => Event::Begin,
            Call::Act(op) => Event::Act {
                txn,
                op: op.copied(),
            },
            Call::Get(key) => Event::Get {
                txn,
                key: key.copied(),
            },
            Call::Scan(low, high) => Event::Scan {
                txn,
                low: low.copied(),
                high: copied_end(high),
            },
            Call::Save => Event::Save { txn },
            Call::BackTo(savepoint) => Event::GoBack {
                txn,
                savepoint: *savepoint,
            },
            Call::Rollback => Event::Rollback { txn },
            Call::Commit => Event::Commit { txn },
        }
    }
}

// The end of a range: a key, or none where nothing is left.
fn end(words: &mut Words<'_>) -> Result<Option<Key>, Refusal> {
    if words.is_empty() {
        return Ok(None);
    }
    Ok(Some(words.key()?))
}

fn copied_end(high: &Option<Key>) -> Option<Key> {
    match high {
        Some(high) => Some(high.copied()),
        None => None,
    }
}
