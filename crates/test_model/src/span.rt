//! Spans of keys.
use record_key::Key;

/// One key, or the keys from `low` on and below `high`, or to the end.
#[derive(Drop)]
pub enum Span {
    Key(Key),
    Range { low: Key, high: Option<Key> },
}

impl Span {
    pub fn range(low: &Key, high: &Option<Key>) -> Span {
        Span::Range {
            low: low.copied(),
            high: key_copied(high),
        }
    }

    pub fn copied(&self) -> Span {
        match self {
            Span::Key(key) => Span::Key(key.copied()),
            Span::Range { low, high } => Span::range(low, high),
        }
    }

    pub fn has(&self, key: &Key) -> bool {
        match self {
            Span::Key(one) => one == key,
            Span::Range { low, high } => low <= key && is_above(high, key),
        }
    }

    /// No key is in it.
    pub fn is_empty(&self) -> bool {
        match self {
            Span::Key(_) => false,
            Span::Range { low, high } => !is_above(high, low),
        }
    }

    /// They share a key. One of them is a single key: two ranges are never asked about.
    pub fn meets(&self, other: &Span) -> bool {
        match self {
            Span::Key(key) => other.has(key),
            Span::Range { .. } => match other {
                Span::Key(key) => self.has(key),
                Span::Range { .. } => false,
            },
        }
    }
}

fn key_copied(key: &Option<Key>) -> Option<Key> {
    match key {
        Some(key) => Some(key.copied()),
        None => None,
    }
}

/// The end, if there is one, is above the key.
fn is_above(end: &Option<Key>, key: &Key) -> bool {
    match end {
        Some(end) => key < end,
        None => true,
    }
}
