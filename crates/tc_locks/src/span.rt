//! Spans of keys, and when two locks conflict.
ghost use Rattle.std.specs.Prelude.{◌≡◌};
ghost use Rattle.history.specs.Spans.{at_key, do_conflict};
ghost use Rattle.record_key.specs.Order.{ends_above};
ghost use Rattle.tc_locks.specs.Meant.{mode_meant, low_of, high_of, span_of, later, clash};

use record_key::Key;

/// What a span is held for. Two of different transactions agree only where both are shared, or both for increments.
#[derive(Debug, Clone, Copy, PartialEq, Eq, PartialOrd, Ord)]
pub enum Mode {
    Shared,
    Increment,
    Exclusive,
}

/// Keys that are held together.
#[derive(Debug, Clone, PartialEq, Eq, PartialOrd, Ord, Drop)]
pub enum Span {
    /// The keys from `low` on and below `high`, or to the end.
    Range { low: Key, high: Option<Key> },
    /// One key.
    Key(Key),
}

/// A span and what it is held for.
#[derive(Debug, Clone, PartialEq, Eq, PartialOrd, Ord, Drop)]
pub struct Lock {
    pub span: Span,
    pub mode: Mode,
}

impl Mode {
    fn conflicts(self, other: Mode) -> bool
        ensures { result ≡ do_conflict (mode_meant self) (mode_meant other) }
    {
        match (self, other) {
            (Mode::Shared, Mode::Shared) => false,
            (Mode::Increment, Mode::Increment) => false,
            (Mode::Shared, Mode::Increment) => true,
            (Mode::Shared, Mode::Exclusive) => true,
            (Mode::Increment, Mode::Shared) => true,
            (Mode::Increment, Mode::Exclusive) => true,
            (Mode::Exclusive, _) => true,
        }
    }
}

impl Span {
    /// The first key of the span.
    pub fn low(&self) -> &Key
        ensures { result.now ≡ low_of self.now }
    {
        match self {
            Span::Key(key) => key,
            Span::Range { low, .. } => low,
        }
    }

    /// Whether the key is below the span's upper end.
    pub fn ends_above(&self, key: &Key) -> bool
        ensures { result ≡ ends_above (high_of self.now) key.now }
    {
        match self {
            Span::Key(last) => *key <= *last,
            Span::Range { high, .. } => match high {
                Some(high) => *key < *high,
                None => true,
            },
        }
    }

    /// Whether the upper end is above the lower one, as it always is of one key.
    pub fn is_range(&self) -> bool
        ensures { result ≡ ends_above (high_of self.now) (low_of self.now) }
    {
        self.ends_above(self.low())
    }

    /// The same span again. Takes no memory.
    pub fn copied(&self) -> Span
        ensures { result ≡ self.now }
    {
        self.clone().unwrap()
    }
}

impl Lock {
    /// One key, held for this.
    pub fn of_key(key: &Key, mode: Mode) -> Lock
        ensures { span_of result ≡ at_key (mode_meant mode) key.now }
    {
        Lock {
            span: Span::Key(key.copied()),
            mode,
        }
    }

    /// Whether no two transactions may hold both.
    pub fn conflicts(&self, other: &Lock) -> bool
        ensures { result ≡ clash (span_of self.now) (span_of other.now) }
    {
        let first = later(self.span.low(), other.span.low());
        self.mode.conflicts(other.mode)
            && self.span.ends_above(first)
            && other.span.ends_above(first)
    }

    /// The same lock again. Takes no memory.
    pub fn copied(&self) -> Lock
        ensures { result ≡ self.now }
    {
        self.clone().unwrap()
    }
}

fn later<'a>(a: &'a Key, b: &'a Key) -> &'a Key
    ensures { result.now ≡ later a.now b.now }
{
    if *a < *b { b } else { a }
}
