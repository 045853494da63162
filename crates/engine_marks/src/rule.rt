//! What a seat at the table of the two words knows, the rule that each step keeps, and what each step tells.
use atomic_table::{Join, Play, Split, TableRule};

/// Both words, as they once were.
pub(crate) struct Pair {
    pub(crate) stable: u64,
    pub(crate) low: u64,
}

/// What a seat knows: whether it raises, the greatest pair that it has seen, the pair that the seat which it met last
/// had seen, and how often both words were read by it. It is for the proofs alone: no value of it is made.
pub(crate) struct View {
    pub(crate) raises: bool,
    pub(crate) seen: Pair,
    pub(crate) met: Pair,
    pub(crate) readings: u64,
}

/// No word is below what a seat has seen, the raiser has seen just the words, and low is at most stable.
pub(crate) struct Rising;

impl TableRule<(), View, ()> for Rising {
    ghost use Rattle.engine_marks.specs.Rule.{Holds, raiser_at_first};

    ghost holds = { λ _. Holds };

    ghost first = { λ _. raiser_at_first };
}

pub(crate) struct Come;

impl Play<(), View> for Come {
    ghost use Rattle.engine_marks.specs.Rule.{came};

    ghost then = { came };
}

pub(crate) struct ReadLow;

impl Play<(), View> for ReadLow {
    ghost use Rattle.engine_marks.specs.Rule.{low_read};

    ghost then = { low_read };
}

pub(crate) struct ReadStable;

impl Play<(), View> for ReadStable {
    ghost use Rattle.engine_marks.specs.Rule.{stable_read};

    ghost then = { stable_read };
}

pub(crate) struct RaiseStable;

impl Play<(), View> for RaiseStable {
    ghost use Rattle.engine_marks.specs.Rule.{stable_raised};

    ghost then = { stable_raised };
}

pub(crate) struct RaiseLow;

impl Play<(), View> for RaiseLow {
    ghost use Rattle.engine_marks.specs.Rule.{low_raised};

    ghost then = { low_raised };
}

/// A new reader is told what a seat has seen.
pub(crate) struct Tell;

impl Split<View> for Tell {
    ghost use Rattle.engine_marks.specs.Rule.{told};

    ghost left = { λ v. v };

    ghost right = { told };
}

/// The raiser takes a reader's seat, and a read by it then tells that the reader had seen no more.
pub(crate) struct Meet;

impl Join<View> for Meet {
    ghost use Rattle.engine_marks.specs.Rule.{meeting, newcomer};

    ghost both = { meeting };

    ghost spent = { newcomer };
}

impl Play<(), View> for Meet {
    ghost use Rattle.engine_marks.specs.Rule.{compared};

    ghost then = { compared };
}
