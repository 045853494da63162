//! When leaves are tended, and when a low number is handed over.

use engine_history::node_laws::Out;

/// How many operations are performed at least between two low numbers; as many as there are leaves where these are more,
/// so that to raise each leaf takes bounded time for each operation.
const LOW_STEP: u64 = 4096;

/// How many operations are performed for each leaf that is tended: an insert adds one record, and a leaf is split from
/// its ninth record on.
const TEND_STEP: u64 = 4;

/// How many operations were performed since a low number was handed over, and how many of them leaves weren't tended for
/// yet; and whether more were due at the last commit than were tended then. Contracts see nothing of it.
#[derive(Drop)]
pub(crate) struct Pace {
    low: u64,
    tend: u64,
    is_behind: bool,
}

impl Pace {
    /// Where the components were brought up, a low number is due with the next commit: redo has filled the leaves.
    pub(crate) fn new() -> Pace {
        Pace {
            low: LOW_STEP,
            tend: TEND_STEP,
            is_behind: false,
        }
    }

    /// Takes note of what the delivery of a reply came to: whether the reply was taken.
    pub(crate) fn took(&mut self, out: &Out) -> bool {
        match out {
            Out::Refused(_) => false,
            Out::Answered { .. } | Out::Undone(_) => {
                self.low = self.low.saturating_add(1);
                self.tend = self.tend.saturating_add(1);
                true
            }
            _ => true,
        }
    }

    /// Whether leaves are to be tended before the next commit.
    pub(crate) fn is_behind(&self) -> bool {
        self.is_behind
    }

    /// Whether leaves are to be tended.
    pub(crate) fn is_tend_due(&self) -> bool {
        self.tend >= TEND_STEP
    }

    /// Takes note of what tending a leaf came to: whether another one is due. Where there was nothing to do, none is until
    /// more is performed.
    pub(crate) fn tended(&mut self, out: &Out) -> bool {
        self.tend = match out {
            Out::Split(_) | Out::Merged(_) => self.tend.saturating_sub(TEND_STEP),
            _ => 0,
        };
        self.is_behind = self.is_tend_due();
        self.is_behind
    }

    /// Whether a low number is to be handed over, where there are so many leaves; then none is until more is performed.
    pub(crate) fn is_low_due(&mut self, leaves: u64) -> bool {
        let is_due = self.low >= LOW_STEP.max(leaves);
        if is_due {
            self.low = 0;
        }
        is_due
    }
}
