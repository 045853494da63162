//! How far the walks came.
use node_laws::Out;
use record_key::{Answer, Op, Refusal};
use test_model::Model;

/// How often each thing happened.
#[derive(Clone, Copy)]
pub struct Counts {
    answers: u64,
    added: u64,
    not_numbers: u64,
    /// Increments that were logged while another transaction had added to the key.
    beside_adders: u64,
    /// Increments that were answered before an earlier one on the key.
    overtaking: u64,
    reads: u64,
    undone: u64,
    savepoints: u64,
    backs: u64,
    rolled_back: u64,
    committed: u64,
    sessions: u64,
    busy: u64,
    /// Of these, where one held the key that had committed and wasn't told so.
    busy_committing: u64,
    /// Where one held the key whom a crash had found open.
    busy_loser: u64,
    full: u64,
    bad_savepoint: u64,
    splits: u64,
    merges: u64,
    flushes: u64,
    checkpoints: u64,
    crashes: u64,
    restarts: u64,
    /// Restarts of the transaction component.
    reopened: u64,
    /// Operations that were answered and that a crash of it has lost.
    lost_answers: u64,
    /// Whom the restarts found open.
    losers: u64,
    lost: u64,
    /// Beginnings, operations and reads of clients beside those who are to be undone.
    beside_losers: u64,
    /// Refusals since a device failed.
    failed: u64,
}

impl Counts {
    pub fn new() -> Counts {
        Counts {
            answers: 0,
            added: 0,
            not_numbers: 0,
            beside_adders: 0,
            overtaking: 0,
            reads: 0,
            undone: 0,
            savepoints: 0,
            backs: 0,
            rolled_back: 0,
            committed: 0,
            sessions: 0,
            busy: 0,
            busy_committing: 0,
            busy_loser: 0,
            full: 0,
            bad_savepoint: 0,
            splits: 0,
            merges: 0,
            flushes: 0,
            checkpoints: 0,
            crashes: 0,
            restarts: 0,
            reopened: 0,
            lost_answers: 0,
            losers: 0,
            lost: 0,
            beside_losers: 0,
            failed: 0,
        }
    }

    /// The transaction component was restarted and found these open.
    pub fn count_losers(&mut self, losers: &[u64]) {
        more(&mut self.reopened, 1);
        more(&mut self.losers, losers.len());
    }

    /// So many operations that were answered don't stand in the log that was kept.
    pub fn count_lost_answers(&mut self, lost: usize) {
        more(&mut self.lost_answers, lost);
    }

    /// Counts what an event came to. The model doesn't know of it yet.
    pub fn count(&mut self, out: &Out, model: &Model) {
        if let Out::Begun(_) | Out::Logged(_) | Out::Asked(_) = out {
            more(
                &mut self.beside_losers,
                usize::from(!model.losers.is_empty()),
            );
        }
        match out {
            Out::Answered { txn, answer } => self.count_answer(*txn, answer, model),
            Out::Logged(_) => more(&mut self.beside_adders, usize::from(is_beside(model))),
            Out::Row { .. } | Out::Rows { .. } => more(&mut self.reads, 1),
            Out::Undone(_) => more(&mut self.undone, 1),
            Out::Saved(_) => more(&mut self.savepoints, 1),
            Out::Back { .. } => more(&mut self.backs, 1),
            Out::RolledBack(_) => more(&mut self.rolled_back, 1),
            Out::Stable { committed, .. } | Out::Connects { committed, .. } => {
                more(&mut self.committed, committed.as_slice().len());
            }
            Out::RedoEnded(_) => more(&mut self.sessions, 1),
            Out::Split(_) => more(&mut self.splits, 1),
            Out::Merged(_) => more(&mut self.merges, 1),
            Out::Flushed(_) => more(&mut self.flushes, 1),
            Out::CheckpointLogged(_) => more(&mut self.checkpoints, 1),
            Out::Down => more(&mut self.crashes, 1),
            Out::Up(_) => more(&mut self.restarts, 1),
            Out::Lost(_) => more(&mut self.lost, 1),
            Out::Refused(refusal) => self.count_refusal(*refusal, model),
            _ => {}
        }
    }

    fn count_answer(&mut self, txn: u64, answer: &Answer, model: &Model) {
        more(&mut self.answers, 1);
        match answer {
            Answer::Added(_) => {
                more(&mut self.added, 1);
                more(
                    &mut self.overtaking,
                    usize::from(model.lines.overtakes(txn)),
                );
            }
            Answer::NotNumber => more(&mut self.not_numbers, 1),
            _ => {}
        }
    }

    fn count_refusal(&mut self, refusal: Refusal, model: &Model) {
        match refusal {
            Refusal::Busy(holder) => {
                more(&mut self.busy, 1);
                more(
                    &mut self.busy_committing,
                    usize::from(model.committing.contains(&holder)),
                );
                more(
                    &mut self.busy_loser,
                    usize::from(model.losers.contains(&holder)),
                );
            }
            Refusal::Full => more(&mut self.full, 1),
            Refusal::BadSavepoint => more(&mut self.bad_savepoint, 1),
            Refusal::Device => more(&mut self.failed, 1),
            _ => {}
        }
    }

    /// What happened too seldom for the walks to tell much, if anything did.
    pub fn lack(&self) -> Option<&'static str> {
        self.lack_of_steps()
            .or(self.lack_of_increments())
            .or(self.lack_of_ends())
            .or(self.lack_of_refusals())
            .or(self.lack_of_leaves())
            .or(self.lack_of_losers())
    }

    fn lack_of_steps(&self) -> Option<&'static str> {
        first_below(&[
            (self.answers, 240, "too few answers"),
            (self.reads, 120, "too few reads"),
            (self.undone, 60, "too few compensations"),
            (self.savepoints, 400, "too few savepoints"),
            (self.failed, 40, "too few failures of devices"),
        ])
    }

    fn lack_of_increments(&self) -> Option<&'static str> {
        first_below(&[
            (self.added, 40, "too few increments"),
            (
                self.not_numbers,
                8,
                "too few increments of what is no number",
            ),
            (self.beside_adders, 40, "too few increments beside others"),
            (self.overtaking, 3, "too few increments that overtake"),
        ])
    }

    fn lack_of_ends(&self) -> Option<&'static str> {
        first_below(&[
            (self.backs, 20, "too few returns to savepoints"),
            (self.rolled_back, 48, "too few rollbacks"),
            (self.committed, 120, "too few commits"),
            (self.sessions, 12, "too few sessions"),
        ])
    }

    fn lack_of_leaves(&self) -> Option<&'static str> {
        first_below(&[
            (self.splits, 40, "too few splits"),
            (self.merges, 40, "too few merges"),
            (self.flushes, 40, "too few flushes"),
            (self.checkpoints, 3, "too few checkpoints"),
            (self.crashes, 20, "too few crashes"),
            (self.restarts, 20, "too few restarts"),
        ])
    }

    fn lack_of_losers(&self) -> Option<&'static str> {
        first_below(&[
            (self.reopened, 16, "too few logs that were opened"),
            (self.lost_answers, 8, "too few answers that were lost"),
            (self.losers, 80, "too few losers"),
            (self.lost, 80, "too few that were told lost"),
            (self.beside_losers, 80, "too few calls beside losers"),
            (self.busy_loser, 12, "too few keys that losers hold"),
        ])
    }

    fn lack_of_refusals(&self) -> Option<&'static str> {
        first_below(&[
            (self.busy, 600, "too few keys that are held"),
            (
                self.busy_committing,
                4,
                "too few keys that are held until a commit is told",
            ),
            (self.full, 3, "too seldom full"),
            (
                self.bad_savepoint,
                80,
                "too few savepoints that aren't there",
            ),
        ])
    }
}

/// The text of the first count that isn't above its least.
fn first_below(counts: &[(u64, u64, &'static str)]) -> Option<&'static str> {
    for (count, least, text) in counts {
        if count <= least {
            return Some(*text);
        }
    }
    None
}

/// What was logged last adds to a key to which another transaction has added.
fn is_beside(model: &Model) -> bool {
    match model.lines.last() {
        Some((txn, Op::Add(key, _))) => model.holds.has_adder(txn, key),
        _ => false,
    }
}

fn more(count: &mut u64, by: usize) {
    *count = count.saturating_add(by as u64);
}
