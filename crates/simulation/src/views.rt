//! What the machines that the component stands for have in common with its log and its locks.
ghost use Rattle.simulation.specs.Views.{CalmEntriesAreTheLogs, PlainIsTheLogs, FreeSpansAreFree, FreeByTrueSpans, NeutralIsNoStep, LeftoversAreNoStep, LetGoIsNoStep, RebuiltSpansAreNoStep};

/// Where nobody loses or rolls back, the entries that stand are those of the log.
pub fn calm_law()
    ensures { CalmEntriesAreTheLogs }
{}

/// At a key that nobody has to undo, the plain map has what the log leaves.
pub fn plain_law()
    ensures { PlainIsTheLogs }
{}

/// What is free by the locks is free for the machine: with the keys of losers, or with those among the locks.
pub fn free_law()
    ensures by_losers_keys { FreeSpansAreFree }
    ensures by_true_spans { FreeByTrueSpans }
{}

/// Records that say nothing of a transaction are no step.
pub fn neutral_law()
    ensures { NeutralIsNoStep }
{}

/// Nor is a change of what is kept of transactions that are over.
pub fn leftovers_law()
    ensures { LeftoversAreNoStep }
{}

/// To let go what a transaction held that is over is no step.
pub fn let_go_law()
    ensures { LetGoIsNoStep }
{}

/// Nor is what an opened component rebuilds for losers.
pub fn rebuilt_law()
    ensures { RebuiltSpansAreNoStep }
{}
