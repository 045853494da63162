//! What the component does in normal running is a step of the list machine, or none.
ghost use Rattle.simulation.specs.Running.{BeginIsAStep, ActIsAStep, CommitIsAStep, RollbackIsAStep, CompIsNoStep, UndoneIsNoStep, RolledBackIsTold, BackIsTold, AnswerIsTold, SaveIsAStep, GoBackIsAStep, ReadIsAStep, RowIsTold, RowsAreTold};

/// A transaction begins.
pub fn begin_law()
    ensures { BeginIsAStep }
{}

/// An operation is asked for.
pub fn act_law()
    ensures { ActIsAStep }
{}

/// A commit is asked for.
pub fn asked_commit_law()
    ensures { CommitIsAStep }
{}

/// A rollback is asked for.
pub fn rollback_law()
    ensures { RollbackIsAStep }
{}

/// A compensation in a rollback, or of a loser's operation, is no step.
pub fn comp_law()
    ensures { CompIsNoStep }
{}

/// Nor is the answer of a compensation, or of a loser's operation.
pub fn undone_law()
    ensures { UndoneIsNoStep }
{}

/// A rollback ends.
pub fn rolled_back_law()
    ensures { RolledBackIsTold }
{}

/// A rollback to a savepoint ends.
pub fn back_law()
    ensures { BackIsTold }
{}

/// An answer comes, and is told.
pub fn told_answer_law()
    ensures { AnswerIsTold }
{}

/// A savepoint is set.
pub fn save_law()
    ensures { SaveIsAStep }
{}

/// A rollback to a savepoint is asked for.
pub fn go_back_law()
    ensures { GoBackIsAStep }
{}

/// A read is asked for.
pub fn read_law()
    ensures { ReadIsAStep }
{}

/// A row is told.
pub fn told_row_law()
    ensures { RowIsTold }
{}

/// Rows are told.
pub fn told_rows_law()
    ensures { RowsAreTold }
{}
