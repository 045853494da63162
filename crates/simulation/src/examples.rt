//! Two logs, with a Commit and without, and what each can stand for after a crash.
ghost use Rattle.simulation.specs.Examples.{UncommittedIsLost, CommittedStays};

/// Without a Commit nothing stands, and the transaction loses.
pub fn lost_commit()
    ensures { UncommittedIsLost }
{}

/// With it the entry stands, and the transaction is committed.
pub fn kept_commit()
    ensures { CommittedStays }
{}
