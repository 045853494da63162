//! What is true of a log that rows were written into.
ghost use Rattle.tc_rewriting.specs.Laws.{InsertsFit, WritesAreRight, RewritingKeepsTheTable};

/// While a transaction is alone and answered, an insert of a key that has no record may be logged, and is answered
/// Inserted.
pub fn insert_law()
    ensures { InsertsFit }
{}

/// A log in which all have ended is one again once a transaction has written rows whose keys had no record.
pub fn writing_law()
    ensures { WritesAreRight }
{}

/// The log that writes rows from nothing tells of just their table.
pub fn rewriting_law()
    ensures { RewritingKeepsTheTable }
{}
