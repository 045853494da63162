//! What is true of every log, and whatever the component stands for.
ghost use Rattle.simulation.specs.Laws.{StartsFresh, CrashIsAStep, CommitsAreTold, LosersAreTold};
ghost use Rattle.simulation.specs.Lasting.{CommitsLast, ToldIsCommitted, StableIsCommitted, RunsHaveBegun, StoodForHaveBegun, EntriesLast, AskedIsCommitted, ValuesLast, AtRestByTheLog, OpenedIsAtRest};
ghost use Rattle.simulation.specs.Reading.{OpenedIsRead};

/// With nothing logged the component stands for the machine to which nothing was done.
pub fn fresh_law()
    ensures { StartsFresh }
{}

/// A crash that leaves a beginning of the log, with all that is stable, is a crash of the list machine.
pub fn crash_law()
    ensures { CrashIsAStep }
{}

/// As more of the log becomes stable, whoever's Commit does is told so.
pub fn commit_law()
    ensures { CommitsAreTold }
{}

/// A loser that has its End is told so.
pub fn lost_law()
    ensures { LosersAreTold }
{}

/// A transaction that has committed stays so, with its entries as they are, whatever happens then: so has one whose
/// client is told, and one whose Commit record is stable.
pub fn lasting_law()
    ensures last { CommitsLast }
    ensures told { ToldIsCommitted }
    ensures stable { StableIsCommitted }
{}

/// Whoever isn't gone has begun, so that nobody else gets its number: in a run, and in whatever the component stands
/// for.
pub fn begun_law()
    ensures runs { RunsHaveBegun }
    ensures stood_for { StoodForHaveBegun }
{}

/// What a transaction was answered stays until it takes it back, unless it falls in a crash; and it commits with
/// the entries with which it asked for that.
pub fn answered_law()
    ensures entries { EntriesLast }
    ensures asked { AskedIsCommitted }
{}

/// What committed transactions left at a key stays there until somebody acts on the key, crashes included. Which keys
/// that is of the log tells, and when the component is opened it is each.
pub fn value_law()
    ensures lasts { ValuesLast }
    ensures at_rest { AtRestByTheLog }
    ensures opened { OpenedIsAtRest }
{}

/// What is opened on a legal log, whoever wrote it, stands for the machine that the log tells of.
pub fn opened_law()
    ensures { OpenedIsRead }
{}
