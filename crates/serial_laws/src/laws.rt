//! What every run keeps.
ghost use Rattle.serial_laws.specs.Laws.{FreshIsAStart, AnswersStand, RunsAreSerial, ToldIsSerial, ReadsRepeat, RunsAlone};

/// A run may begin where nothing was done.
pub fn start_law()
    ensures { FreshIsAStart }
{}

/// What a client was told stays true of the entries that stand, whatever is crossed and whatever falls.
pub fn stand_law()
    ensures { AnswersStand }
{}

/// The entries that stand may come one transaction after another, in the order in which they asked to commit: all
/// answers and the table are the same.
pub fn serial_law()
    ensures { RunsAreSerial }
{}

/// Whatever a transaction is told, reads too, it would be told in that order, as long as it is neither rolled back nor
/// lost; so a range that is read again has the same rows.
pub fn told_law()
    ensures told { ToldIsSerial }
    ensures again { ReadsRepeat }
{}

/// A transaction that is neither rolled back nor lost ran as it would alone, on the table that those leave that asked
/// to commit before it.
pub fn alone_law()
    ensures { RunsAlone }
{}
