//! What the records of others do to losers.
ghost use Rattle.tc_restart.specs.Laws.{OthersSpareLosers};

/// A record that is no step and no end of a loser leaves the losers as they are.
pub fn others_law()
    ensures { OthersSpareLosers }
{}
