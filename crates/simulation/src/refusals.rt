//! A refused call is a line of the list machine, by its cause as the component sees it.
ghost use Rattle.simulation.specs.Refusals.{NotOpenIsALine, UnansweredIsALine, RollingBackIsALine, BusyIsALine, BadRangeIsALine, FullIsALine, FullOfSavepointsIsALine, BadSavepointIsALine, NodeRefusalIsALine};

/// The transaction isn't open.
pub fn not_open_law()
    ensures { NotOpenIsALine }
{}

/// It waits for an answer.
pub fn unanswered_law()
    ensures { UnansweredIsALine }
{}

/// It rolls back.
pub fn rolling_back_law()
    ensures { RollingBackIsALine }
{}

/// The least holder by the component's spans is the machine's.
pub fn busy_law()
    ensures { BusyIsALine }
{}

/// What is asked for is no range.
pub fn bad_range_law()
    ensures { BadRangeIsALine }
{}

/// There is no room for one more transaction, or for one more savepoint.
pub fn full_law()
    ensures of_transactions { FullIsALine }
    ensures of_savepoints { FullOfSavepointsIsALine }
{}

/// There is no savepoint of that number.
pub fn bad_savepoint_law()
    ensures { BadSavepointIsALine }
{}

/// The node lacks something, or doesn't serve yet.
pub fn node_refusal_law()
    ensures { NodeRefusalIsALine }
{}
