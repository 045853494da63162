//! What a node's lines are, by the contracts of its calls.
ghost use Rattle.node_serial.specs.Laws.{NewHasTold, OpenedHasTold, DriveIsSerial, StepIsSerial, SettleIsSerial, TellingIsSerial, ForgettingTellsNothing, CloseIsSerial, LeftIsSerial};

/// A node has told nothing where it was made: a new one (`World::new`), and one on a log (`World::over`, `open`).
pub fn made_law()
    ensures new { NewHasTold }
    ensures opened { OpenedHasTold }
{}

/// The lines of events that are driven are serial, with all that came before: by the clause `chain` of `drive`.
pub fn drive_law()
    ensures { DriveIsSerial }
{}

/// The same of one event: by the contract of `World::step`.
pub fn step_law()
    ensures { StepIsSerial }
{}

/// The same of what clients are told while a node settles, however that ends: by the contract of `settle`; and of
/// whatever else is said to tell them so, as `bring_up` is.
pub fn settle_law()
    ensures settled { SettleIsSerial }
    ensures told { TellingIsSerial }
{}

/// Messages that are let go tell nobody anything: by the contract of `World::forget`.
pub fn forget_law()
    ensures { ForgettingTellsNothing }
{}

/// The lines of an engine's history are serial, with those of the node over which it was opened: by the clause `start`
/// of `Opened::over`, and of what `Engine::close` leaves by the clauses `run` and `left` of `Closed::kept`. So the node
/// that it leaves may go on, alone or as another engine's.
pub fn close_law()
    ensures run { CloseIsSerial }
    ensures left { LeftIsSerial }
{}
