//! What the node keeps when the transaction component crashes, and when every message is lost; and what it promises at
//! every moment; and what its devices have to do with what it answers.
ghost use Rattle.node_laws.specs.Fallen.{FallenIsKept};
ghost use Rattle.node_laws.specs.Forgetting.{MessagesMayBeLost};
ghost use Rattle.node_laws.specs.Promises.{KeptPromises};
ghost use Rattle.node_laws.specs.Sound.{DeviceLaw};

/// Where the transaction component loses records that weren't stable, all that holds of the node survives.
pub fn fallen_law()
    ensures { FallenIsKept }
{}

/// Where every message is lost, all that holds of the node survives.
pub fn forgetting_law()
    ensures { MessagesMayBeLost }
{}

/// Whatever holds of a node at every moment makes its promises, in each state of a chain of events as in the last.
pub fn promises_law()
    ensures { KeptPromises }
{}

/// A new node's devices are sound, and they stay so whatever events come that set no failure. No event is answered
/// Device then, and no call of `settle`. Whatever devices do, no event is answered BadBytes: that is what the opening of
/// a log may answer that others wrote.
pub fn device_law()
    ensures { DeviceLaw }
{}
