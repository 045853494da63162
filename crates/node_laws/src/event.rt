//! What may happen to a node, and what comes of it.
ghost use Rattle.std.specs.Prelude.{◌≡◌};
ghost use Rattle.node_laws.specs.Halves.{of_tc};

use codec::Rows;
use dc_core::{Device, Neighbours};
use record_key::{Answer, Key, Op, Refusal, Value};
use tc_core::Committed;

/// One atomic step: a call of one of the components, or the delivery of a message that was sent before.
#[derive(Debug, PartialEq, Eq, Drop)]
pub enum Event {
    /// The transaction component starts a session.
    Reconnect,
    /// One step of recovery.
    Recover,
    Begin,
    Act {
        txn: u64,
        op: Op,
    },
    /// The value at a key is asked for.
    Get {
        txn: u64,
        key: Key,
    },
    /// The rows from `low` on, below `high` or to the end, are asked for.
    Scan {
        txn: u64,
        low: Key,
        high: Option<Key>,
    },
    /// A savepoint is set.
    Save {
        txn: u64,
    },
    /// The transaction is rolled back to the savepoint.
    GoBack {
        txn: u64,
        savepoint: u64,
    },
    Rollback {
        txn: u64,
    },
    Commit {
        txn: u64,
    },
    /// One step of a rollback.
    Undo {
        txn: u64,
    },
    /// The log is made stable.
    Force,
    /// The transaction's unanswered request is sent, first or again.
    Send {
        txn: u64,
    },
    /// The data component is told that no number up to `low` is sent again.
    LowWater {
        low: u64,
    },
    /// The data component is asked to write all that is answered up to the greatest announced number.
    Checkpoint,
    /// The data component is told how much of the log is stable.
    Tell,
    /// The leaf that has the key is split.
    Split {
        key: Key,
    },
    /// The leaf that has the key and the one after it are joined.
    Merge {
        key: Key,
    },
    /// One leaf that is large is split, or two that are small are joined.
    Tend,
    /// The leaf that has the key is written to its page.
    Flush {
        key: Key,
    },
    /// The request of this number reaches the data component.
    Request {
        number: u64,
    },
    /// The reply of this number reaches the transaction component.
    Reply {
        number: u64,
    },
    /// The transaction component loses what isn't on its device. Of the records of its log that aren't stable the first
    /// `frames` stay, and of the next one at most so many bytes.
    CrashTc {
        frames: u64,
        bytes: u64,
    },
    /// The transaction component is opened again on its device.
    RestartTc,
    /// The same of the data component and its devices.
    CrashDc {
        frames: u64,
        bytes: u64,
    },
    RestartDc,
    /// The call of this number from now of the transaction component's device fails, once, whether the component runs or
    /// is down. It takes the place of a failure that was set and hasn't happened. 0 sets none.
    FailTc {
        call: u64,
    },
    /// The same of one of the data component's devices.
    FailDc {
        device: Device,
        call: u64,
    },
}

impl Event {
    /// Whether it is one of the transaction component; the others are the data component's.
    pub fn is_of_tc(&self) -> bool
        ensures { result ≡ of_tc self.now }
    {
        !matches!(
            self,
            Event::Split { .. }
                | Event::Merge { .. }
                | Event::Tend
                | Event::Flush { .. }
                | Event::Request { .. }
                | Event::CrashDc { .. }
                | Event::RestartDc
                | Event::FailDc { .. }
        )
    }
}

/// What an event came to.
#[derive(Debug, PartialEq, Eq, Drop)]
pub enum Out {
    Begun(u64),
    Logged(u64),
    Saved(u64),
    RollingBack,
    /// The Commit record has this number; the client is told later, when it is stable.
    CommitLogged(u64),
    Nothing,
    Compensated(u64),
    RolledBack(u64),
    /// The transaction is back at its savepoint.
    Back { txn: u64, savepoint: u64 },
    /// The log is stable up to `end`, and these have committed.
    Stable { end: u64, committed: Committed },
    /// A session was started: its Connect was sent under this number, and these have committed.
    Connects { request: u64, committed: Committed },
    /// A request was sent under this number.
    Sent(u64),
    /// A reply was given under this number.
    Replied(u64),
    /// The request has no reply.
    Noted,
    Connected(u64),
    RedoEnded(u64),
    Answered { txn: u64, answer: Answer },
    /// A read was given this number.
    Asked(u64),
    Row { txn: u64, value: Option<Value> },
    Rows { txn: u64, rows: Rows },
    Undone(u64),
    /// A Checkpoint record was logged under this number.
    CheckpointLogged(u64),
    /// A leaf was split: its number, and that of the new one.
    Split(Neighbours),
    /// A leaf took in the one after it, which is gone.
    Merged(Neighbours),
    /// The leaf of this number was written.
    Flushed(u64),
    /// A transaction that a crash found open is undone: its client is told that it is lost.
    Lost(u64),
    /// The component doesn't run any more.
    Down,
    /// The component runs again, with so many records or leaves.
    Up(u64),
    /// A failure was set.
    Set,
    Refused(Refusal),
}
