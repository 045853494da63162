//! What the data component is asked for: the records of a log, and reads.
ghost use Rattle.std.specs.Prelude.{◌≡◌};
ghost use Rattle.history.specs.Log.{HasRequest};
ghost use Rattle.tc_core.specs.Calls.{AsksToPerform, read_request as asks_for};
ghost use Rattle.tc_core.specs.Seen.{seen};

use crate::open_txn::Read;
use crate::parts::Parts;
use codec::Request;
use record_key::Key;
use stable::LogDevice;
use tc_locks::Span;

impl<D: LogDevice> Parts<D> {
    /// What the record of this number asks for, with how much of the log is stable.
    pub fn perform(&self, number: u64) -> Request
        requires { HasRequest self.now.log.records number }
        ensures { AsksToPerform (seen self.now) number result }
    {
        match self.log.asked_op(number) {
            Some(op) => Request::Perform {
                session: self.session,
                number,
                stable: self.log.stable_end(),
                op,
            },
            None => unreachable!(),
        }
    }
}

/// What asks for the read.
pub fn read_request(session: u64, read: &Read) -> Request
    ensures { result ≡ asks_for session read.now.number read.now.span }
{
    let read_number = read.number;
    match &read.span {
        Span::Key(key) => Request::Get {
            session,
            read: read_number,
            key: key.copied(),
        },
        Span::Range { low, high } => Request::Scan {
            session,
            read: read_number,
            low: low.copied(),
            high: copied(high),
        },
    }
}

/// The same upper end again. Takes no memory.
pub fn copied(high: &Option<Key>) -> Option<Key>
    ensures { result ≡ high.now }
{
    match high {
        Some(key) => Some(key.copied()),
        None => None,
    }
}
