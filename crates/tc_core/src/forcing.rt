//! What makes the log stable, and who has committed then.
ghost use Rattle.std.specs.Prelude.{◌≡◌};
ghost use Rattle.tc_core.specs.Calls.{ForceGives, ReconnectGives};
ghost use Rattle.tc_core.specs.Changes.{let_go as gone};
ghost use Rattle.tc_core.specs.Kept.{IsTc};
ghost use Rattle.tc_core.specs.Seen.{seen};

use crate::parts::Parts;
use crate::phase::Phase;
use crate::told::{Committed, Connecting, Forced};
use codec::Request;
use history::Record;
use record_key::Refusal;
use stable::LogDevice;
use std::mem;
use tc_locks::RangeLocks;

impl<D: LogDevice> Parts<D> {
    /// The queue of those that were committing is handed over, so that telling them takes no memory.
    pub fn force(&mut self) -> Result<Forced, Refusal>
        requires { IsTc (seen self.old) }
        ensures kept { IsTc (seen self.new) }
        ensures gives { ForceGives (seen self.old) result (seen self.new) }
    {
        let end = self.log.force()?;
        let none = Vec::new(*self.committing.allocator());
        let committed = mem::replace(&mut self.committing, none);
        let_go(&mut self.locks, committed.as_slice());
        Ok(Forced {
            end,
            committed: Committed::new(committed),
        })
    }

    pub fn reconnect(&mut self) -> Result<Connecting, Refusal>
        requires { IsTc (seen self.old) }
        ensures kept { IsTc (seen self.new) }
        ensures gives { ReconnectGives (seen self.old) result (seen self.new) }
    {
        let session = self.log.append(&Record::Session)?;
        let committed = self.force()?.committed;
        self.session = session;
        self.phase = Phase::Connecting;
        self.announced = 0;
        self.checkpointing = None;
        Ok(Connecting {
            request: Request::Connect {
                session,
                end: self.log.last_not_session(),
            },
            committed,
        })
    }
}

/// These transactions let go of what they hold.
fn let_go(locks: &mut RangeLocks, txns: &[u64])
    ensures { locks.new ≡ gone txns.now locks.old }
{
    for txn in txns {
        locks.release(*txn);
    }
}
