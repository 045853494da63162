//! What changes the session, what is known of the requests that are lost, or what all leaves have captured.
ghost use Rattle.std.specs.Prelude.{◌≡◌, ◌<◌, ◌^◌, false, None, Some, Ok, Err, IfOk, IfErr, OnOk, OnErr};
ghost use Rattle.dc_store.specs.Gives.{append_refusal, AcceptGives};
ghost use Rattle.dc_core.specs.Serves.{runs, connect_refusal, MayTakeBack, with_system, connected, knows};
ghost use Rattle.dc_core.specs.Serves.{lowers, redone, Serves, Stops};

use crate::dc::Dc;
use crate::system::top_low;
use codec::{Reply, Request};
use record_key::Refusal;
use stable::{LogDevice, PageDevice};

impl<D: LogDevice, P: PageDevice> Dc<D, P> {
    /// The running session's Connect changes nothing. A new session runs once its record is stable.
    pub(crate) fn connect(&mut self, session: u64, end: u64) -> Result<Reply, Refusal>
        requires numbered { session < 2 ^ 48 }
        requires allowed { connect_refusal self.old session ≡ None }
        requires owed { runs self.old session ≡ false → MayTakeBack self.old end }
        ensures served { IfOk result (λ reply.
            Serves self.old (Request.Connect session end) (Some reply) self.new) }
        ensures stopped { IfErr result (λ refusal.
            Stops self.old (Request.Connect session end) refusal self.new) }
    {
        if !self.runs(session) {
            self.begin(session, end)?;
        }
        Ok(Reply::Connected { session })
    }

    /// The session runs once its record is stable and the leaves have taken back what was performed above the end.
    fn begin(&mut self, session: u64, end: u64) -> Result<(), Refusal>
        requires numbered { session < 2 ^ 48 }
        requires unspent { append_refusal self.old.system ≡ None }
        requires owed { MayTakeBack self.old end }
        ensures begun { OnOk result (self.new ≡ connected self.old session end) }
        ensures gives { IfErr result (λ refusal.
            AcceptGives self.old.system session end (Err refusal) self.new.system) }
        ensures rest { OnErr result (self.new ≡ with_system self.old self.new.system) }
    {
        let accepted = self.system.accept(session, end);
        self.system.kept();
        accepted?;
        self.stored = session;
        self.session = session;
        self.redo = true;
        self.known = session;
        self.performed = self.performed.up_to(end);
        Ok(())
    }

    /// No request up to this number is lost any more.
    pub(crate) fn learn(&mut self, stable: u64)
        ensures known { self.new ≡ knows self.old stable }
    {
        self.known = self.known.max(stable);
    }

    pub(crate) fn lower(&mut self, low: u64)
        requires numbered { low < 2 ^ 48 }
        ensures lowered { self.new ≡ lowers self.old low }
    {
        self.system.lower(low);
        self.system.kept();
    }

    /// Raises all leaves and writes them.
    pub(crate) fn checkpoint(&mut self, session: u64, low: u64) -> Result<Reply, Refusal>
        requires numbered { low < 2 ^ 48 }
        ensures served { IfOk result (λ reply.
            Serves self.old (Request.Checkpoint session low) (Some reply) self.new) }
        ensures stopped { IfErr result (λ refusal.
            Stops self.old (Request.Checkpoint session low) refusal self.new) }
    {
        let written = self.system.checkpoint(low, self.known);
        self.system.kept();
        written?;
        Ok(Reply::Checkpointed { session, low })
    }

    pub(crate) fn end_redo(&mut self, session: u64) -> Reply
        ensures reply { result ≡ Reply.RedoEnded session }
        ensures ended { self.new ≡ redone self.old }
    {
        self.redone_low = top_low(&self.system);
        self.redo = false;
        Reply::RedoEnded { session }
    }
}
