//! Which session runs, and which messages are taken.
ghost use Rattle.std.specs.Prelude.{◌≡◌, None, Some, IfErr, OnOk};
ghost use Rattle.dc_core.specs.Serves.{runs, session_refusal, after_redo_refusal, connect_refusal, serve_refusal};
ghost use Rattle.dc_core.specs.Tends.{may_merge};

use crate::dc::Dc;
use codec::Request;
use record_key::Refusal;
use stable::{LogDevice, PageDevice};

impl<D: LogDevice, P: PageDevice> Dc<D, P> {
    /// Whether the request is taken, and if not, why: NotConnected where no session runs, Stale where
    /// another one does, Redoing where it has to wait for the end of redo, NumbersSpent where a session's record
    /// has no number. Changes nothing.
    pub fn allows(&self, request: &Request) -> Result<(), Refusal>
        ensures allowed { OnOk result (serve_refusal self.now request.now ≡ None) }
        ensures refused { IfErr result (λ refusal. serve_refusal self.now request.now ≡ Some refusal) }
    {
        match request {
            Request::Connect { session, .. } => self.can_connect(*session),
            Request::Perform { session, .. } => self.allows_session(*session),
            Request::StableEnd { session, .. } => self.allows_session(*session),
            Request::RedoEnd { session } => self.allows_session(*session),
            Request::Get { session, .. } => self.after_redo(*session),
            Request::Scan { session, .. } => self.after_redo(*session),
            Request::LowWater { session, .. } => self.after_redo(*session),
            Request::Checkpoint { session, .. } => self.after_redo(*session),
        }
    }

    /// Whether requests of this session to perform are taken, as `allows` says.
    pub fn allows_session(&self, session: u64) -> Result<(), Refusal>
        ensures allowed { OnOk result (session_refusal self.now session ≡ None) }
        ensures refused { IfErr result (λ refusal. session_refusal self.now session ≡ Some refusal) }
    {
        if self.session == 0 {
            return Err(Refusal::NotConnected);
        }
        if self.session != session {
            return Err(Refusal::Stale);
        }
        Ok(())
    }

    pub(crate) fn after_redo(&self, session: u64) -> Result<(), Refusal>
        ensures ok { OnOk result (after_redo_refusal self.now session ≡ None) }
        ensures refused { IfErr result (λ refusal. after_redo_refusal self.now session ≡ Some refusal) }
    {
        self.allows_session(session)?;
        if self.redo {
            return Err(Refusal::Redoing);
        }
        Ok(())
    }

    /// Refused where the session is an earlier one, or its record has no number.
    pub(crate) fn can_connect(&self, session: u64) -> Result<(), Refusal>
        ensures ok { OnOk result (connect_refusal self.now session ≡ None) }
        ensures refused { IfErr result (λ refusal. connect_refusal self.now session ≡ Some refusal) }
    {
        if self.runs(session) {
            return Ok(());
        }
        if session <= self.stored {
            return Err(Refusal::Stale);
        }
        self.system.can_log()
    }

    /// Whether this session runs.
    pub(crate) fn runs(&self, session: u64) -> bool
        ensures { result ≡ runs self.now session }
    {
        session != 0 && self.session == session
    }

    /// Whether merges are let.
    pub(crate) fn may_merge(&self) -> bool
        ensures { result ≡ may_merge self.now }
    {
        self.session != 0 && !self.redo
    }

    /// The session that runs, 0 if none.
    pub fn session(&self) -> u64
        ensures { result ≡ self.now.session }
    {
        self.session
    }

    /// The greatest session taken, 0 if none.
    pub fn stored(&self) -> u64
        ensures { result ≡ self.now.stored }
    {
        self.stored
    }
}
