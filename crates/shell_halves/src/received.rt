//! Counts of messages.

/// What became of the messages of a transaction component.
#[derive(Clone, Copy, Default)]
pub struct Received {
    /// Requests that were sent, the same one again counted too.
    pub sent: u64,
    /// Of these so many were sent again.
    pub again: u64,
    /// Replies that told something new.
    pub heard: u64,
    /// Replies that weren't awaited any more.
    pub repeated: u64,
    /// Replies of an earlier session.
    pub stale: u64,
    /// What has come in and is no reply.
    pub bad: u64,
}

impl Received {
    pub(crate) fn count_sent(&mut self, is_again: bool) {
        self.sent = self.sent.saturating_add(1);
        if is_again {
            self.again = self.again.saturating_add(1);
        }
    }

    pub(crate) fn count_heard(&mut self) {
        self.heard = self.heard.saturating_add(1);
    }

    pub(crate) fn count_repeated(&mut self) {
        self.repeated = self.repeated.saturating_add(1);
    }

    pub(crate) fn count_stale(&mut self) {
        self.stale = self.stale.saturating_add(1);
    }

    pub(crate) fn count_bad(&mut self) {
        self.bad = self.bad.saturating_add(1);
    }
}
