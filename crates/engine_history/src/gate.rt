//! Where a program looks on.
use codec::{Reply, Request};

/// What a program does at a request and at its reply. It is called with no lock held, but for `in_dc`.
pub trait Gate {
    fn before(&self, request: &Request);

    fn after(&self, reply: &Reply);

    /// Called with the data component's lock held, and the history's free.
    fn in_dc(&self, _request: &Request) {}
}
