//! A gate at which nobody looks on.
use codec::{Reply, Request};
use engine_workers::Gate;

#[derive(Drop)]
pub struct Quiet;

impl Gate for Quiet {
    fn before(&self, _request: &Request) {}

    fn after(&self, _reply: &Reply) {}
}
