//! What is entered.
ghost use Rattle.std.specs.Prelude.{◌≡◌};
ghost use Rattle.std.specs.Option.{option_copied};

use crate::kept_out::KeptOut;
use crate::step::Step;
use crate::trace::Trace;
use codec::{Reply, Request};

/// A step, with those before it.
#[derive(Drop)]
pub struct Entry {
    pub step: Box<Step>,
    pub before: Trace,
}

impl Entry {
    /// What its event came to.
    pub fn out(&self) -> &KeptOut
        ensures { result.now ≡ self.now.step.value.out }
    {
        &self.step.out
    }

    /// The request that it sent.
    pub fn sent(&self) -> Option<&Request>
        ensures { option_copied result ≡ self.now.step.value.sent }
    {
        self.step.sent.get()
    }

    /// The reply that it gave.
    pub fn given(&self) -> Option<&Reply>
        ensures { option_copied result ≡ self.now.step.value.given }
    {
        self.step.given.get()
    }
}
