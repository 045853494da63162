//! What is on its way for a session's transaction.
ghost use Rattle.std.specs.Prelude.{◌≡◌};
ghost use Rattle.node_sides.specs.tc_core.specs.Replies.{is_number};

/// The request that was sent last for a transaction, the reply that was given to it, and whether its commit waits for the
/// log to be made stable.
#[derive(Debug, Clone, Copy, PartialEq, Eq)]
pub struct InFlight {
    pub request: Option<u64>,
    pub reply: Option<u64>,
    pub commits: bool,
}

/// Whether the message on its way, if there is one, has this number.
pub(crate) fn is_number(message: Option<u64>, number: u64) -> bool
    ensures { result ≡ is_number message number }
{
    match message {
        Some(own) => own == number,
        None => false,
    }
}
