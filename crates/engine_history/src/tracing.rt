//! How a trace begins and goes on.
ghost use Rattle.std.specs.Prelude.{◌≡◌, []};
ghost use Rattle.engine_history.specs.Slots.{through};

use crate::entry::Entry;
use crate::trace::Trace;
use std::marker::PhantomData;

/// No steps.
pub fn nothing() -> Trace
    ensures { result.steps ≡ [] }
{
    Trace {
        marker: PhantomData,
    }
}

/// All steps before an entry, and its own.
pub fn up_to(entry: &Entry) -> Trace
    ensures { result.steps ≡ through entry.now }
{
    let _ = entry;
    Trace {
        marker: PhantomData,
    }
}
