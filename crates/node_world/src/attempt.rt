//! How an event ends that is refused.

/// The value of a call, or the end of the event, which is refused as the call is: that is written to the output, the
/// first argument. So an event's output is built once, in its place: given from level to level it would be a copy of
/// 150 bytes for each.
macro_rules! attempt {
    ($out:ident, $call:expr) => {
        match $call {
            Ok(value) => value,
            Err(refusal) => {
                *$out = Out::Refused(refusal);
                return;
            }
        }
    };
}

pub(crate) use attempt;
