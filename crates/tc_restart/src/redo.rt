//! What redo sends, one request after another.
ghost use Rattle.tc_restart.specs.Redo.{FindsRequest};

use stable::LogDevice;
use tc_log::Log;

/// The first record from `from` on and below `session` that asks for something: an Op, or a Comp with an inverse.
/// Takes no memory and reads no record.
pub fn redo_next<D: LogDevice>(log: &Log<D>, from: u64, session: u64) -> Option<u64>
    ensures { FindsRequest log.now.records from session result }
{
    let mut number = from;
    while number < session {
        if log.asks(number) {
            return Some(number);
        }
        number += 1;
    }
    None
}
