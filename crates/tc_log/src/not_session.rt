//! The last record that isn't a Session.
ghost use Rattle.std.specs.Prelude.{◌≡◌};
ghost use Rattle.tc_log.specs.NotSession.{last_with as with_this};

use history::Record;

/// Its number, once this record of this number is taken in.
pub(crate) fn last_with(taken: &Record, number: u64, last: u64) -> u64
    ensures { result ≡ with_this taken.now number last }
{
    match taken {
        Record::Session => last,
        _ => number,
    }
}
