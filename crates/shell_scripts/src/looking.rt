//! The words that say how the rows of a scan are told.
ghost use Rattle.std.specs.Prelude.{◌≡◌};
ghost use Rattle.shell_scripts.specs.Words.{number_in};
ghost use Rattle.shell_scripts.specs.Script.{look_in, limit_in};

use crate::line::Look;
use crate::words::number_of;

/// What one word says.
pub fn look_of(word: &[u8]) -> Option<Look>
    ensures { result ≡ look_in word.now }
{
    if word == b"back".as_slice() {
        Some(Look::Back)
    } else if word == b"count".as_slice() {
        Some(Look::Count)
    } else {
        None
    }
}

/// What a word and a number say.
pub fn limit_of(word: &[u8], number: &[u8]) -> Option<Look>
    ensures { result ≡ limit_in word.now (number_in number.now) }
{
    let most = number_of(number)?;
    if word == b"first".as_slice() {
        Some(Look::First { most })
    } else if word == b"last".as_slice() {
        Some(Look::Last { most })
    } else {
        None
    }
}
