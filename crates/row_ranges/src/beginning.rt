//! The range of the keys that begin with a text.
ghost use Rattle.std.specs.Prelude.{◌≡◌, ◌<◌, ◌∷◌, ◌++◌, [], length};
ghost use Rattle.row_ranges.specs.Beginnings.{beginning_end, IsBeginningsRange};

use arrayvec::ArrayVec;
use record_key::Key;

/// The end of the keys that begin with this one: the least key behind all of them. None where no key is.
pub fn beginning_end(key: &Key) -> Option<Key>
    ensures { result ≡ beginning_end key.now }
{
    let mut left = key.as_bytes();
    while let Some((last, before)) = left.split_last() {
        if *last < u8::MAX {
            return Some(key_of(before, *last + 1));
        }
        left = before;
    }
    None
}

/// The key of these bytes and one more.
fn key_of(before: &[u8], last: u8) -> Key
    requires { length before.now < 32 }
    ensures { result ≡ before.now ++ last ∷ [] }
{
    let mut bytes: ArrayVec<u8, 32> = match ArrayVec::try_from(before) {
        Ok(bytes) => bytes,
        Err(_) => unreachable!(),
    };
    bytes.push(last);
    match Key::new(bytes.as_slice()) {
        Ok(key) => key,
        Err(_) => unreachable!(),
    }
}

/// A key lies in the range of a beginning exactly where it begins so.
pub fn beginning_law()
    ensures { IsBeginningsRange }
{}
