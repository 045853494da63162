//! Putting a value in a place that has none.
ghost use Rattle.std.specs.Prelude.{◌≡◌, None, Some};

use std::mem;

/// What isn't `Drop` is put so, where an assignment would drop what stood there.
pub fn put<T>(place: &mut Option<T>, value: T)
    requires { place.old ≡ None }
    ensures { place.new ≡ Some value }
{
    match mem::replace(place, Some(value)) {
        None => {}
        Some(_) => unreachable!(),
    }
}
