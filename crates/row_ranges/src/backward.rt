//! Rows from the last one to the first.
ghost use Rattle.std.specs.Prelude.{◌≡◌, ◌∷◌, [], length, reverse, IfSome, IfNone};
ghost use Rattle.row_ranges.specs.Backward.{left};

use codec::LentRows;
use record_key::{Key, Value};

/// Of the rows that are left so many are near, at most.
const NEAR: usize = 256;

/// Packed rows, read from their end. A row is found from the front alone, so those that come next are kept near: none is
/// copied before it is given.
#[derive(Debug, Drop)]
pub struct Backward<'a> {
    far: LentRows<'a>,
    // Those behind the far ones.
    near: LentRows<'a>,
}

impl<'a> Backward<'a> {
    /// These rows, the last one first.
    pub fn new(rows: LentRows<'a>) -> Backward<'a>
        ensures { left result ≡ reverse rows.entry }
    {
        Backward {
            near: rows.from(rows.len()),
            far: rows,
        }
    }

    /// Takes the next row off. None after the first one. Takes no memory.
    pub fn next(&mut self) -> Option<(Key, Value)>
        ensures row { IfSome result (λ row. left self.old ≡ row ∷ left self.new) }
        ensures end { IfNone result (left self.old ≡ []) }
    {
        if self.near.len() == 0 {
            self.come_near();
        }
        let len = self.near.len();
        if len == 0 {
            return None;
        }
        let row = self.near.from(len - 1).next();
        self.near = self.near.before(len - 1);
        row
    }

    /// The last of the far rows are near, where none was.
    fn come_near(&mut self)
        requires { self.old.near ≡ [] }
        ensures same { left self.new ≡ left self.old }
        ensures all { self.new.near ≡ [] → self.old.far ≡ [] }
    {
        let len = self.far.len();
        let cut = len - len.min(NEAR);
        self.near = self.far.from(cut);
        self.far = self.far.before(cut);
    }
}
