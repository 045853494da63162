//! A list that contracts alone see.
ghost use Rattle.std.specs.Prelude.{◌≡◌, List, [], ◌∷◌};
ghost use Rattle.std.specs.Borrow.{ftrue};

use std::marker::{Model, PhantomData, Send};

/// A list of items. It has no bytes.
#[derive(Drop)]
pub struct GhostList<T> {
    marker: PhantomData<T>,
    pub ghost items: { List T },
}

impl<T> Model for GhostList<T> {
    ghost also_owns = { λ _. ftrue };
}

impl<T> GhostList<T> {
    /// The items that the caller's proof picks, of what is lent here: `0` and `&()` stand for nothing.
    pub fn picked<A, B, C>(number: u64, a: &A, b: &B, c: &C) -> GhostList<T>
        ghost items: { List T }
        ensures { result.items ≡ items }
    {
        let _ = number;
        let _ = a;
        let _ = b;
        let _ = c;
        GhostList {
            marker: PhantomData,
        }
    }

    /// No items.
    pub fn new() -> GhostList<T>
        ensures { result.items ≡ [] }
    {
        GhostList::picked(0, &(), &(), &())
    }

    /// These, and a newer one before them.
    pub fn with(&self, newer: &T) -> GhostList<T>
        ensures { result.items ≡ newer.now ∷ self.now.items }
    {
        GhostList::picked(0, self, newer, &())
    }
}

unsafe impl<T: Send> Send for GhostList<T> {}
