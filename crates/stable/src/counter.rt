//! A count that contracts alone see. It takes no memory and has no last value.
//! Clauses alone tie it to the code: a device is kept honest by those that say which of its calls are counted and which
//! of them fails.
ghost use Rattle.std.specs.Prelude.{◌≡◌, ℕ, ◌+◌};
ghost use Rattle.std.specs.Borrow.{ftrue};

use std::marker::{Model, PhantomData, Send};

#[derive(Drop)]
pub struct Counter {
    marker: PhantomData<u8>,
    pub ghost count: { ℕ },
}

impl Model for Counter {
    ghost also_owns = { λ _. ftrue };
}

impl Counter {
    pub fn new() -> Counter
        ensures { result.count ≡ 0 }
    {
        Counter {
            marker: PhantomData,
        }
    }

    pub fn add_one(&mut self)
        ensures { self.new.count ≡ self.old.count + 1 }
    {}
}

unsafe impl Send for Counter {}
