//! What is kept in little room, to be looked at.
ghost use Rattle.std.specs.Prelude.{◌≡◌};
ghost use Rattle.engine_history.specs.Lending.{lent};

/// A value: made anew where it is small, else where it is kept.
#[derive(Drop)]
pub enum Lent<'a, T> {
    Made(T),
    Kept(&'a T),
}

impl<T> Lent<'_, T> {
    /// The value.
    pub fn get(&self) -> &T
        ensures { result.now ≡ lent self.now }
    {
        match self {
            Lent::Made(value) => value,
            Lent::Kept(value) => value,
        }
    }
}
