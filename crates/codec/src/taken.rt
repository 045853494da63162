//! What is read at a place.

/// What stands at a place among bytes.
#[derive(Debug, PartialEq, Eq, Drop)]
pub enum Taken<T> {
    /// A whole value, and the place after it.
    Record(T, usize),
    /// The beginning of a frame that the bytes end within.
    Short,
    /// Nothing that has a spelling. The place is where its first byte stands.
    Bad(u64),
}
