//! A log that nobody vouches for, read record by record: whether each Answer in it is what its operation gets.
//!
//! Knows: the definitions of `history`.
//! Must not know: where the records come from, and who told that they fit.
//! Promises the crates above: a record is taken just where the answers are right with it, in the time of a look-up or
//! two in an ordered map; a wrong or refused one changes nothing. It keeps no more than a value for each key and an
//! answer for each request that waits for one.
#![tactic(auto)]

mod effects;
mod following;
mod replay;
mod values;

pub use replay::Replay;
