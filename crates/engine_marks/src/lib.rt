//! Two words that only rise, stable and low, which one seat raises and any number of others read.
//! It knows what each seat has seen of the words, and that low is at most stable. It knows nothing of logs,
//! transactions or locks: what the words count is its callers' affair, and so is where each seat is kept.
//! It promises that a read, which neither waits nor takes memory, answers words that are no less than all that its seat
//! has seen or was told, and that no seat has seen more than the raiser's, whose view is just the words.
#![tactic(auto)]

mod rule;
mod seat;
#[cfg(test)]
mod tests;
mod words;

pub use seat::Seat;
pub use words::Marks;
