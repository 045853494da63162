//! Lines of test data: the call that a line spells, the answer that it wants, and how many agree.
//!
//! Knows: how a script of lines is written, and how keys, values, operations, answers and refusals are spelled there.
//! Must not know: whose calls they are.
//! Promises the programs of tests: a line that is answered otherwise is printed and counted, and nothing is read or
//! compared that takes memory, so that a refused allocation is one of the calls that are tested.
#![tactic(auto)]

mod answers;
mod bytes;
mod digest;
mod draws;
mod playing;
mod reporting;
mod section;
mod tally;
mod text;
mod words;

pub use bytes::Bytes;
pub use digest::Digest;
pub use draws::next;
pub use playing::{Fault, Subject, play};
pub use reporting::{report, script_in, status};
pub use tally::Tally;
pub use text::Text;
pub use words::{UNREADABLE, Words};
