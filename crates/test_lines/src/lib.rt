//! Lines of test data: a call and what it is to answer, the words of a call, and the text of an answer.
//!
//! Knows: keys, values, operations and answers, the records of a transaction log, and how data writes them.
//! Must not know: what a program of tests calls.
//! Promises the programs of tests nothing that is proved: it reads a file's lines, has each called once, and once more
//! where memory was refused, and prints where an answer isn't the one that is wanted.
#![tactic(auto)]

mod comparing;
mod hex;
mod reading;
mod records;
mod writing;

pub use comparing::{Subject, compare, refused};
pub use hex::{bytes_of, put_hex};
pub use reading::{OUTSIDE, Words};
pub use records::put_record;
pub use writing::{put_answer, put_inverse, put_key, put_op, put_refusal, put_text};
