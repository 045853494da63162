//! Abstract page LSNs: of which numbers a leaf has the effect, and what those above the low one were answered.
//!
//! Knows: keys and answers of `record_key`.
//! Must not know: leaves and their records, logs, what an operation does, who sends a request or how often.
//! Promises the next crates: a noted number is captured and its answer is kept with it; where the low number
//! rises every number up to it is captured and only answers go; a cut and a join lose no number; of
//! what stands above an end nothing stays captured but what the low number covers.
#![tactic(auto)]

mod ab_lsn;
mod entries;

pub use ab_lsn::AbLsn;
