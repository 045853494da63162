//! Several clients of an engine on threads, measured; and what every client's work is drawn from.
#![tactic(auto)]

mod crew;
mod draws;
mod engine;
mod hashing;
mod monitor;
mod outcome;
mod player;
mod quiet;
mod store;
mod timing;

pub use crew::Crew;
pub use draws::{KEYS, Values, draw, key_of, mix};
pub use engine::{measured, measured_on};
pub use hashing::digest;
pub use monitor::{monitored, monitored_on};
pub use outcome::{Outcome, done};
