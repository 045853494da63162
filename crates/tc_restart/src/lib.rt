//! What a transaction component finds when it opens its log after a crash, and in what order it acts on it.
//!
//! Knows: the records of the log, how a transaction's steps are chained, and which compensation is next.
//! Must not know: phases, sessions, locks, messages, who appends the records or waits for answers.
//! Promises the next crate: of a log that was read it tells losers and where redo starts without another pass, and with
//! one more the winners and which answers are missing; redo passes over no request; of all losers the latest operation
//! that no compensation names is undone next; what is known of the losers stays right with each record that is appended,
//! without memory and without another pass.
#![tactic(auto)]

mod findings;
mod heaps;
mod laws;
mod loser;
mod losers;
mod plan;
mod redo;
mod work;

pub use laws::others_law;
pub use loser::Loser;
pub use losers::Losers;
pub use plan::{Plan, analyse};
pub use redo::redo_next;
pub use work::{Work, find_work};
