//! Cases of an engine's clients: what they call, what is done to the engine beside them, what they are to be answered, and
//! how what is left is judged.
//!
//! Knows: the calls of a client and of who has the engine, and the steps that are left, as traits; what each call of its
//! data is to be answered, and the plain model of a node's clients.
//! Must not know: which engine it is, and on which threads the clients are.
//! Promises the programs of tests nothing that is proved. What a client is told is compared with what is written out or
//! with the plain model, and what clients noted with the steps that are left.
#![tactic(auto)]

mod call;
mod client;
mod crashes;
mod draws;
mod engine_lines;
mod judging;
mod left;
mod lines;
mod machine;
mod parts;
mod plan;
mod playing;
mod stage;
mod table;
mod told;
mod verdict;

pub use client::Client;
pub use crashes::trouble;
pub use engine_lines::follow_all;
pub use judging::{is_history, is_played, leaves};
pub use left::Leaves;
pub use lines::follow;
pub use parts::Part;
pub use plan::{Many, Plan};
pub use playing::play;
pub use stage::{Door, Hold, Stage};
pub use table::Table;
pub use verdict::{Verdict, both};
