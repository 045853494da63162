//! A plain slow model of a node's clients, for tests: what each call answers, what each client is told, and what the
//! records are in the end.
//!
//! Knows: what clients are promised, and the names of calls and outputs.
//! Must not know: how a node keeps what it promises; messages, pages, and how anything is undone.
//! Promises the tests above nothing by contracts: it is the plain program that a node is compared with.
#![tactic(auto)]

mod calling;
mod crashing;
mod holds;
mod kept;
mod lines;
mod model;
mod open;
mod span;
mod telling;

pub use holds::{Beside, Holds};
pub use lines::Lines;
pub use model::{Model, Service};
pub use open::{Doing, Open};
pub use span::Span;

// What a crate above names of those below.
pub use node_laws;
