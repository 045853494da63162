//! The face for C: a node behind a handle, and one exported function for each call of a client.
//!
//! Knows: what crosses to C, and what clients call a node for.
//! Must not know: how a node does what it is called for.
//! Promises C what include/jakumshe.h says of each function, as long as C keeps what is said there of its pointers. It
//! calls nothing of the system but malloc: who keeps a log in a file writes it in C.
#![tactic(auto)]

mod exports;
mod fault;
mod handle;
mod logs;
mod node;
mod ops;
mod parts;
mod records;
mod renewal;
mod told;

pub use handle::Handle;
pub use records::{HeadBytes, KeyBytes, NameText, RowBytes, ValueBytes};
