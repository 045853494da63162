//! System transactions: what a data component does to its leaves beside what it is asked to perform.
//!
//! Knows: leaves as a list in key order, records of their log, images of leaves, and what both devices promise.
//! Must not know: sessions' rules, requests, transactions, or how the leaves are held.
//! Promises the next crates: a split or a merge stands in the log before the leaves change, and the log is stable
//! before a page tells of it; a refused call names its cause and leaves what its definition says; each call says how
//! often it uses a device, and `Device` is answered only at a call that was due to fail; `IsSystem` holds.
#![tactic(auto)]

mod arranging;
mod change_log;
mod devices;
mod frames;
mod image;
mod known;
mod laws;
mod opening;
mod pages;
mod parting;
mod reading;
mod recovering;
mod replaying;
mod shelf;
mod system;
mod taking_back;
mod tended;
mod writing;

pub use change_log::ChangeLog;
pub use devices::{Device, Devices, Refused};
pub use image::{image_of, leaf_of};
pub use laws::{beginning_law, checkpoint_law, crash_law, never_bad_law, reading_law, restart_law};
pub use opening::Opened;
pub use recovering::{Recovered, recover};
pub use system::SystemTxns;
pub use tended::{Neighbours, Tended};
