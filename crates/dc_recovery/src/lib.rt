//! Laws of recovery: what the data component's log and the written pages give after a crash, with no device
//! and no byte in sight.
//!
//! Knows: what is seen of a leaf, honest leaves, and the records of the data component's log.
//! Must not know: how a record is spelled, devices, any code that splits, merges or recovers.
//! Promises the crates above the laws, each the contract of a function that does nothing.
#![tactic(auto)]

mod laws;

pub use laws::{
    arranged_law, beginning_law, bounded_law, current_law, cut_law, example_law, fit_law,
    halves_law, honest_law, image_law, leaves_law, low_law, numbers_law, readable_law,
    recovery_law, shape_law,
};
