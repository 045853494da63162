//! What outlives a crash.
use record_key::Refusal;

/// Both devices of a data component.
#[derive(Debug, Drop)]
pub struct Devices<D, P> {
    pub log: D,
    pub pages: P,
}

/// Devices on which nothing was begun, as they were, and why.
#[derive(Debug, Drop)]
pub struct Refused<D, P> {
    pub refusal: Refusal,
    pub devices: Devices<D, P>,
}

/// One of the two.
#[derive(Clone, Copy, Debug, PartialEq, Eq)]
pub enum Device {
    Log,
    Pages,
}
