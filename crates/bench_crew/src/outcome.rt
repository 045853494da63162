//! What a measurement comes to.
use record_key::Refusal;
use std::io;
use std::time::Duration;

/// How long the work took, without the load before it, and for how long a processor was busy with it, 0 where that isn't
/// known; how often a client waited for another, and the digest of the rows after it.
#[derive(Drop)]
pub struct Outcome {
    pub took: Duration,
    pub busy: Duration,
    pub waits: u64,
    pub digest: u64,
}

/// What was done, or the error of its refusal.
pub fn done<T>(work: Result<T, Refusal>) -> io::Result<T> {
    match work {
        Ok(done) => Ok(done),
        Err(Refusal::NoMemory) => Err(io::Error::from(io::ErrorKind::OutOfMemory)),
        Err(_) => Err(io::Error::from(io::ErrorKind::Other)),
    }
}
