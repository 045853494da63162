//! A log of which a byte is changed, or the last bytes are missing.
use crate::counts::Counts;
use crate::files;
use crate::opened::{Way, put_run, put_run_in_memory};
use record_key::Refusal;
use shell_scripts::refusal_of;
use std::ops::Range;

const BITS: [u8; 8] = [1, 2, 4, 8, 16, 32, 64, 128];

/// Where the bytes are damaged.
#[derive(Clone, Copy)]
pub enum Device {
    /// A log in memory.
    Memory,
    /// The file of a store's log.
    File,
}

/// Gives the log these bytes, opens it and counts what the script comes to, or why it isn't run; of a file also whether a
/// refused opening has changed its bytes.
fn count(
    rt: &HostRuntime,
    at: Device,
    bytes: &[u8],
    script: &[u8],
    counts: &mut Counts,
) -> Result<(), Refusal> {
    let mut outcome = String::new(rt.alloc());
    match at {
        Device::Memory => put_run_in_memory(rt, bytes, script, &mut outcome)?,
        Device::File => put_run_on_file(rt, bytes, script, &mut outcome)?,
    }
    counts.add(outcome.as_str(), 1)
}

fn put_run_on_file(
    rt: &HostRuntime,
    bytes: &[u8],
    script: &[u8],
    outcome: &mut String,
) -> Result<(), Refusal> {
    files::write(rt, files::LOG, bytes).map_err(|error| refusal_of(&error))?;
    let has_run = put_run(rt, Way::Writing, script, outcome)?;
    if !has_run && !is_log(rt, bytes)? {
        outcome.push_str(" changed")?;
    }
    Ok(())
}

fn is_log(rt: &HostRuntime, bytes: &[u8]) -> Result<bool, Refusal> {
    let found = files::read(rt, files::LOG).map_err(|error| refusal_of(&error))?;
    Ok(found.as_slice() == bytes)
}

/// Each bit of these bytes of the log changed, one at a time.
pub fn count_flips(
    rt: &HostRuntime,
    at: Device,
    log: &mut Vec<u8>,
    places: Range<usize>,
    script: &[u8],
    counts: &mut Counts,
) -> Result<(), Refusal> {
    for place in places {
        for bit in BITS {
            flip(log, place, bit);
            count(rt, at, log, script, counts)?;
            flip(log, place, bit);
        }
    }
    Ok(())
}

fn flip(log: &mut Vec<u8>, place: usize, bit: u8) {
    if let Some(byte) = log.get_mut(place) {
        *byte ^= bit;
    }
}

/// One added to each of these bytes of the log, one at a time; it runs round.
pub fn count_raised(
    rt: &HostRuntime,
    at: Device,
    log: &mut Vec<u8>,
    places: Range<usize>,
    script: &[u8],
    counts: &mut Counts,
) -> Result<(), Refusal> {
    for place in places {
        raise(log, place, 1);
        count(rt, at, log, script, counts)?;
        raise(log, place, u8::MAX);
    }
    Ok(())
}

fn raise(log: &mut Vec<u8>, place: usize, by: u8) {
    if let Some(byte) = log.get_mut(place) {
        *byte = byte.wrapping_add(by);
    }
}

/// The log cut to each of these lengths.
pub fn count_cuts(
    rt: &HostRuntime,
    at: Device,
    log: &[u8],
    lengths: Range<usize>,
    script: &[u8],
    counts: &mut Counts,
) -> Result<(), Refusal> {
    for length in lengths {
        if let Some(kept) = log.get(..length) {
            count(rt, at, kept, script, counts)?;
        }
    }
    Ok(())
}
