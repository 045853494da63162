//! A slow reader of a log's bytes, which reads the log again for each record.
use crate::opening::Outcome;
use codec::{Taken, take_record};
use history::Record;
use log_laws::fits;
use record_key::Refusal;
use std::alloc::Global;

/// The place after the record that stands next, if it fits.
fn next_place(
    bytes: &[u8],
    at: usize,
    records: &mut Vec<Record>,
) -> Result<Option<usize>, Refusal> {
    match take_record(bytes, at) {
        Taken::Record(found, next) if fits(records, &found) => {
            records.push(found)?;
            Ok(Some(next))
        }
        _ => Ok(None),
    }
}

/// What opening these bytes is to come to.
pub fn slowly(alloc: Global, bytes: &[u8]) -> Result<Outcome, Refusal> {
    let mut records = Vec::new(alloc);
    let mut at = 0;
    for _ in 0..bytes.len() {
        match next_place(bytes, at, &mut records)? {
            Some(next) => at = next,
            None => break,
        }
    }
    match take_record(bytes, at) {
        Taken::Short => Ok(Outcome::Records(records.len(), at)),
        _ => Ok(Outcome::No(Refusal::BadBytes(at as u64))),
    }
}
