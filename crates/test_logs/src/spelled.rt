//! Records as bytes.
ghost use Rattle.std.specs.Prelude.{◌≡◌, true};
ghost use Rattle.codec.specs.Records.{HasNumbers};

use codec::put_record;
use history::Record;
use record_key::Refusal;
use std::alloc::Global;

/// Numbers are below this one where a record is spelled.
const LIMIT: u64 = 281_474_976_710_656;

/// Whether the record has a spelling.
pub fn has_numbers(found: &Record) -> bool
    ensures { result ≡ true → HasNumbers found.now }
{
    match found {
        Record::Session | Record::Begin => true,
        Record::Op { txn, prev, .. } => *txn < LIMIT && *prev < LIMIT,
        Record::Answer { of, .. } => *of < LIMIT,
        Record::Comp {
            txn,
            undoes,
            next,
            ..
        } => *txn < LIMIT && *undoes < LIMIT && *next < LIMIT,
        Record::Commit { txn } | Record::End { txn } => *txn < LIMIT,
        Record::Checkpoint { low } => *low < LIMIT,
    }
}

/// The frames of these records. Refused NumbersSpent where a record has none.
pub fn spelled(alloc: Global, records: &[Record]) -> Result<Vec<u8>, Refusal> {
    let mut bytes = Vec::new(alloc);
    for found in records {
        if !has_numbers(found) {
            return Err(Refusal::NumbersSpent);
        }
        put_record(&mut bytes, found)?;
    }
    Ok(bytes)
}
