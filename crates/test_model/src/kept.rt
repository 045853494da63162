//! What a log says of its transactions, read record by record.
use history::Record;
use std::alloc::{AllocError, Global};

/// Those that began and neither committed nor ended, the earliest first.
pub fn losers(alloc: Global, log: &[Record]) -> Result<Vec<u64>, AllocError> {
    let mut losers = Vec::new(alloc);
    for (place, record) in log.iter().enumerate() {
        if let Record::Begin = record {
            let txn = place as u64 + 1;
            if !is_over(log, txn) {
                losers.push(txn)?;
            }
        }
    }
    Ok(losers)
}

fn is_over(log: &[Record], txn: u64) -> bool {
    log.contains(&Record::End { txn }) || has_committed(log, txn)
}

pub fn has_committed(log: &[Record], txn: u64) -> bool {
    log.contains(&Record::Commit { txn })
}
