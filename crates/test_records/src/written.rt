//! What is written again.
use crate::walking::{Found, Reading};
use record_key::Refusal;
use test_lines::{put_hex, refused};

/// Bytes behind which a value is written, so that a writer that begins anew is seen.
pub fn marked(reading: &Reading<'_>) -> Result<Vec<u8>, Refusal> {
    Ok(Vec::from_slice(reading.alloc, &[0xff])?)
}

/// The refusal of a writer. It has left its bytes as they were.
pub fn unwritten(refusal: Refusal, out: &[u8]) -> Refusal {
    refused(refusal, out == [0xff].as_slice())
}

/// Tells where other bytes were written than stand between the reading's place and the next.
pub fn told(
    reading: &Reading<'_>,
    next: usize,
    out: &[u8],
    answer: &mut String,
) -> Result<Found, Refusal> {
    let spelled = reading.bytes.get(reading.at..next);
    if out.get(1..) != spelled {
        answer.push_str(" but written as ")?;
        put_unmarked(answer, out)?;
    }
    Ok(Found::Whole(next))
}

fn put_unmarked(answer: &mut String, out: &[u8]) -> Result<(), Refusal> {
    match out.split_first() {
        Some((_, written)) => put_hex(answer, written),
        None => Ok(()),
    }
}
