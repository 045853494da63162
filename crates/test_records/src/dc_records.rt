//! Records of the data component's log.
ghost use Rattle.codec.specs.DcRecords.{IsOrderedDcRecord};

use crate::images;
use crate::walking::{Found, Reading};
use crate::written::{marked, told, unwritten};
use codec::{DcRecord, Taken, put_dc_record, take_dc_record};
use record_key::Refusal;
use std::fmt::Write;
use test_lines::put_key;

#[tactic(auto, using(crate::proofs::Ordered::dc_record_is_ordered))]
pub fn read(reading: &Reading<'_>, answer: &mut String) -> Result<Found, Refusal> {
    let taken = take_dc_record(reading.alloc, reading.bytes, reading.at)?;
    match taken {
        Taken::Record(found, next) => {
            let out = written(reading, &found)?;
            if reading.tells {
                put_fields(answer, &found)?;
            }
            told(reading, next, &out, answer)
        }
        Taken::Short => Ok(Found::Short),
        Taken::Bad(place) => Ok(Found::Bad(place)),
    }
}

/// What is written of it behind the mark. Refused NoMemory.
fn written(reading: &Reading<'_>, found: &DcRecord) -> Result<Vec<u8>, Refusal>
    requires { IsOrderedDcRecord found.now }
{
    let mut out = marked(reading)?;
    match put_dc_record(&mut out, &found.borrowed()) {
        Ok(()) => Ok(out),
        Err(refusal) => Err(unwritten(refusal, &out)),
    }
}

fn put_fields(answer: &mut String, found: &DcRecord) -> Result<(), Refusal> {
    match found {
        DcRecord::Accept { session } => write!(answer, "accept session {session}")?,
        DcRecord::Split { left, cut, right } => {
            write!(answer, "split {left}")?;
            put_key(answer, " cut", cut)?;
            answer.push(' ')?;
            images::put_fields(answer, right)?;
        }
        DcRecord::Merge {
            left,
            right,
            merged,
        } => {
            write!(answer, "merge {left} {right} ")?;
            images::put_fields(answer, merged)?;
        }
    }
    Ok(())
}
