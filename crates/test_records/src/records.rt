//! Records of the transaction log.
ghost use Rattle.codec.specs.Records.{HasNumbers};

use crate::asked::compare_asked;
use crate::walking::{Found, Reading};
use crate::written::{marked, told, unwritten};
use codec::{Taken, put_record, take_record};
use history::Record;
use record_key::Refusal;

#[tactic(auto, using(crate::proofs::Ordered::has_numbers))]
pub fn read(reading: &Reading<'_>, answer: &mut String) -> Result<Found, Refusal> {
    match take_record(reading.bytes, reading.at) {
        Taken::Record(found, next) => {
            let out = written(reading, &found)?;
            if reading.tells {
                test_lines::put_record(answer, &found)?;
                compare_asked(reading, &found, answer)?;
            }
            told(reading, next, &out, answer)
        }
        Taken::Short => Ok(Found::Short),
        Taken::Bad(place) => Ok(Found::Bad(place)),
    }
}

/// What is written of it behind the mark. Refused NoMemory.
fn written(reading: &Reading<'_>, found: &Record) -> Result<Vec<u8>, Refusal>
    requires { HasNumbers found.now }
{
    let mut out = marked(reading)?;
    match put_record(&mut out, found) {
        Ok(()) => Ok(out),
        Err(refusal) => Err(unwritten(refusal, &out)),
    }
}
