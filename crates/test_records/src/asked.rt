//! What a record asks for, sent by the bytes that spell it there, beside the same sent by its fields.
ghost use Rattle.std.specs.Prelude.{◌≤◌, length};

use crate::walking::Reading;
use crate::written::{marked, unwritten};
use codec::{Request, asked_bytes, put_perform, put_request};
use history::Record;
use record_key::{Op, Refusal};

/// Tells where the two differ.
pub fn compare_asked(
    reading: &Reading<'_>,
    found: &Record,
    answer: &mut String,
) -> Result<(), Refusal> {
    match (asked_bytes(reading.bytes, reading.at), op_of(found)) {
        (Some(asked), Some(op)) => compare_sent(reading, asked, op, answer),
        (None, None) => Ok(()),
        _ => Ok(answer.push_str(" but asked otherwise")?),
    }
}

/// The operation of an Op, or the inverse of a Comp that has one.
fn op_of(found: &Record) -> Option<&Op> {
    match found {
        Record::Op { op, .. } => Some(op),
        Record::Comp { inverse, .. } => inverse.as_ref(),
        _ => None,
    }
}

fn compare_sent(
    reading: &Reading<'_>,
    asked: &[u8],
    op: &Op,
    answer: &mut String,
) -> Result<(), Refusal>
    requires { length asked.now ≤ 164 }
{
    let mut sent = marked(reading)?;
    if let Err(refusal) = put_perform(&mut sent, 1, 2, 3, asked) {
        return Err(unwritten(refusal, &sent));
    }
    let perform = Request::Perform {
        session: 1,
        number: 2,
        stable: 3,
        op: op.copied(),
    };
    let mut plain = marked(reading)?;
    if let Err(refusal) = put_request(&mut plain, &perform) {
        return Err(unwritten(refusal, &plain));
    }
    if sent != plain {
        answer.push_str(" but sent otherwise")?;
    }
    Ok(())
}
