//! What a line calls.
use crate::images::put_blank;
use crate::rows::compare_rows;
use crate::walking::{Bytes, Kind, put_changes, put_cuts, put_spelled};
use codec::{FrameEnd, frame_end};
use record_key::Refusal;
use std::alloc::Global;
use std::fmt::Write;
use test_lines::{OUTSIDE, Subject, Words, bytes_of};

/// Calls that leave nothing behind.
#[derive(Drop)]
pub struct Calls {
    pub alloc: Global,
}

impl Subject for Calls {
    fn call(&mut self, call: &str, answer: &mut String) -> Result<(), Refusal> {
        let mut words = Words::new(self.alloc, call);
        match words.word() {
            "record" => call_kind(self.alloc, Kind::Record, &mut words, answer),
            "request" => call_kind(self.alloc, Kind::Request, &mut words, answer),
            "reply" => call_kind(self.alloc, Kind::Reply, &mut words, answer),
            "image" => call_kind(self.alloc, Kind::Image, &mut words, answer),
            "dcrecord" => call_kind(self.alloc, Kind::DcRecord, &mut words, answer),
            "frame" => put_frame_end(self.alloc, &mut words, answer),
            "blank" => put_blank(self.alloc, words.number()?, answer),
            "rows" => compare_rows(self.alloc, &mut words, answer),
            _ => Err(OUTSIDE),
        }
    }
}

/// What bytes of this kind are read as, from their front or from a place, or how often they are damaged so and so.
fn call_kind(
    alloc: Global,
    kind: Kind,
    words: &mut Words<'_>,
    answer: &mut String,
) -> Result<(), Refusal> {
    let how = words.word();
    let from = if how == "from" { words.number()? } else { 0 };
    let mut read = Bytes {
        alloc,
        kind,
        bytes: bytes_of(alloc, words.rest())?,
    };
    match how {
        "read" | "from" => put_spelled(&read, from as usize, answer),
        "cuts" => put_cuts(&read, answer),
        "changes" => put_changes(&mut read, answer),
        _ => Err(OUTSIDE),
    }
}

/// Where the frame ends that begins at a place, where no body is longer than a limit.
fn put_frame_end(alloc: Global, words: &mut Words<'_>, answer: &mut String) -> Result<(), Refusal> {
    let (limit, at) = (words.number()?, words.number()?);
    let bytes = bytes_of(alloc, words.rest())?;
    match frame_end(&bytes, at as usize, limit) {
        FrameEnd::At(end) => write!(answer, "at {end}")?,
        FrameEnd::Short => answer.push_str("short")?,
        FrameEnd::Bad => answer.push_str("bad")?,
    }
    Ok(())
}
