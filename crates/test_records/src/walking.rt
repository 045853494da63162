//! Bytes that are read from one value to the next, whole, cut or changed.
use crate::{dc_records, images, records, replies, requests};
use record_key::Refusal;
use std::alloc::Global;
use std::fmt::Write;

/// What the bytes are to spell.
#[derive(Clone, Copy)]
pub enum Kind {
    Record,
    Request,
    Reply,
    Image,
    DcRecord,
}

#[derive(Drop)]
pub struct Bytes {
    pub alloc: Global,
    pub kind: Kind,
    pub bytes: Vec<u8>,
}

/// What stands at a place.
#[derive(Clone, Copy)]
pub enum Found {
    /// A whole value, which ends here.
    Whole(usize),
    Short,
    Bad(u64),
}

/// Where a value is read, and whether it is told or only counted.
#[derive(Clone, Copy)]
pub struct Reading<'a> {
    pub alloc: Global,
    pub bytes: &'a [u8],
    pub at: usize,
    pub tells: bool,
}

/// Reads the value at a place and writes it again. Tells it, where it is to be told, and where it is written as other
/// bytes.
fn read_one(kind: Kind, reading: &Reading<'_>, answer: &mut String) -> Result<Found, Refusal> {
    match kind {
        Kind::Record => records::read(reading, answer),
        Kind::Request => requests::read(reading, answer),
        Kind::Reply => replies::read(reading, answer),
        Kind::Image => images::read(reading, answer),
        Kind::DcRecord => dc_records::read(reading, answer),
    }
}

/// Reads values from a place to the end, or to the first that isn't whole.
fn read_all(kind: Kind, start: Reading<'_>, answer: &mut String) -> Result<Found, Refusal> {
    let mut reading = start;
    for _ in 0..=reading.bytes.len() {
        match read_one(kind, &reading, answer)? {
            Found::Whole(next) if next < reading.bytes.len() => reading.at = next,
            end => return Ok(end),
        }
        if reading.tells {
            answer.push_str("; ")?;
        }
    }
    Ok(Found::Whole(reading.at))
}

/// Tells each value, and how it ends where the last one isn't whole.
pub fn put_spelled(read: &Bytes, from: usize, answer: &mut String) -> Result<(), Refusal> {
    let start = Reading {
        alloc: read.alloc,
        bytes: read.bytes.as_slice(),
        at: from,
        tells: true,
    };
    match read_all(read.kind, start, answer)? {
        Found::Whole(_) => {}
        Found::Short => answer.push_str("short")?,
        Found::Bad(place) => write!(answer, "bad {place}")?,
    }
    Ok(())
}

/// How many bytes were read to their end, and how many not.
#[derive(Clone, Copy)]
struct Counts {
    whole: u64,
    short: u64,
    bad: u64,
}

impl Counts {
    fn new() -> Counts {
        Counts {
            whole: 0,
            short: 0,
            bad: 0,
        }
    }

    /// Reads the bytes from their front, and counts how that ends.
    fn count(
        &mut self,
        (alloc, kind): (Global, Kind),
        bytes: &[u8],
        answer: &mut String,
    ) -> Result<(), Refusal> {
        let start = Reading {
            alloc,
            bytes,
            at: 0,
            tells: false,
        };
        match read_all(kind, start, answer)? {
            Found::Whole(_) => self.whole = self.whole.saturating_add(1),
            Found::Short => self.short = self.short.saturating_add(1),
            Found::Bad(_) => self.bad = self.bad.saturating_add(1),
        }
        Ok(())
    }

    fn put(self, answer: &mut String) -> Result<(), Refusal> {
        let Counts { whole, short, bad } = self;
        write!(answer, "whole {whole} short {short} bad {bad}")?;
        Ok(())
    }
}

/// How each beginning is read, but for the whole.
pub fn put_cuts(read: &Bytes, answer: &mut String) -> Result<(), Refusal> {
    let mut counts = Counts::new();
    for end in 0..read.bytes.len() {
        counts.count((read.alloc, read.kind), &read.bytes[..end], answer)?;
    }
    counts.put(answer)
}

/// How the bytes are read with one byte changed to one value, each of these in turn.
pub fn put_changes(read: &mut Bytes, answer: &mut String) -> Result<(), Refusal> {
    let mut counts = Counts::new();
    let of = (read.alloc, read.kind);
    for place in 0..read.bytes.len() {
        put_changes_at(&mut counts, of, &mut read.bytes, place, answer)?;
    }
    counts.put(answer)
}

fn put_changes_at(
    counts: &mut Counts,
    of: (Global, Kind),
    bytes: &mut Vec<u8>,
    place: usize,
    answer: &mut String,
) -> Result<(), Refusal> {
    let Some(before) = bytes.get(place).copied() else {
        return Ok(());
    };
    for other in 0..=255u8 {
        if let Some(byte) = bytes.get_mut(place) {
            *byte = other;
        }
        counts.count(of, bytes, answer)?;
    }
    if let Some(byte) = bytes.get_mut(place) {
        *byte = before;
    }
    Ok(())
}
