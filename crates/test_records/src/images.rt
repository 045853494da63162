//! Images of leaves.
ghost use Rattle.codec.specs.Images.{IsOrderedImage};

use crate::rows::put_rows;
use crate::walking::{Found, Reading};
use crate::written::{marked, told, unwritten};
use codec::{LeafImage, NUMBER_LIMIT, Rows, Taken, put_leaf_image, take_leaf_image};
use record_key::{Entries, Entry, Key, Refusal};
use std::alloc::Global;
use std::fmt::Write;
use test_lines::{OUTSIDE, put_answer, put_hex, put_key};

/// Reads the image that all of the bytes are.
#[tactic(auto, using(crate::proofs::Ordered::image_is_ordered))]
pub fn read(reading: &Reading<'_>, answer: &mut String) -> Result<Found, Refusal> {
    let taken = take_leaf_image(reading.alloc, reading.bytes)?;
    match taken {
        Taken::Record(found, next) => {
            let out = written(reading, &found)?;
            if reading.tells {
                put_fields(answer, &found)?;
            }
            told(reading, next, &out, answer)
        }
        Taken::Short => Ok(Found::Short),
        Taken::Bad(place) => Ok(Found::Bad(place)),
    }
}

/// What is written of it behind the mark. Refused NoMemory.
fn written(reading: &Reading<'_>, found: &LeafImage) -> Result<Vec<u8>, Refusal>
    requires { IsOrderedImage found.now }
{
    let mut out = marked(reading)?;
    match put_leaf_image(&mut out, &found.borrowed()) {
        Ok(()) => Ok(out),
        Err(refusal) => Err(unwritten(refusal, &out)),
    }
}

pub fn put_fields(answer: &mut String, image: &LeafImage) -> Result<(), Refusal> {
    let LeafImage { id, last, low, .. } = image;
    write!(answer, "leaf {id} last {last} low {low}")?;
    put_fence(answer, " from", &image.low_fence)?;
    put_fence(answer, " to", &image.high_fence)?;
    answer.push_str(" rows")?;
    put_rows(answer, &image.rows)?;
    answer.push_str(" entries")?;
    put_entries(answer, &image.entries)
}

fn put_fence(answer: &mut String, name: &str, fence: &Option<Key>) -> Result<(), Refusal> {
    match fence {
        Some(key) => put_key(answer, name, key),
        None => Ok(()),
    }
}

fn put_entries(answer: &mut String, entries: &Entries) -> Result<(), Refusal> {
    for at in 0..entries.len() {
        put_entry(answer, &entries.entry(at))?;
    }
    Ok(())
}

fn put_entry(answer: &mut String, entry: &Entry) -> Result<(), Refusal> {
    write!(answer, " {}", entry.number)?;
    put_key(answer, "", &entry.key)?;
    answer.push(' ')?;
    put_answer(answer, &entry.answer)
}

/// The bytes of an image without fences, records and entries, which was made and not read.
pub fn put_blank(alloc: Global, id: u64, answer: &mut String) -> Result<(), Refusal> {
    if id >= NUMBER_LIMIT {
        return Err(OUTSIDE);
    }
    let image = LeafImage {
        id,
        last: 0,
        low: 0,
        low_fence: None,
        high_fence: None,
        rows: Rows::new(alloc),
        entries: Entries::new(alloc),
    };
    let mut out = Vec::new(alloc);
    put_leaf_image(&mut out, &image.borrowed())?;
    put_hex(answer, &out)
}
