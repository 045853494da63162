//! What is wrong with a line.
use crate::forms::{FORMS, Kind, parts_of};
use crate::near::nearest;
use shell_scripts::request;
use std::alloc::{AllocError, Global};

/// What is wrong with a line that is outside the grammar.
#[derive(Clone, Copy)]
pub(crate) enum Fault<'a> {
    /// It ends with CR LF.
    Return,
    /// A tab stands in it.
    Tab,
    /// A space is missing its word.
    Space,
    /// It begins with the name of no line; this one is near.
    Name {
        name: &'a [u8],
        near: Option<&'static str>,
    },
    /// More or fewer words follow its name.
    Count {
        name: &'static str,
    },
    /// A word isn't of the kind that belongs there.
    Word {
        word: &'a [u8],
        kind: Kind,
    },
    /// None of these.
    Other,
}

/// What is wrong with a line that is outside the grammar.
pub(crate) fn fault_of(alloc: Global, line: &[u8]) -> Result<Fault<'_>, AllocError> {
    if line.ends_with(b"\r") {
        return Ok(Fault::Return);
    }
    if line.contains(&b'\t') {
        return Ok(Fault::Tab);
    }
    let mut words = Vec::new(alloc);
    for word in line.split(|byte| *byte == b' ') {
        if word.is_empty() {
            return Ok(Fault::Space);
        }
        words.push(word)?;
    }
    match words.split_first() {
        Some((name, words)) => fault_behind(alloc, *name, words),
        None => Ok(Fault::Other),
    }
}

/// What is wrong with a line of this name and these words.
fn fault_behind<'a>(
    alloc: Global,
    name: &'a [u8],
    words: &[&'a [u8]],
) -> Result<Fault<'a>, AllocError> {
    let mut named = None;
    for form in FORMS.lines() {
        let (known, letters) = parts_of(form);
        if known.as_bytes() == name {
            if letters.split_terminator(' ').count() == words.len() {
                return fault_in(alloc, letters, name, words);
            }
            named = Some(known);
        }
    }
    match named {
        Some(name) => Ok(Fault::Count { name }),
        None => Ok(Fault::Name {
            name,
            near: nearest(alloc, name)?,
        }),
    }
}

/// Which of these words isn't of the kind that belongs in its place.
fn fault_in<'a>(
    alloc: Global,
    letters: &str,
    name: &[u8],
    words: &[&'a [u8]],
) -> Result<Fault<'a>, AllocError> {
    for (place, word) in words.iter().enumerate() {
        if !fits(alloc, letters, name, place, *word)? {
            return Ok(Fault::Word {
                word: *word,
                kind: Kind::of(letters.split(' ').nth(place).unwrap_or("")),
            });
        }
    }
    Ok(Fault::Other)
}

/// Whether a line with this word at its place, and others that are right, is in the grammar.
fn fits(
    alloc: Global,
    letters: &str,
    name: &[u8],
    place: usize,
    word: &[u8],
) -> Result<bool, AllocError> {
    let mut line = Vec::new(alloc);
    line.extend_from_slice(name)?;
    for (at, letter) in letters.split(' ').enumerate() {
        line.push(b' ')?;
        line.extend_from_slice(if at == place {
            word
        } else {
            Kind::of(letter).sample()
        })?;
    }
    Ok(request(line.as_slice()).is_some())
}
