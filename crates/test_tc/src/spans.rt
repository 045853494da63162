//! Modes and spans that words spell.
use record_key::{Key, Refusal};
use tc_locks::{Mode, Span};
use test_calls::{Bytes, UNREADABLE, Words};

pub fn mode_of(words: &mut Words) -> Result<Mode, Refusal> {
    match words.word() {
        "shared" => Ok(Mode::Shared),
        "increment" => Ok(Mode::Increment),
        "exclusive" => Ok(Mode::Exclusive),
        _ => Err(UNREADABLE),
    }
}

/// A key as it is; a range with two dots behind its low end, and behind these its high end if it has one.
pub fn span_of(words: &mut Words) -> Result<Span, Refusal> {
    let word = words.word();
    match word.split_once("..") {
        None => Ok(Span::Key(key_of(word)?)),
        Some((low, "")) => Ok(Span::Range {
            low: key_of(low)?,
            high: None,
        }),
        Some((low, high)) => Ok(Span::Range {
            low: key_of(low)?,
            high: Some(key_of(high)?),
        }),
    }
}

fn key_of(word: &str) -> Result<Key, Refusal> {
    Key::new(Bytes::spelled(word)?.as_slice())
}
