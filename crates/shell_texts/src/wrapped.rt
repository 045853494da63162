//! Lines of at most 100 columns.
use crate::text::Text;
use std::io;

/// The most columns of a line.
const COLUMNS: usize = 100;
/// How many spaces stand before the rest of a line that was too long.
const INDENT: usize = 9;
/// The most columns behind these.
const PART: usize = COLUMNS - INDENT;

/// Writes the lines, each broken between words where it is too long, and in a word that is too long by itself.
pub fn put_wrapped<W: io::Write>(text: &mut Text<'_, W>, lines: &[u8]) {
    for line in lines.split(|byte| *byte == b'\n') {
        if !line.is_empty() {
            put_line(text, line);
        }
    }
}

fn put_line<W: io::Write>(text: &mut Text<'_, W>, line: &[u8]) {
    let mut column = 0;
    for word in line.split(|byte| *byte == b' ') {
        column = put_word(text, word, column);
    }
    text.say("\n");
}

/// Writes a word and what separates it from the one before. Gives the column behind it.
fn put_word<W: io::Write>(text: &mut Text<'_, W>, word: &[u8], column: usize) -> usize {
    if column == 0 {
        text.bytes(word);
        return word.len().max(1);
    }
    let behind = column.saturating_add(1).saturating_add(word.len());
    if behind <= COLUMNS {
        text.say(" ").bytes(word);
        return behind;
    }
    put_parts(text, word)
}

/// Writes a word on lines of its own.
fn put_parts<W: io::Write>(text: &mut Text<'_, W>, word: &[u8]) -> usize {
    let mut column = 0;
    for part in word.chunks(PART) {
        text.say("\n         ").bytes(part);
        column = part.len().saturating_add(INDENT);
    }
    column
}
