//! What a text tells clients, and the rows that it shows.
use crate::reading::{behind, word};
use std::alloc::{AllocError, Global};

/// The lines that tell a client something, with each transaction by its place among those that were begun, and those of
/// records.
pub fn told_lines(alloc: Global, text: &str) -> Result<String, AllocError> {
    let mut told = String::new(alloc);
    let mut begun = Vec::new(alloc);
    for line in text.split('\n') {
        if word(line, 0) == "txn" {
            begun.push(word(line, 1))?;
        }
        let (what, count) = told_by(line);
        if count > 0 {
            let place = place_of(begun.as_slice(), word(line, count));
            let rest = behind(line, count.saturating_add(1));
            told.push_str(format!(in alloc; "{what} #{place} {rest}\n")?.as_str())?;
        } else if line.contains('=') {
            told.push_str(line)?;
            told.push('\n')?;
        }
    }
    Ok(told)
}

/// What the line tells a client, and how many words stand before the number of its transaction; 0 where it tells none.
fn told_by(line: &str) -> (&str, usize) {
    match word(line, 0) {
        "rolled" => ("rolled back", 2),
        "rows" if behind(line, 2).is_empty() => ("", 0),
        what @ ("answer" | "row" | "rows" | "committed" | "back" | "lost") => (what, 1),
        _ => ("", 0),
    }
}

/// The place, from 1, of the last transaction that was begun under this number; 0 if there is none.
fn place_of(begun: &[&str], number: &str) -> usize {
    let mut found = 0;
    for (place, other) in begun.iter().enumerate() {
        if *other == number {
            found = place.saturating_add(1);
        }
    }
    found
}
