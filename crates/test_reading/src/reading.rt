//! A slow and plain reading of what a node shows that has settled: its log, and then its table.
//!
//! The log is read twice. First each operation and each compensation is performed, in order, and each must be answered
//! as its answer record says. Then only the operations are performed that were answered and that no compensation names.
//! Both must leave the rows that the table shows.
use crate::plain_table::PlainTable;
use std::alloc::{AllocError, Global};

/// What is wrong with a text that ends with the lines of `settle`, `log` and `table`, if anything is.
pub fn fault_in(alloc: Global, text: &str) -> Result<Option<&'static str>, AllocError> {
    if is_any_refused(text) {
        return Ok(Some("a line is refused"));
    }
    let Some((_, shown)) = text.split_once("\nsettled\n") else {
        return Ok(Some("it isn't settled"));
    };
    let Some((log, left)) = shown.split_once("\nrecords ") else {
        return Ok(Some("there is no log"));
    };
    match left.split_once('\n') {
        Some((counts, table)) => fault_of(alloc, log, counts, table),
        None => Ok(Some("there is no table")),
    }
}

fn is_any_refused(text: &str) -> bool {
    for line in text.split('\n') {
        if line.starts_with("no ") {
            return true;
        }
    }
    false
}

/// What is wrong with a log, with how many records it says that it has, and with the table behind it.
fn fault_of(
    alloc: Global,
    log: &str,
    counts: &str,
    table: &str,
) -> Result<Option<&'static str>, AllocError> {
    if !is_whole(alloc, log, counts)? {
        return Ok(Some("not all records are stable"));
    }
    let Some(left) = all_performed(alloc, log)? else {
        return Ok(Some("an answer is wrong"));
    };
    if left.as_str() != table {
        return Ok(Some("the table isn't what all records leave"));
    }
    if standing_performed(alloc, log)?.as_str() != table {
        return Ok(Some("the table isn't what the operations leave that stand"));
    }
    Ok(None)
}

/// Whether the log says that it has as many records as it shows, and that all are stable.
fn is_whole(alloc: Global, log: &str, counts: &str) -> Result<bool, AllocError> {
    let mut shown: u64 = 0;
    for _ in log.split('\n') {
        shown = shown.saturating_add(1);
    }
    let wanted = format!(in alloc; "{shown} stable {shown}")?;
    Ok(counts == wanted.as_str())
}

/// The table after all operations and compensations, if each is answered as it must be.
fn all_performed(alloc: Global, log: &str) -> Result<Option<String>, AllocError> {
    let mut table = PlainTable::new(alloc);
    for line in log.split('\n') {
        let operation = operation_of(line);
        if !operation.is_empty() {
            let answer = table.perform(operation)?;
            if answer_to(log, word(line, 0)) != answer.as_str() {
                return Ok(None);
            }
        }
    }
    Ok(Some(table.text()?))
}

/// The table after the operations that stand.
fn standing_performed(alloc: Global, log: &str) -> Result<String, AllocError> {
    let mut table = PlainTable::new(alloc);
    for line in log.split('\n') {
        if word(line, 1) == "op" && stands(log, word(line, 0)) {
            let _ = table.perform(operation_of(line))?;
        }
    }
    table.text()
}

/// What is performed by the record of this line, empty where nothing is.
fn operation_of(line: &str) -> &str {
    match word(line, 1) {
        "op" => behind(line, 5),
        "comp" => match behind(line, 7) {
            "none" => "",
            inverse => inverse,
        },
        _ => "",
    }
}

/// Whether the operation of this number was answered, and no compensation names it.
fn stands(log: &str, number: &str) -> bool {
    !answer_to(log, number).is_empty() && !is_undone(log, number)
}

fn is_undone(log: &str, number: &str) -> bool {
    for line in log.split('\n') {
        if word(line, 1) == "comp" && word(line, 4) == number {
            return true;
        }
    }
    false
}

/// The answer to the record of this number, empty where there is none.
fn answer_to<'a>(log: &'a str, number: &str) -> &'a str {
    for line in log.split('\n') {
        if word(line, 1) == "answer" && word(line, 2) == number {
            return behind(line, 3);
        }
    }
    ""
}

/// The word of the line that stands behind this many.
pub fn word(line: &str, count: usize) -> &str {
    let text = behind(line, count);
    match text.split_once(' ') {
        Some((word, _)) => word,
        None => text,
    }
}

/// What stands behind this many words of the line.
pub fn behind(line: &str, count: usize) -> &str {
    let mut left = line;
    for _ in 0..count {
        left = match left.split_once(' ') {
            Some((_, left)) => left,
            None => "",
        };
    }
    left
}
