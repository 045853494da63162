//! A part of a script.
use crate::words::Words;

/// Lines that are played together, from the beginning on.
#[derive(Drop)]
pub struct Section<'a> {
    pub name: &'a str,
    pub lines: &'a str,
    /// How many calls of the log's device are made to fail in turn.
    pub log_calls: Option<u64>,
    /// How many of the pages'.
    pub page_calls: Option<u64>,
}

impl<'a> Section<'a> {
    /// The first line is the section's name.
    pub fn of(text: &'a str) -> Section<'a> {
        let (name, lines) = match text.split_once("\n") {
            Some(parts) => parts,
            None => (text, ""),
        };
        Section {
            name,
            lines,
            log_calls: calls_in(lines, "in turn log "),
            page_calls: calls_in(lines, "in turn pages "),
        }
    }

    /// Whether the line is a call, and no comment.
    pub fn is_call(line: &str) -> bool {
        !line.is_empty() && !line.starts_with("#") && !line.starts_with("in turn ")
    }

    /// Prints a line that was answered otherwise than it wants.
    pub fn report<R: Print>(&self, rt: &R, call: &str, wanted: &str, got: &str) {
        let name = self.name;
        // A reader that is gone is no fault of what is tested.
        let _ = println!(rt; "{name}: {call}: wanted {wanted}, got {got}");
    }
}

/// The number behind these words, where a line begins with them.
fn calls_in(lines: &str, beginning: &str) -> Option<u64> {
    for line in lines.lines() {
        if let Some(rest) = line.strip_prefix(beginning) {
            return Words::of(rest).number().ok();
        }
    }
    None
}
