//! The text of what is wrong with a script.
use crate::fault::{Fault, fault_of};
use crate::forms::{FORMS, Kind, parts_of};
use shell_scripts::first_fault;
use std::alloc::{AllocError, Global};
use std::fmt::Write;

/// Of a line or a word no more bytes than these are shown.
const MOST_SHOWN: usize = 60;

/// Which line of a script is outside the grammar, and why; none where it has no such line.
pub fn reason(alloc: Global, script: &[u8]) -> Result<Option<String>, AllocError> {
    match first_fault(script) {
        Some(number) => {
            let line = line_at(script, number);
            Ok(Some(reason_of(alloc, number, line)?))
        }
        None => Ok(None),
    }
}

/// Why this line, which has this number, is outside the grammar.
pub fn reason_of(alloc: Global, number: u64, line: &[u8]) -> Result<String, AllocError> {
    let mut text = String::new(alloc);
    write!(text, "line {number} `")?;
    put_shown(&mut text, line)?;
    text.push_str("`: ")?;
    put_fault(&mut text, fault_of(alloc, line)?)?;
    Ok(text)
}

/// The line of this number, counted from 1.
fn line_at(script: &[u8], number: u64) -> &[u8] {
    let before = number.saturating_sub(1) as usize;
    script
        .split(|byte| *byte == b'\n')
        .nth(before)
        .unwrap_or(b"")
}

fn put_fault(text: &mut String, fault: Fault<'_>) -> Result<(), AllocError> {
    match fault {
        Fault::Return => text.push_str("it ends with CR LF; a line ends with LF alone"),
        Fault::Tab => text.push_str("a tab stands in it; between two words stands one space"),
        Fault::Space => text.push_str(
            "it has a space too many; between two words stands one, and none before or behind them",
        ),
        Fault::Name { name, near } => put_name(text, name, near),
        Fault::Count { name } => put_forms(text, name),
        Fault::Word { word, kind } => {
            text.push_str("`")?;
            put_shown(text, word)?;
            write!(text, "` is not {}", kind.meaning())
        }
        Fault::Other => text.push_str("it is outside the grammar"),
    }
}

fn put_name(text: &mut String, name: &[u8], near: Option<&str>) -> Result<(), AllocError> {
    text.push_str("no line begins with `")?;
    put_shown(text, name)?;
    text.push_str("`")?;
    match near {
        Some(near) => write!(text, "; did you mean `{near}`?"),
        None => Ok(()),
    }
}

/// How the lines of this name are written.
fn put_forms(text: &mut String, name: &str) -> Result<(), AllocError> {
    let mut has_any = false;
    for form in FORMS.lines() {
        let (known, letters) = parts_of(form);
        if known == name {
            text.push_str(if has_any { " or `" } else { "it is written `" })?;
            put_form(text, name, letters)?;
            has_any = true;
        }
    }
    Ok(())
}

fn put_form(text: &mut String, name: &str, letters: &str) -> Result<(), AllocError> {
    text.push_str(name)?;
    for letter in letters.split_terminator(' ') {
        text.push_str(" ")?;
        text.push_str(Kind::of(letter).letter())?;
    }
    text.push_str("`")
}

/// The bytes as they are where they are ASCII's visible ones and spaces, else by their hexadecimal digits.
fn put_shown(text: &mut String, bytes: &[u8]) -> Result<(), AllocError> {
    for byte in bytes.iter().take(MOST_SHOWN) {
        match *byte {
            b' '..=b'~' => text.push(char::from(*byte))?,
            byte => write!(text, "\\x{byte:02x}")?,
        }
    }
    if bytes.len() > MOST_SHOWN {
        text.push_str("..")?;
    }
    Ok(())
}
