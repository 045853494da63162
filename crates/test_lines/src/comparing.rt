//! The lines of a file, each called and compared.
use crate::writing::put_refusal;
use record_key::Refusal;
use std::io::ErrorKind;
use std::rt::Files;
use std::{fs, io};

/// An answer of so many bytes takes no memory, so none is refused after what was called has changed.
const ROOM: usize = 65_536;

/// What the lines of a file call.
pub trait Subject {
    /// Does what a line says, and appends what that answers. A refusal is an answer too, but for NoMemory: then
    /// nothing has changed, and the call is made again.
    fn call(&mut self, call: &str, answer: &mut String) -> Result<(), Refusal>;
}

/// A refusal of a call that is to change nothing: NotNow in its place where something has changed.
pub fn refused(refusal: Refusal, is_unchanged: bool) -> Refusal {
    if is_unchanged {
        refusal
    } else {
        Refusal::NotNow
    }
}

/// How many lines agree and differ, and how often memory was refused.
#[derive(Clone, Copy)]
struct Tally {
    agree: u64,
    differ: u64,
    refused: u64,
}

/// Calls each line of a file and compares its answer with what stands behind ` => `, nothing where that isn't there.
/// Lines that are empty or begin with `#` are skipped. Prints each line that differs, and at the end how many agree, or
/// that there is no such file.
pub fn compare<R: Files + Print + AllocGlobal, S: Subject>(
    rt: &R,
    file: &str,
    subject: &mut S,
) -> io::Result<()> {
    let mut tally = Tally {
        agree: 0,
        differ: 0,
        refused: 0,
    };
    let text = match text_of(rt, file, &mut tally) {
        Ok(text) => text,
        Err(error) => return report_missing(rt, file, error),
    };
    let mut answer = buffer(rt, &mut tally)?;
    for line in text.as_str().lines() {
        if !line.is_empty() && !line.starts_with('#') {
            compare_line(rt, line, subject, &mut answer, &mut tally)?;
        }
    }
    report_tally(rt, file, tally)
}

fn report_missing<R: Print>(rt: &R, file: &str, error: io::Error) -> io::Result<()> {
    if error.kind() != ErrorKind::NotFound {
        return Err(error);
    }
    println!(rt; "{file}: no such file")
}

fn report_tally<R: Print>(rt: &R, file: &str, tally: Tally) -> io::Result<()> {
    let Tally {
        agree,
        differ,
        refused,
    } = tally;
    println!(rt; "{file}: {agree} agree, {differ} differ, {refused} refused")
}

fn compare_line<R: Print, S: Subject>(
    rt: &R,
    line: &str,
    subject: &mut S,
    answer: &mut String,
    tally: &mut Tally,
) -> io::Result<()> {
    let (call, wanted) = match line.split_once(" => ") {
        Some(parts) => parts,
        None => (line, ""),
    };
    answer_to(subject, call, answer, tally);
    let got = answer.as_str().trim_end();
    if got == wanted {
        tally.agree = tally.agree.saturating_add(1);
        return Ok(());
    }
    tally.differ = tally.differ.saturating_add(1);
    report(rt, call, wanted, got)
}

fn report<R: Print>(rt: &R, call: &str, wanted: &str, got: &str) -> io::Result<()> {
    println!(rt; "{call}")?;
    println!(rt; "  wanted {wanted}")?;
    println!(rt; "  got    {got}")
}

/// The text of a file, read once more where memory was refused.
fn text_of<R: Files + AllocGlobal>(rt: &R, file: &str, tally: &mut Tally) -> io::Result<String> {
    match read(rt, file) {
        Err(error) if error.kind() == ErrorKind::OutOfMemory => {
            tally.refused = tally.refused.saturating_add(1);
            read(rt, file)
        }
        text => text,
    }
}

/// The text of a file. A program runs beside its data, or in the folder in which the data's folder lies.
fn read<R: Files + AllocGlobal>(rt: &R, file: &str) -> io::Result<String> {
    match fs::read_to_string(rt, file) {
        Err(error) if error.kind() == ErrorKind::NotFound => {
            let path = format!(in rt.alloc(); "data/{file}")?;
            fs::read_to_string(rt, path.as_str())
        }
        text => text,
    }
}

/// Room for answers, asked for once more where memory was refused.
fn buffer<R: AllocGlobal>(rt: &R, tally: &mut Tally) -> io::Result<String> {
    let mut answer = String::new(rt.alloc());
    if answer.reserve(ROOM).is_err() {
        tally.refused = tally.refused.saturating_add(1);
        answer.reserve(ROOM)?;
    }
    Ok(answer)
}

/// What the call answers, made once more where memory was refused.
fn answer_to<S: Subject>(subject: &mut S, call: &str, answer: &mut String, tally: &mut Tally) {
    answer.clear();
    let mut given = subject.call(call, answer);
    if let Err(Refusal::NoMemory) = given {
        tally.refused = tally.refused.saturating_add(1);
        answer.clear();
        given = subject.call(call, answer);
    }
    if let Err(refusal) = given {
        // There is room for it.
        let _ = put_refusal(answer, refusal);
    }
}
