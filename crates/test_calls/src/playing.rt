//! Scripts of lines, played on what they are about.
use crate::section::Section;
use crate::tally::Tally;
use crate::text::Text;
use crate::words::{UNREADABLE, Words};
use record_key::Refusal;

/// Which device fails, and at which of its calls, counted from 1.
#[derive(Clone, Copy, PartialEq, Eq)]
pub enum Fault {
    Nowhere,
    Log(u64),
    Pages(u64),
}

/// What a script's lines call.
pub trait Subject {
    /// Begins anew, on devices that fail at this call. Refused NoMemory.
    fn renew(&mut self, fault: Fault) -> Result<(), Refusal>;

    /// Makes the call that the words spell, and writes its answer.
    fn call(&mut self, words: &mut Words, answer: &mut Text) -> Result<(), Refusal>;

    /// A number for what can be seen. A refused call leaves it.
    fn digest(&self) -> u64;

    /// Whether the call of this name may leave something else where it is refused so.
    fn may_leave(&self, name: &str, refusal: Refusal) -> bool;
}

/// Plays each section of the script by itself. A call that is refused for want of memory, or by a device that was made
/// to fail, is made again. What is answered otherwise than a line wants is printed.
pub fn play<S: Subject, R: Print>(rt: &R, script: &str, subject: &mut S) -> Tally {
    let mut tally = Tally::NONE;
    for section in script.split("\n== ") {
        play_section(rt, &Section::of(section), subject, &mut tally);
    }
    tally
}

/// Plays a section on devices that don't fail, and then with each call of a device failing in turn where it asks for it.
fn play_section<S: Subject, R: Print>(
    rt: &R,
    section: &Section,
    subject: &mut S,
    tally: &mut Tally,
) {
    play_lines(rt, section, Fault::Nowhere, subject, tally);
    if let Some(calls) = section.log_calls {
        for call in 1..=calls.min(99) {
            fail_once(rt, section, Fault::Log(call), subject, tally);
        }
        fail_never(
            rt,
            section,
            Fault::Log(calls.saturating_add(1)),
            subject,
            tally,
        );
    }
    if let Some(calls) = section.page_calls {
        for call in 1..=calls.min(99) {
            fail_once(rt, section, Fault::Pages(call), subject, tally);
        }
        fail_never(
            rt,
            section,
            Fault::Pages(calls.saturating_add(1)),
            subject,
            tally,
        );
    }
}

/// Plays a section where one call of a device fails.
fn fail_once<S: Subject, R: Print>(
    rt: &R,
    section: &Section,
    fault: Fault,
    subject: &mut S,
    tally: &mut Tally,
) {
    let before = tally.devices;
    play_lines(rt, section, fault, subject, tally);
    if tally.devices != before.wrapping_add(1) {
        section.report(rt, "in turn", "one refused call", "another count");
        tally.count(false);
    }
}

/// Plays a section that makes fewer calls of the device than the one that would fail.
fn fail_never<S: Subject, R: Print>(
    rt: &R,
    section: &Section,
    fault: Fault,
    subject: &mut S,
    tally: &mut Tally,
) {
    let before = tally.devices;
    play_lines(rt, section, fault, subject, tally);
    if tally.devices != before {
        section.report(rt, "in turn", "no refused call", "another count");
        tally.count(false);
    }
}

fn play_lines<S: Subject, R: Print>(
    rt: &R,
    section: &Section,
    fault: Fault,
    subject: &mut S,
    tally: &mut Tally,
) {
    if renewed(subject, fault, tally).is_err() {
        section.report(rt, "renew", "ok", "refused");
        tally.count(false);
        return;
    }
    for line in section.lines.lines() {
        if Section::is_call(line) {
            play_line(rt, section, line, fault, subject, tally);
        }
    }
}

fn renewed<S: Subject>(subject: &mut S, fault: Fault, tally: &mut Tally) -> Result<(), Refusal> {
    match subject.renew(fault) {
        Err(Refusal::NoMemory) => {
            tally.count_memory();
            subject.renew(fault)
        }
        done => done,
    }
}

fn play_line<S: Subject, R: Print>(
    rt: &R,
    section: &Section,
    line: &str,
    fault: Fault,
    subject: &mut S,
    tally: &mut Tally,
) {
    let (call, wanted) = match line.split_once(" -> ") {
        Some(parts) => parts,
        None => (line, "ok"),
    };
    let mut got = Text::new();
    made_at_last(call, fault, subject, tally, &mut got);
    let agrees = got.as_str() == wanted;
    tally.count(agrees);
    if !agrees {
        section.report(rt, call, wanted, got.as_str());
    }
}

/// Makes a call, again where it is refused for want of memory or by a device that was made to fail.
fn made_at_last<S: Subject>(
    call: &str,
    fault: Fault,
    subject: &mut S,
    tally: &mut Tally,
    got: &mut Text,
) {
    let refused = made(call, subject, got);
    if refused == Some(Refusal::NoMemory) {
        tally.count_memory();
    } else if refused == Some(Refusal::Device) && fault != Fault::Nowhere {
        tally.count_device();
    } else {
        return;
    }
    if got.as_str().ends_with(CHANGED) {
        return;
    }
    got.clear();
    let _ = made(call, subject, got);
}

/// What stands behind a refusal that left something else than it found.
const CHANGED: &str = "and changed";

/// Makes a call once and writes what it is answered. Gives why it was refused.
fn made<S: Subject>(call: &str, subject: &mut S, got: &mut Text) -> Option<Refusal> {
    let before = subject.digest();
    match asked(call, subject, got) {
        Ok(()) => {
            if got.is_empty() {
                got.put("ok");
            }
            None
        }
        Err(refusal) => {
            got.clear();
            got.put_refusal(refusal);
            let name = Words::of(call).word();
            if before != subject.digest() && !subject.may_leave(name, refusal) {
                got.put(CHANGED);
            }
            Some(refusal)
        }
    }
}

fn asked<S: Subject>(call: &str, subject: &mut S, got: &mut Text) -> Result<(), Refusal> {
    let mut words = Words::of(call);
    subject.call(&mut words, got)?;
    if words.are_read() {
        Ok(())
    } else {
        Err(UNREADABLE)
    }
}
