//! A script that is run line by line, as its lines are read.
use crate::refusals::Counting;
use crate::script::{Manner, UNCONNECTED, tell_refused, told};
use crate::stored::finish;
use record_key::Refusal;
use shell_faults::reason_of;
use shell_scripts::{DONE, FAILED, FAULT, Shell, Stopping, is_fault, refusal_of, refuse, run_line};
use stable::{CrashLog, CrashPages};
use std::io;
use std::io::{BufRead, LineWriter, Write};

/// The text of a conversation, and how far it is.
#[derive(Drop)]
struct Conversation<W> {
    text: Counting<W>,
    /// How many lines were read.
    lines: u64,
    status: u8,
    /// Nothing is read any more.
    is_over: bool,
    is_told: bool,
}

/// Answers each line of standard input before the next is read, on a new node in memory. Gives the exit status.
pub fn converse_in_memory<R>(rt: &R, manner: Manner) -> u8
where
    R: Input + Print + Eprint + AllocGlobal,
{
    match Shell::new(rt.alloc()) {
        Ok(mut shell) => converse(rt, manner, &mut shell),
        Err(refusal) => refuse(&mut io::writer(rt), refusal, FAILED),
    }
}

/// The same in this shell.
pub fn converse<R, D, P>(rt: &R, manner: Manner, shell: &mut Shell<D, P>) -> u8
where
    R: Input + Print + Eprint + AllocGlobal,
    D: CrashLog,
    P: CrashPages,
{
    let Ok(writer) = LineWriter::new(rt.alloc(), Stopping::new(io::writer(rt))) else {
        return refuse(&mut io::writer(rt), Refusal::NoMemory, FAILED);
    };
    let mut talk = Conversation {
        text: Counting::new(writer),
        lines: 0,
        status: DONE,
        is_over: false,
        is_told: false,
    };
    answer_all(rt, manner, shell, &mut talk);
    let status = talk.status;
    let status = finish(&mut talk.text, status);
    if manner.strict {
        tell_refused(rt, talk.text.refused(), status)
    } else {
        status
    }
}

fn answer_all<R, D, P, W>(
    rt: &R,
    manner: Manner,
    shell: &mut Shell<D, P>,
    talk: &mut Conversation<W>,
)
where
    R: Input + Print + Eprint + AllocGlobal,
    D: CrashLog,
    P: CrashPages,
    W: Write,
{
    let mut input = rt.reader();
    let mut line = Vec::new(rt.alloc());
    for _ in 0..u64::MAX {
        if manner.prompts && print!(rt; "> ").is_err() {
            talk.status = FAILED;
            return;
        }
        line.clear();
        match input.read_until(b'\n', &mut line) {
            Ok(0) => {
                talk.is_over = true;
                if manner.prompts {
                    talk.status = told(println!(rt; ""), talk.status);
                }
            }
            Ok(_) => answer(rt, manner, shell, talk, &line),
            Err(error) => {
                let status = refuse(&mut talk.text, refusal_of(&error), FAILED);
                talk.end(status);
            }
        }
        if talk.is_over {
            return;
        }
    }
}

/// Answers a line, with its end.
fn answer<R, D, P, W>(
    rt: &R,
    manner: Manner,
    shell: &mut Shell<D, P>,
    talk: &mut Conversation<W>,
    line: &[u8],
)
where
    R: Eprint + AllocGlobal,
    D: CrashLog,
    P: CrashPages,
    W: Write,
{
    talk.lines = talk.lines.saturating_add(1);
    let line = match line {
        [line @ .., b'\n'] => line,
        line => line,
    };
    if is_fault(line) {
        let number = talk.lines;
        let told = tell_reason(rt, number, line, FAULT);
        let refused = refuse(&mut talk.text, Refusal::BadScript(number), told);
        talk.note(refused);
        return;
    }
    match run_line(shell, line, &mut talk.text) {
        Ok(false) => {}
        Ok(true) if manner.continues => talk.note(FAILED),
        Ok(true) | Err(_) => talk.end(FAILED),
    }
    talk.tell_unconnected(rt);
}

impl<W: Write> Conversation<W> {
    /// A line had this status: the worst of all is that of the whole.
    fn note(&mut self, status: u8) {
        self.status = self.status.max(status);
    }

    /// The same, and nothing is read any more.
    fn end(&mut self, status: u8) {
        self.note(status);
        self.is_over = true;
    }

    /// Tells once what is missing where a line was refused NotConnected.
    fn tell_unconnected<R: Eprint>(&mut self, rt: &R) {
        if self.text.is_unconnected() && !self.is_told {
            self.is_told = true;
            self.status = told(eprintln!(rt; "{UNCONNECTED}"), self.status);
        }
    }
}

/// Prints to standard error why this line is outside the grammar. Gives its exit status.
fn tell_reason<R: Eprint + AllocGlobal>(rt: &R, number: u64, line: &[u8], status: u8) -> u8 {
    match reason_of(rt.alloc(), number, line) {
        Ok(reason) => told(eprintln!(rt; "undo_shell: {reason}"), status),
        // Without memory the refusal's line has to do.
        Err(_) => status,
    }
}
