//! The system transactions that a script's lines call, up or down.
ghost use Rattle.std.specs.Prelude.{◌≡◌, []};

use crate::devices::{fail, fault_of, log_with, pages_with};
use crate::paper::Paper;
use crate::recovering::{found, log_of, put_beginnings, put_found, put_page, refusal_of};
use crate::system_calls::{System, add_seen, call_of};
use dc_store::Devices;
use record_key::Refusal;
use stable::{CrashLog, LogDevice, MemLog, MemPages, PageDevice};
use std::alloc::Global;
use std::mem;
use test_calls::{Digest, Fault, Subject, Text, UNREADABLE, Words};

#[derive(Drop)]
enum State {
    Down(Devices<MemLog, MemPages>),
    Up(System),
}

#[derive(Drop)]
pub struct Systems {
    alloc: Global,
    paper: Paper,
    state: State,
}

impl Systems {
    pub fn new(alloc: Global) -> Systems {
        Systems {
            alloc,
            paper: Paper::new(alloc),
            state: empty(alloc),
        }
    }

    /// The devices alone from then on, as they are.
    fn stop(&mut self) {
        let state = mem::replace(&mut self.state, empty(self.alloc));
        self.state = stopped(state);
    }

    fn reopen(&mut self) -> Result<(), Refusal> {
        let state = mem::replace(&mut self.state, empty(self.alloc));
        let (state, refusal) = opened(self.alloc, state);
        self.state = state;
        match refusal {
            Some(refusal) => Err(refusal),
            None => Ok(()),
        }
    }

    fn on_paper(&mut self, name: &str, words: &mut Words) -> Result<(), Refusal> {
        match name {
            "name" => self.paper.name(words),
            "write" => self.paper.write(words),
            "change" => self.paper.change(words),
            _ => self.paper.keep(words),
        }
    }
}

fn empty(alloc: Global) -> State {
    State::Down(Devices {
        log: MemLog::new(alloc),
        pages: MemPages::new(alloc),
    })
}

fn stopped(state: State) -> State {
    match state {
        State::Up(system) => State::Down(system.stop()),
        down => down,
    }
}

/// Opens the devices; they are handed back where that is refused.
fn opened(alloc: Global, state: State) -> (State, Option<Refusal>) {
    match state {
        State::Down(devices) => opened_on(alloc, devices),
        up => (up, Some(UNREADABLE)),
    }
}

fn opened_on(alloc: Global, devices: Devices<MemLog, MemPages>) -> (State, Option<Refusal>) {
    let Devices { log, pages } = devices;
    if !log.pending().is_empty() {
        return (State::Down(Devices { log, pages }), Some(Refusal::Unsent));
    }
    match System::open(alloc, log, pages) {
        Ok(opened) => (State::Up(opened.system), None),
        Err(left) => (State::Down(left.devices), Some(left.refusal)),
    }
}

/// A call of the devices, which are alone.
fn on_devices(
    alloc: Global,
    paper: &[u8],
    devices: &mut Devices<MemLog, MemPages>,
    name: &str,
    words: &mut Words,
    answer: &mut Text,
) -> Result<(), Refusal> {
    match name {
        "log" => devices.log = log_of(alloc, paper)?,
        "put" => put_page(&mut devices.pages, words.number()?, paper)?,
        "fail" => fail(&mut devices.log, &mut devices.pages, fault_of(words)?),
        "crash" => devices.log.crash(words.number()? as usize),
        "force" => devices.log.force().map_err(refusal_of)?,
        "pending" => answer.put_number(devices.log.pending().len() as u64),
        "same" => put_same(answer, devices.log.bytes().map_err(refusal_of)?, paper),
        "page" => match devices.pages.read(words.number()?).map_err(refusal_of)? {
            Some(image) => put_same(answer, image, paper),
            None => answer.put("none"),
        },
        "recover" => {
            let found = found(alloc, &mut devices.log, &mut devices.pages)?;
            put_found(answer, &found);
        }
        _ => return Err(UNREADABLE),
    }
    Ok(())
}

/// Nothing where both are the same, else the bytes that are there.
fn put_same(answer: &mut Text, bytes: &[u8], paper: &[u8]) {
    if bytes != paper {
        answer.push("#");
        answer.push_digits(bytes);
    }
}

impl Subject for Systems {
    fn renew(&mut self, fault: Fault) -> Result<(), Refusal> {
        let log = log_with(self.alloc, fault);
        let pages = pages_with(self.alloc, fault);
        match System::new(self.alloc, log, pages) {
            Ok(system) => {
                self.state = State::Up(system);
                Ok(())
            }
            Err(left) => Err(left.refusal),
        }
    }

    fn call(&mut self, words: &mut Words, answer: &mut Text) -> Result<(), Refusal> {
        let name = words.word();
        match name {
            "anew" => self.renew(fault_of(words)?),
            "name" | "write" | "change" | "keep" => self.on_paper(name, words),
            "beginnings" => put_beginnings(self.alloc, self.paper.as_slice(), answer),
            "open" => self.reopen(),
            "stop" => {
                self.stop();
                Ok(())
            }
            _ => match &mut self.state {
                State::Up(system) => call_of(system, name, words, answer),
                State::Down(devices) => {
                    on_devices(
                        self.alloc,
                        self.paper.as_slice(),
                        devices,
                        name,
                        words,
                        answer,
                    )
                }
            },
        }
    }

    fn digest(&self) -> u64 {
        let mut digest = Digest::new();
        if let State::Up(system) = &self.state {
            add_seen(&mut digest, system);
        }
        digest.number()
    }

    /// An accepted session may leave its record, a checkpoint leaves that are raised; a failed flush may have forced the
    /// log.
    fn may_leave(&self, name: &str, refusal: Refusal) -> bool {
        (refusal == Refusal::NoMemory || refusal == Refusal::Device)
            && (name == "accept" || name == "checkpoint" || name == "flush")
    }
}
