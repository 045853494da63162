//! The data component that a script's lines call, up or down.
ghost use Rattle.std.specs.Prelude.{◌≡◌, []};

use crate::component_calls::{add_seen, call_of};
use crate::devices::{fail, fault_of, log_with, pages_with};
use dc_core::{Dc, Devices};
use record_key::Refusal;
use stable::{CrashLog, MemLog, MemPages};
use std::alloc::Global;
use std::mem;
use test_calls::{Digest, Fault, Subject, Text, UNREADABLE, Words};

#[derive(Drop)]
enum State {
    Gone,
    Down(Devices<MemLog, MemPages>),
    Up(Dc),
}

#[derive(Drop)]
pub struct Component {
    alloc: Global,
    state: State,
}

impl Component {
    pub fn new(alloc: Global) -> Component {
        Component {
            alloc,
            state: State::Gone,
        }
    }

    /// Crashes; of the log's bytes that aren't forced this many are kept.
    fn crash(&mut self, kept: u64) -> Result<(), Refusal> {
        match mem::replace(&mut self.state, State::Gone) {
            State::Up(dc) => {
                self.state = State::Down(crashed(dc, kept as usize));
                Ok(())
            }
            state => {
                self.state = state;
                Err(UNREADABLE)
            }
        }
    }

    fn restart(&mut self) -> Result<(), Refusal> {
        match mem::replace(&mut self.state, State::Gone) {
            State::Down(devices) => {
                let (state, refusal) = restarted(self.alloc, devices);
                self.state = state;
                match refusal {
                    Some(refusal) => Err(refusal),
                    None => Ok(()),
                }
            }
            state => {
                self.state = state;
                Err(UNREADABLE)
            }
        }
    }

    fn fail(&mut self, words: &mut Words) -> Result<(), Refusal> {
        let fault = fault_of(words)?;
        match &mut self.state {
            State::Down(devices) => {
                fail(&mut devices.log, &mut devices.pages, fault);
                Ok(())
            }
            _ => Err(UNREADABLE),
        }
    }
}

fn crashed(dc: Dc, kept: usize) -> Devices<MemLog, MemPages> {
    let mut devices = dc.stop();
    devices.log.crash(kept);
    devices
}

/// Opens the devices; they are handed back where that is refused.
fn restarted(alloc: Global, devices: Devices<MemLog, MemPages>) -> (State, Option<Refusal>) {
    if !devices.log.pending().is_empty() {
        return (State::Down(devices), Some(UNREADABLE));
    }
    match Dc::restart(alloc, devices) {
        Ok(dc) => (State::Up(dc), None),
        Err(left) => (State::Down(left.devices), Some(left.refusal)),
    }
}

impl Subject for Component {
    fn renew(&mut self, fault: Fault) -> Result<(), Refusal> {
        let log = log_with(self.alloc, fault);
        let pages = pages_with(self.alloc, fault);
        self.state = State::Up(Dc::new(self.alloc, log, pages)?);
        Ok(())
    }

    fn call(&mut self, words: &mut Words, answer: &mut Text) -> Result<(), Refusal> {
        match words.word() {
            "anew" => self.renew(fault_of(words)?),
            "crash" => self.crash(words.number()?),
            "restart" => self.restart(),
            "fail" => self.fail(words),
            name => match &mut self.state {
                State::Up(dc) => call_of(dc, name, words, answer),
                _ => Err(UNREADABLE),
            },
        }
    }

    fn digest(&self) -> u64 {
        let mut digest = Digest::new();
        if let State::Up(dc) = &self.state {
            add_seen(&mut digest, dc);
        }
        digest.number()
    }

    /// A Connect may leave its record, a checkpoint leaves that are raised; a failed flush may have forced the log.
    fn may_leave(&self, name: &str, refusal: Refusal) -> bool {
        (refusal == Refusal::NoMemory || refusal == Refusal::Device)
            && (name == "connect" || name == "checkpoint" || name == "flush")
    }
}
