//! The transaction component that a script's lines call, up or down.
use crate::calls::{add_seen, call_of, reconnect};
use crate::numbers::Numbers;
use record_key::Refusal;
use stable::{CrashLog, DeviceError, LogDevice, MemLog};
use std::alloc::Global;
use std::mem;
use tc_core::Tc;
use test_calls::{Bytes, Digest, Fault, Subject, Text, UNREADABLE, Words};

#[derive(Drop)]
enum State {
    Down(MemLog),
    Up(Tc<MemLog>),
}

#[derive(Drop)]
pub struct Component {
    alloc: Global,
    numbers: Numbers,
    state: State,
}

impl Component {
    pub fn new(alloc: Global) -> Component {
        Component {
            alloc,
            numbers: Numbers::PLAIN,
            state: State::Down(MemLog::new(alloc)),
        }
    }

    fn take_state(&mut self) -> State {
        mem::replace(&mut self.state, State::Down(MemLog::new(self.alloc)))
    }

    /// Crashes; of the log's bytes that aren't forced this many are kept.
    fn crash(&mut self, kept: u64) {
        let state = self.take_state();
        self.state = State::Down(crashed(state, kept as usize));
    }

    fn reopen(&mut self) -> Result<(), Refusal> {
        let state = self.take_state();
        let (state, refusal) = opened(self.alloc, state);
        self.state = state;
        match refusal {
            Some(refusal) => Err(refusal),
            None => Ok(()),
        }
    }

    /// The session's record stays where the device failed at the force behind it.
    fn reconnect(&mut self, answer: &mut Text) -> Result<(), Refusal> {
        let State::Up(tc) = &mut self.state else {
            return Err(UNREADABLE);
        };
        let before = tc.records();
        let begun = reconnect(tc, self.numbers, answer);
        if begun.is_err() && tc.records() != before {
            self.numbers.orphan = Some(tc.records());
        }
        begun
    }

    fn on_device(&mut self, name: &str, words: &mut Words) -> Result<(), Refusal> {
        let State::Down(device) = &mut self.state else {
            return Err(UNREADABLE);
        };
        match name {
            "fail" => device.fail_at(words.number()?.max(1)),
            _ => {
                let bytes = Bytes::of_digits(words.word())?;
                device.append(bytes.as_slice()).map_err(refusal_of)?;
                device.crash(bytes.as_slice().len());
            }
        }
        Ok(())
    }
}

fn refusal_of(error: DeviceError) -> Refusal {
    match error {
        DeviceError::NoMemory => Refusal::NoMemory,
        DeviceError::Device => Refusal::Device,
    }
}

fn crashed(state: State, kept: usize) -> MemLog {
    let mut device = match state {
        State::Up(tc) => tc.stop(),
        State::Down(device) => device,
    };
    device.crash(kept);
    device
}

/// Opens the device; it is handed back where that is refused.
fn opened(alloc: Global, state: State) -> (State, Option<Refusal>) {
    match state {
        State::Down(device) => opened_on(alloc, device),
        up => (up, Some(UNREADABLE)),
    }
}

fn opened_on(alloc: Global, device: MemLog) -> (State, Option<Refusal>) {
    if !device.pending().is_empty() {
        return (State::Down(device), Some(UNREADABLE));
    }
    match Tc::open(alloc, device) {
        Ok(tc) => (State::Up(tc), None),
        Err(left) => (State::Down(left.device), Some(left.refusal)),
    }
}

/// A component whose log's device fails at a call.
fn fresh(alloc: Global, fault: Fault) -> Tc<MemLog> {
    let mut device = MemLog::new(alloc);
    if let Fault::Log(call) = fault {
        device.fail_at(call.max(1));
    }
    Tc::new(alloc, device)
}

impl Subject for Component {
    fn renew(&mut self, fault: Fault) -> Result<(), Refusal> {
        self.numbers = Numbers::PLAIN;
        self.state = State::Up(fresh(self.alloc, fault));
        Ok(())
    }

    fn call(&mut self, words: &mut Words, answer: &mut Text) -> Result<(), Refusal> {
        let name = words.word();
        match name {
            "anew" => self.renew(Fault::Log(words.number()?)),
            "reconnect" => self.reconnect(answer),
            "open" => self.reopen(),
            "crash" => {
                self.crash(words.number()?);
                Ok(())
            }
            _ => match &mut self.state {
                State::Up(tc) => call_of(tc, self.alloc, self.numbers, name, words, answer),
                State::Down(_) => self.on_device(name, words),
            },
        }
    }

    fn digest(&self) -> u64 {
        let mut digest = Digest::new();
        if let State::Up(tc) = &self.state {
            add_seen(&mut digest, tc);
        }
        digest.number()
    }

    /// A session that isn't begun may leave its record.
    fn may_leave(&self, name: &str, refusal: Refusal) -> bool {
        name == "reconnect" && (refusal == Refusal::NoMemory || refusal == Refusal::Device)
    }
}
