//! The transaction component by itself.
ghost use Rattle.std.specs.Prelude.{◌≡◌, true, []};
ghost use Rattle.node_sides.specs.node_laws.specs.Halves.{of_tc};

use crate::asked::{event_of, look_of};
use crate::messages::Messages;
use crate::received::Received;
use crate::stop::Stop;
use crate::wire::Wire;
use codec::{Reply, put_request};
use history::Record;
use node_sides::TcSide;
use node_sides::node_laws::{Event, Out};
use node_sides::tc_core::Tc;
use record_key::Refusal;
use shell_scripts::{Labels, Line, cut_at, print_out_so, print_refusal, request};
use stable::CrashLog;
use std::alloc::Global;
use std::io::{Read, Write};

/// A component that plays a script, what the script's labels stand for, and its messages.
#[derive(Drop)]
pub struct Player<D: CrashLog> {
    pub(crate) alloc: Global,
    pub(crate) side: TcSide<D>,
    pub(crate) labels: Labels,
    pub(crate) messages: Messages,
    // What has come in last.
    pub(crate) frame: Vec<u8>,
    pub(crate) received: Received,
}

/// The component of the log on a device, whoever wrote that. Refused NoMemory, Device, BadBytes.
pub fn open_player<D: CrashLog>(alloc: Global, device: D) -> Result<Player<D>, Refusal>
where
    D: Drop,
    requires { D.pending device ≡ [] }
{
    match Tc::open(alloc, device) {
        Ok(tc) => Ok(Player::new(alloc, tc)),
        Err(left) => Err(left.refusal),
    }
}

impl<D: CrashLog> Player<D> {
    /// One whose component has no session yet.
    pub fn new(alloc: Global, tc: Tc<D>) -> Player<D> {
        Player {
            alloc,
            side: TcSide::of(alloc, tc),
            labels: Labels::new(alloc),
            messages: Messages::new(alloc),
            frame: Vec::new(alloc),
            received: Received::default(),
        }
    }

    /// What became of its messages.
    pub fn received(&self) -> Received {
        self.received
    }

    /// Plays the lines of a script, all of which are in its grammar.
    pub fn play<R: Read, W: Write, T: Write>(
        &mut self,
        script: &[u8],
        wire: &mut Wire<'_, R, W, T>,
    ) -> Result<(), Stop> {
        let mut left = Some(script);
        for _ in 0..u64::MAX {
            let Some(bytes) = left else {
                break;
            };
            let (line, rest) = cut_at(bytes, b'\n');
            if let Some(line) = request(line)
                && let Err(stop) = self.line(&line, wire)
            {
                return told(wire, stop);
            }
            left = rest;
        }
        Ok(())
    }

    fn line<R: Read, W: Write, T: Write>(
        &mut self,
        line: &Line<'_>,
        wire: &mut Wire<'_, R, W, T>,
    ) -> Result<(), Stop> {
        match line {
            Line::Settle(_) => self.settle(wire),
            Line::Forget => self.forget(wire),
            Line::Step(Event::Request { number }) => self.deliver(*number, wire),
            Line::Step(Event::Reply { number }) => self.receive(*number, wire),
            Line::Step(Event::LowWater { low }) => {
                let low = self.told_low(*low);
                self.call(line, &Event::LowWater { low }, wire)
            }
            Line::Step(event) if event.is_of_tc() => self.call(line, event, wire),
            _ => match event_of(line, &self.labels) {
                Ok(Some(event)) => self.call(line, &event, wire),
                Ok(None) => Err(Stop::Elsewhere),
                Err(refusal) => Ok(print_refusal(wire.text, refusal)?),
            },
        }
    }

    /// One event of a line: what it came to is told. A request that it makes is sent by a line of its own, or as the
    /// component settles next.
    fn call<R: Read, W: Write, T: Write>(
        &mut self,
        line: &Line<'_>,
        event: &Event,
        wire: &mut Wire<'_, R, W, T>,
    ) -> Result<(), Stop>
        requires { of_tc event.now ≡ true }
    {
        if let Line::Begin(label) = line {
            self.labels.make_room(label)?;
        }
        let (out, _) = self.step(event, None)?;
        if let Out::Refused(refusal @ (Refusal::NoMemory | Refusal::Device)) = out {
            return Err(Stop::Refused(refusal));
        }
        self.note(line, event, &out);
        Ok(print_out_so(wire.text, self.labels.looks(), &out)?)
    }

    /// The number that is told for a low one: the last up to it whose record is no session's. A session is begun with the
    /// number of the log's last such record, and where a leaf has a greater low number it doesn't show that nothing above
    /// that was performed.
    fn told_low(&self, low: u64) -> u64 {
        let Ok(tc) = self.side.running() else {
            return low;
        };
        if tc.can_announce(low).is_err() {
            return low;
        }
        for above in 0..low {
            let number = low - above;
            if !matches!(tc.record(number), Some(Record::Session)) {
                return number;
            }
        }
        0
    }

    /// A label stands for the transaction that it has begun, and rows are told as they were asked for.
    fn note(&mut self, line: &Line<'_>, event: &Event, out: &Out) {
        match (line, event, out) {
            (Line::Begin(label), _, Out::Begun(txn)) => self.labels.rebind(label, *txn),
            (_, Event::Scan { txn, .. }, Out::Asked(_)) => self.labels.note(*txn, look_of(line)),
            _ => {}
        }
    }

    /// One event, and whether it has made a request.
    pub(crate) fn step(
        &mut self,
        event: &Event,
        reply: Option<Reply>,
    ) -> Result<(Out, bool), Refusal>
        requires { of_tc event.now ≡ true }
    {
        let mut made = None;
        let next = self.messages.asked().saturating_add(1);
        let out = self.side.step(event, reply, Some(next), &mut made);
        match made {
            None => Ok((out, false)),
            Some(made) => {
                let mut frame = Vec::new(self.alloc);
                put_request(&mut frame, &made)?;
                self.messages.add_request(frame)?;
                Ok((out, true))
            }
        }
    }
}

/// Says which refusal has ended a script, if one has.
fn told<R: Read, W: Write, T: Write>(wire: &mut Wire<'_, R, W, T>, stop: Stop) -> Result<(), Stop> {
    if let Stop::Refused(refusal) = stop {
        print_refusal(wire.text, refusal)?;
    }
    Err(stop)
}
