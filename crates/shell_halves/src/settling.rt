//! A transaction component that works until nothing is left to do.
ghost use Rattle.std.specs.Prelude.{◌≡◌, true, IfSome};
ghost use Rattle.node_sides.specs.node_laws.specs.Halves.{of_tc};

use crate::frames::{Arrived, read_frame};
use crate::playing::Player;
use crate::stop::Stop;
use crate::waiting::{Due, Waiting};
use crate::wire::Wire;
use node_sides::node_laws::{Event, Out};
use node_sides::tc_core::{Phase, Tc};
use record_key::Refusal;
use shell_scripts::print_told_so;
use stable::CrashLog;
use std::io::{Read, Write};

impl<D: CrashLog> Player<D> {
    /// Lets the component work until nothing is left to do. What no line has sent of its requests is sent first.
    pub(crate) fn settle<R: Read, W: Write, T: Write>(
        &mut self,
        wire: &mut Wire<'_, R, W, T>,
    ) -> Result<(), Stop> {
        self.send_rest(wire)?;
        for _ in 0..u64::MAX {
            let Some(event) = self.next_event() else {
                break;
            };
            self.work(&event, wire)?;
        }
        wire.text.write_all(b"settled\n")?;
        Ok(())
    }

    fn send_rest<R: Read, W: Write, T: Write>(
        &mut self,
        wire: &mut Wire<'_, R, W, T>,
    ) -> Result<(), Stop> {
        for before in self.messages.sent_to()..self.messages.asked() {
            let number = before + 1;
            if !self.messages.is_sent(number) {
                self.send(number, wire)?;
            }
        }
        self.messages.mark_all_sent();
        Ok(())
    }

    /// What is to be done next, if anything is.
    fn next_event(&self) -> Option<Event>
        ensures { IfSome result (λ event. of_tc event ≡ true) }
    {
        let Ok(tc) = self.side.running() else {
            return Some(Event::RestartTc);
        };
        match tc.phase() {
            Phase::Unconnected => Some(Event::Reconnect),
            Phase::Running => event_at_work(tc),
            _ => Some(Event::Recover),
        }
    }

    /// One event of its own: what clients hear of it is told, and the reply to a request that it makes is waited for.
    fn work<R: Read, W: Write, T: Write>(
        &mut self,
        event: &Event,
        wire: &mut Wire<'_, R, W, T>,
    ) -> Result<(), Stop>
        requires { of_tc event.now ≡ true }
    {
        let (out, sends) = self.step(event, None)?;
        print_told_so(wire.text, self.labels.looks(), &out)?;
        if let Out::Refused(refusal) = out {
            return Err(Stop::Refused(refusal));
        }
        if sends { self.exchange(wire) } else { Ok(()) }
    }

    /// Sends the request that was made last until something new is heard.
    fn exchange<R: Read, W: Write, T: Write>(
        &mut self,
        wire: &mut Wire<'_, R, W, T>,
    ) -> Result<(), Stop> {
        self.send_last(wire)?;
        let mut waiting = Waiting::default();
        for _ in 0..u64::MAX {
            match read_frame(wire.reader, &mut self.frame)? {
                Arrived::End => return Err(Stop::Closed),
                Arrived::Tick => {
                    let due = waiting.tick();
                    self.send_again(due, wire)?;
                }
                Arrived::Frame => {
                    if self.listen(wire)? {
                        break;
                    }
                }
            }
        }
        Ok(())
    }

    fn send_last<R: Read, W: Write, T: Write>(
        &mut self,
        wire: &mut Wire<'_, R, W, T>,
    ) -> Result<(), Stop> {
        let last = self.messages.asked();
        self.send(last, wire)?;
        Ok(())
    }

    /// Sends the request again that isn't answered, or one that begins a session.
    fn send_again<R: Read, W: Write, T: Write>(
        &mut self,
        due: Due,
        wire: &mut Wire<'_, R, W, T>,
    ) -> Result<(), Stop> {
        if due == Due::Session {
            let (out, _) = self.step(&Event::Reconnect, None)?;
            print_told_so(wire.text, self.labels.looks(), &out)?;
            if let Out::Refused(refusal) = out {
                return Err(Stop::Refused(refusal));
            }
        }
        self.send_last(wire)
    }

    /// Takes what has come in: whether that told something new.
    fn listen<R: Read, W: Write, T: Write>(
        &mut self,
        wire: &mut Wire<'_, R, W, T>,
    ) -> Result<bool, Stop> {
        let Some((number, reply)) = self.keep()? else {
            return Ok(false);
        };
        let (out, is_new) = self.hear(number, Some(reply))?;
        match out {
            Out::Refused(Refusal::Stale) => Ok(false),
            Out::Refused(refusal) => Err(Stop::Refused(refusal)),
            out => {
                print_told_so(wire.text, self.labels.looks(), &out)?;
                Ok(is_new)
            }
        }
    }
}

/// What a component that serves clients does next: the oldest request that isn't answered, the next step of a rollback, or
/// a force.
fn event_at_work<D: CrashLog>(tc: &Tc<D>) -> Option<Event>
    ensures { IfSome result (λ event. of_tc event ≡ true) }
{
    if let Some(open) = tc.first_unanswered() {
        return Some(Event::Send { txn: open.txn });
    }
    if let Some(open) = tc.first_rolling() {
        return Some(Event::Undo { txn: open.txn });
    }
    if tc.stable_end() < tc.records() {
        return Some(Event::Force);
    }
    None
}
