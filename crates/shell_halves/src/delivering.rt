//! Messages of which a script says when they are delivered.
use crate::frames::{Arrived, read_frame};
use crate::messages::reply_in;
use crate::playing::Player;
use crate::stop::Stop;
use crate::waiting::{Due, Waiting};
use crate::wire::Wire;
use codec::Reply;
use node_sides::node_laws::{Event, Out};
use record_key::Refusal;
use shell_scripts::print_out_so;
use stable::CrashLog;
use std::io::{Read, Write};

impl<D: CrashLog> Player<D> {
    /// The request of this number is sent, be it again: what comes of it the other half knows. Refused Unsent where none
    /// was made.
    pub(crate) fn deliver<R: Read, W: Write, T: Write>(
        &mut self,
        number: u64,
        wire: &mut Wire<'_, R, W, T>,
    ) -> Result<(), Stop> {
        let out = if self.send(number, wire)? {
            Out::Sent(number)
        } else {
            Out::Refused(Refusal::Unsent)
        };
        Ok(print_out_so(wire.text, self.labels.looks(), &out)?)
    }

    /// Sends the request of this number. False where none was made.
    pub(crate) fn send<R: Read, W: Write, T: Write>(
        &mut self,
        number: u64,
        wire: &mut Wire<'_, R, W, T>,
    ) -> Result<bool, Stop> {
        let Some(frame) = self.messages.request(number) else {
            return Ok(false);
        };
        wire.writer.write_all(frame)?;
        wire.writer.flush()?;
        let is_again = self.messages.is_sent(number);
        self.received.count_sent(is_again);
        self.messages.mark_sent(number);
        Ok(true)
    }

    /// The reply of this number reaches the component, which waits for it. What it comes to is told.
    pub(crate) fn receive<R: Read, W: Write, T: Write>(
        &mut self,
        number: u64,
        wire: &mut Wire<'_, R, W, T>,
    ) -> Result<(), Stop> {
        let reply = self.awaited(number, wire)?;
        let (out, _) = self.hear(number, reply)?;
        Ok(print_out_so(wire.text, self.labels.looks(), &out)?)
    }

    /// The reply of this number, once it has come in; None where it counts as lost.
    fn awaited<R: Read, W: Write, T: Write>(
        &mut self,
        number: u64,
        wire: &mut Wire<'_, R, W, T>,
    ) -> Result<Option<Reply>, Stop> {
        let mut waiting = Waiting::default();
        for _ in self.messages.replied()..number {
            if !self.wait(&mut waiting, wire)? {
                break;
            }
        }
        Ok(self.messages.reply(number)?)
    }

    /// Waits for one reply more. False where there was none for so long that it counts as lost.
    fn wait<R: Read, W: Write, T: Write>(
        &mut self,
        waiting: &mut Waiting,
        wire: &mut Wire<'_, R, W, T>,
    ) -> Result<bool, Stop> {
        for _ in 0..u64::MAX {
            match read_frame(wire.reader, &mut self.frame)? {
                Arrived::End => return Err(Stop::Closed),
                Arrived::Tick => {
                    if waiting.tick() == Due::Session {
                        return Ok(false);
                    }
                }
                Arrived::Frame => {
                    if self.keep()?.is_some() {
                        return Ok(true);
                    }
                }
            }
        }
        Ok(false)
    }

    /// Keeps the frame that has come in, where it is a reply: its number, and what it says.
    pub(crate) fn keep(&mut self) -> Result<Option<(u64, Reply)>, Refusal> {
        let Some(reply) = reply_in(self.alloc, self.frame.as_slice())? else {
            self.received.count_bad();
            return Ok(None);
        };
        let number = self.messages.add_reply(self.frame.as_slice())?;
        Ok(Some((number, reply)))
    }

    /// A reply reaches the component: what it came to, and whether that is new.
    pub(crate) fn hear(
        &mut self,
        number: u64,
        reply: Option<Reply>,
    ) -> Result<(Out, bool), Refusal> {
        let before = self.side.phase();
        let (out, _) = self.step(&Event::Reply { number }, reply)?;
        let is_new = match &out {
            // What is redone is told nobody again, and yet it goes on.
            Out::Nothing if self.side.phase() == before => {
                self.received.count_repeated();
                false
            }
            Out::Refused(Refusal::Stale) => {
                self.received.count_stale();
                false
            }
            Out::Refused(_) => false,
            _ => {
                self.received.count_heard();
                true
            }
        };
        Ok((out, is_new))
    }

    /// Each message is let go; those that are on their way still come in.
    pub(crate) fn forget<R: Read, W: Write, T: Write>(
        &mut self,
        wire: &mut Wire<'_, R, W, T>,
    ) -> Result<(), Stop> {
        self.messages.forget();
        Ok(wire.text.write_all(b"forgotten\n")?)
    }
}
