//! The data component by itself.
ghost use Rattle.std.specs.Prelude.{◌≡◌, [], IfSome};
ghost use Rattle.codec.specs.Replies.{IsOrdered};
ghost use Rattle.codec.specs.Requests.{HasRequestNumbers};
ghost use Rattle.node_sides.specs.dc_core.specs.Serves.{MayAsk};

use crate::frames::{Arrived, read_frame};
use codec::{Reply, Request, Taken, put_reply, take_request};
use node_sides::dc_core::{Dc, Devices};
use record_key::Refusal;
use stable::{LogDevice, PageDevice};
use std::alloc::Global;
use std::io;
use std::io::{Read, Write};

/// The component of what its devices hold, whoever wrote that. It has no session: its records are those of its pages and
/// of its log's leaves, until the next session brings the others. Refused NoMemory, Device, BadBytes.
pub fn open_data<D: LogDevice, P: PageDevice>(
    alloc: Global,
    log: D,
    pages: P,
) -> Result<Dc<D, P>, Refusal>
where
    D: Drop,
    P: Drop,
    requires { D.pending log ≡ [] }
{
    match Dc::restart(alloc, Devices { log, pages }) {
        Ok(dc) => Ok(dc),
        Err(left) => Err(left.refusal),
    }
}

/// What became of the requests that have come in.
#[derive(Clone, Copy, Default)]
pub struct Served {
    /// Of so many it has done what they ask.
    pub done: u64,
    /// So many it doesn't take now, by their session, or for want of memory.
    pub refused: u64,
    /// So many are no request, or of which the leaves show that nobody may ask them.
    pub bad: u64,
}

/// Serves the requests that come in, one after another, until nothing more comes. Each tick splits or joins leaves that
/// are due. A reply that lacks memory is lost, as it may be on its way.
pub fn serve<D: LogDevice, P: PageDevice, R: Read, W: Write>(
    alloc: Global,
    dc: &mut Dc<D, P>,
    reader: &mut R,
    writer: &mut W,
) -> io::Result<Served> {
    let mut served = Served::default();
    let mut frame = Vec::new(alloc);
    let mut reply = Vec::new(alloc);
    for _ in 0..u64::MAX {
        match read_frame(reader, &mut frame)? {
            Arrived::End => break,
            Arrived::Tick => tend(dc),
            Arrived::Frame => {
                reply.clear();
                answer(dc, frame.as_slice(), &mut reply, &mut served);
                if !reply.is_empty() {
                    writer.write_all(reply.as_slice())?;
                    writer.flush()?;
                }
            }
        }
    }
    Ok(served)
}

// Where nothing is due, or the devices refuse it, leaves stay as they are.
fn tend<D: LogDevice, P: PageDevice>(dc: &mut Dc<D, P>) {
    let _ = dc.tend();
}

/// Does what a frame asks, and spells the reply, if there is one.
fn answer<D: LogDevice, P: PageDevice>(
    dc: &mut Dc<D, P>,
    frame: &[u8],
    reply: &mut Vec<u8>,
    served: &mut Served,
) {
    match asked(dc, frame) {
        Some(request) => reply_to(dc, &request, reply, served),
        None => served.bad = served.bad.saturating_add(1),
    }
}

/// The request that a frame is, if it is one that may be asked.
fn asked<D: LogDevice, P: PageDevice>(dc: &Dc<D, P>, frame: &[u8]) -> Option<Request>
    ensures { IfSome result (λ request. HasRequestNumbers request × MayAsk dc.now request) }
{
    match take_request(frame, 0) {
        Taken::Record(request, end) if end == frame.len() && dc.may_ask(&request) => Some(request),
        _ => None,
    }
}

fn reply_to<D: LogDevice, P: PageDevice>(
    dc: &mut Dc<D, P>,
    request: &Request,
    reply: &mut Vec<u8>,
    served: &mut Served,
)
    requires numbers { HasRequestNumbers request.now }
    requires owed { MayAsk dc.old request.now }
{
    match dc.serve(request) {
        Ok(given) => {
            served.done = served.done.saturating_add(1);
            if let Some(given) = given {
                spell(&given, reply);
            }
        }
        Err(_) => served.refused = served.refused.saturating_add(1),
    }
}

fn spell(given: &Reply, reply: &mut Vec<u8>)
    requires { IsOrdered given.now }
{
    let _ = put_reply(reply, given);
}
