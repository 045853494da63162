//! Messages as frames: what each kind spells, and how it is read.
ghost use Rattle.std.specs.Prelude.{◌≡◌, ℕ, Bool, true, false, List, IfOk, IfErr};
ghost use Rattle.codec.specs.Requests.{request_bytes, IsRequest};
ghost use Rattle.codec.specs.Replies.{reply_bytes, session_of, has_rows};
ghost use Rattle.node_world.specs.Sent.{StandsAt, request_there, reply_there, IsFramedReply};
ghost use Rattle.node_world.specs.SentReads.{request_reads, reply_reads};

use codec::{Reply, Request, Taken, kept_rows, reply_session, take_reply, take_request};
use record_key::Refusal;
use std::alloc::Global;

/// A request or a reply.
pub(crate) trait Message: Drop {
    /// The body of its frame.
    ghost spell: { Self → List ℕ };

    /// It has a spelling.
    ghost is_spelled: { Self → Type 0 };

    /// It has rows: its frame has any length, and reading it takes memory.
    ghost is_long: { Self → Bool };

    /// What is read at a place.
    ghost read_at: { List ℕ → ℕ → Self };

    /// What stands at a place is read there.
    ghost reads: { (bytes : List ℕ) (place : ℕ) (there : StandsAt Self spell is_spelled bytes place)
        → read_at bytes place ≡ there.message };
}

impl Message for Request {
    ghost spell = { request_bytes };

    ghost is_spelled = { IsRequest };

    ghost is_long = { λ _. false };

    ghost read_at = { request_there };

    ghost reads = { request_reads };
}

impl Message for Reply {
    ghost spell = { reply_bytes };

    ghost is_spelled = { IsFramedReply };

    ghost is_long = { has_rows };

    ghost read_at = { reply_there };

    ghost reads = { reply_reads };
}

/// The request whose frame stands there.
pub(crate) fn request_at(bytes: &[u8], place: usize) -> Request
    requires { StandsAt Request request_bytes IsRequest bytes.now place }
    ensures found { result ≡ request_there bytes.now place }
    ensures spelled { IsRequest result }
{
    match take_request(bytes, place) {
        Taken::Record(request, _) => request,
        Taken::Short | Taken::Bad(_) => unreachable!(),
    }
}

/// The reply whose frame stands there. Only rows take memory.
pub(crate) fn reply_at(alloc: Global, bytes: &[u8], place: usize) -> Result<Reply, Refusal>
    requires { StandsAt Reply reply_bytes IsFramedReply bytes.now place }
    ensures found { IfOk result (λ reply. reply ≡ reply_there bytes.now place) }
    ensures spelled { IfOk result IsFramedReply }
    ensures refused { IfErr result (λ refusal. (refusal ≡ Refusal.NoMemory)
        × (has_rows (reply_there bytes.now place) ≡ true)) }
{
    // Rows were spelled when they were sent, so they are copied as they stand.
    if let Some(reply) = kept_rows(alloc, bytes, place)? {
        return Ok(reply);
    }
    match take_reply(alloc, bytes, place)? {
        Taken::Record(reply, _) => Ok(reply),
        Taken::Short | Taken::Bad(_) => unreachable!(),
    }
}

/// The session of the reply whose frame stands there. Takes no memory.
pub(crate) fn session_at(bytes: &[u8], place: usize) -> u64
    requires { StandsAt Reply reply_bytes IsFramedReply bytes.now place }
    ensures { result ≡ session_of (reply_there bytes.now place) }
{
    match reply_session(bytes, place) {
        Some(session) => session,
        None => unreachable!(),
    }
}
