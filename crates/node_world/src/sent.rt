//! Messages as they were sent: their frames one after another in one buffer, and an index of places. What was sent
//! stays until all is let go: a message may be delivered any number of times, late, or never.
ghost use Rattle.std.specs.Prelude.{◌≡◌, ◌<◌, ◌++◌, ◌∷◌, ◌⊎◌, [], true, false, length, Some, IfOk, IfErr, IfNone, OnOk, OnErr, OnSome};
ghost use Rattle.codec.specs.FrameIndex.{places_of, Indexes};
ghost use Rattle.node_sides.specs.node_laws.specs.Halves.{IsNextNumber};
ghost use Rattle.node_sides.specs.node_laws.specs.Messages.{message_at};
ghost use Rattle.node_sides.specs.node_laws.specs.Node.{IsUnsent};
ghost use Rattle.node_world.specs.Sent.{IsReadApart, IsHeardApart, IsStale, IsUnreadOf};

use crate::message::{Message, reply_at, request_at, session_at};
use crate::parts::{AnsweredParts, Parts};
use codec::{
    Asking, FrameIndex, GivenAnswer, Reading, Reply, Request, answered_at, asking_at, found_at,
    reading_at,
};
use dc_leaf::AnswerSink;
use record_key::{AnswerRef, Change, Key, Refusal, Value};
use std::alloc::Global;
use std::marker::{Model, PhantomData};

/// The bytes of the longest frame of a message without rows, or more.
const SHORT_LEN: usize = 264;

/// Every message that was sent and not let go, the oldest first. Each stands in the buffer as its frame.
#[derive(Drop)]
pub(crate) struct Sent<M: Message> {
    bytes: Vec<u8>,
    // Where the frame of each message begins.
    index: FrameIndex,
    of: PhantomData<M>,
}

impl<M: Message> Model for Sent<M> {
    ghost use Rattle.std.specs.Prelude.{map, nat_le, ◌+◌, ◌&&◌, vec_len, vec_capacity};
    ghost use Rattle.codec.specs.FrameIndex.{places_of};
    ghost use Rattle.node_world.specs.Sent.{SentView, AllStand};

    ghost Value = { SentView M };

    ghost view = { λ s. record {
      messages = map (M.read_at s.bytes.items) (places_of s.bytes.items s.index.count);
      has_room = nat_le (vec_len s.bytes + 264) (vec_capacity s.bytes) && s.index.has_room;
    } };

    ghost invariant = { λ s. AllStand M M.spell M.is_spelled s.bytes.items s.index.marks s.index.count };
}

impl<M: Message> Sent<M> {
    pub(crate) fn new(alloc: Global) -> Sent<M>
        ensures { result.messages ≡ [] }
    {
        Sent {
            bytes: Vec::new(alloc),
            index: FrameIndex::new(alloc),
            of: PhantomData,
        }
    }

    /// Lets go of all. Takes no memory, and keeps what room there is.
    pub(crate) fn forget(&mut self)
        ensures none { self.new.messages ≡ [] }
        ensures room { self.old.has_room ≡ true → self.new.has_room ≡ true }
    {
        self.bytes.clear();
        self.index.clear();
    }

    /// How many stand.
    pub(crate) fn len(&self) -> u64
        ensures count { result ≡ length self.now.messages }
        ensures few { result < 18446744073709551615 }
    {
        self.index.len() as u64
    }

    /// Makes room for one more message that has no rows.
    fn make_room(&mut self) -> Result<(), Refusal>
        ensures same { self.new.messages ≡ self.old.messages }
        ensures room { OnOk result (self.new.has_room ≡ true) }
        ensures lacked { OnErr result (self.old.has_room ≡ false) }
        ensures cause { IfErr result (λ refusal. refusal ≡ Refusal.NoMemory) }
    {
        self.bytes.reserve(SHORT_LEN)?;
        self.index.reserve()?;
        Ok(())
    }

    /// The number of the next message; room for one without rows is made. None where there is none and memory for it is
    /// refused.
    pub(crate) fn next(&mut self) -> Option<u64>
        ensures same { self.new.messages ≡ self.old.messages }
        ensures number { IsNextNumber self.old.messages result }
        ensures room { OnSome result (self.new.has_room ≡ true) }
        ensures lacked { IfNone result (self.old.has_room ≡ false) }
    {
        self.make_room().ok()?;
        Some(self.len() + 1)
    }

    /// Appends a message. Where memory is refused nothing is appended; there was no room then, or it has rows.
    pub(crate) fn push<P: Parts<M>>(&mut self, parts: &P) -> Result<(), Refusal>
        requires { P.may_put parts.now }
        ensures appended { OnOk result (self.new.messages ≡ self.old.messages ++ P.message parts.now ∷ []) }
        ensures unchanged { OnErr result (self.new.messages ≡ self.old.messages) }
        ensures cause { IfErr result (λ refusal. refusal ≡ Refusal.NoMemory) }
        ensures long { OnErr result (self.old.has_room ≡ true → M.is_long (P.message parts.now) ≡ true) }
    {
        self.index.reserve()?;
        let place = self.bytes.len();
        parts.put(&mut self.bytes)?;
        self.index.push_reserved(place);
        Ok(())
    }

    /// Appends a message for which there is room.
    pub(crate) fn push_reserved<P: Parts<M>>(&mut self, parts: &P)
        requires put { P.may_put parts.now }
        requires room { self.old.has_room ≡ true }
        requires short { M.is_long (P.message parts.now) ≡ false }
        ensures { self.new.messages ≡ self.old.messages ++ P.message parts.now ∷ [] }
    {
        match self.push(parts) {
            Ok(()) => {}
            Err(_) => unreachable!(),
        }
    }
}

/// What a request asks: what it does to a key's record is lent, and the key is kept apart.
pub(crate) enum Asked<'a> {
    Perform(Asking, Change<'a>),
    Get(Reading),
    Other,
}

impl Sent<Request> {
    /// The request of this number, from 1: the key of one to perform or to read is put in `key`, any other in `other`.
    /// Refused Unsent where there is none. Takes no memory.
    pub(crate) fn read(
        &self,
        number: u64,
        key: &mut Option<Key>,
        other: &mut Option<Request>,
    ) -> Result<Asked<'_>, Refusal>
        ensures read { IfOk result (λ asked. IsReadApart self.now.messages number asked key.new other.new) }
        ensures refused { IfErr result (IsUnsent self.now.messages number) }
    {
        let place = place_of(&self.index, &self.bytes, number)?;
        if let Some((asking, change)) = asking_at(&self.bytes, place, key) {
            return Ok(Asked::Perform(asking, change));
        }
        if let Some(reading) = reading_at(&self.bytes, place, key) {
            return Ok(Asked::Get(reading));
        }
        *other = Some(request_at(&self.bytes, place));
        Ok(Asked::Other)
    }
}

/// What a reply says: the number of the operation, and its answer, lent; or the number of the read, whose value is kept
/// apart.
pub(crate) enum Said<'a> {
    Answered(u64, Option<GivenAnswer<'a>>),
    Found(u64),
    Other,
}

impl Sent<Reply> {
    /// The reply of this number, from 1, if it is of the session that runs: the value of one to a read is put in `value`,
    /// any other than that or an answer in `other`. Refused Unsent where there is none, Stale where it isn't, and NoMemory
    /// for rows alone.
    pub(crate) fn read(
        &self,
        number: u64,
        running: u64,
        value: &mut Option<Value>,
        other: &mut Option<Reply>,
    ) -> Result<Said<'_>, Refusal>
        ensures read { IfOk result (λ said.
            IsHeardApart running self.now.messages number said value.new other.new) }
        ensures refused { IfErr result (λ refusal. IsUnsent self.now.messages number refusal
            ⊎ (IsStale running self.now.messages number refusal
            ⊎ IsUnreadOf running self.now.messages number refusal)) }
    {
        let place = place_of(&self.index, &self.bytes, number)?;
        if running == 0 || session_at(&self.bytes, place) != running {
            return Err(Refusal::Stale);
        }
        if let Some((of, answer)) = answered_at(&self.bytes, place) {
            return Ok(Said::Answered(of, answer));
        }
        if let Some(read) = found_at(&self.bytes, place, value) {
            return Ok(Said::Found(read));
        }
        match reply_at(*self.bytes.allocator(), &self.bytes, place) {
            Ok(reply) => {
                *other = Some(reply);
                Ok(Said::Other)
            }
            Err(refusal) => Err(refusal),
        }
    }
}

impl AnswerSink for Sent<Reply> {
    ghost use Rattle.std.specs.Prelude.{◌≡◌, ◌++◌, ◌∷◌, [], true};
    ghost use Rattle.codec.specs.Fields.{IsNumber};
    ghost use Rattle.codec.specs.declared.reply.Reply.TheVariants as says;
    ghost use Rattle.node_world.specs.Sent.{told_last};

    ghost may_take = { λ sent session number. (IsNumber session × IsNumber number) × (sent.has_room ≡ true) };

    ghost told = { λ sent. told_last sent.messages };

    ghost takes = { λ old session number answer new.
        new.messages ≡ old.messages ++ says.Answered session number answer ∷ [] };

    fn take(&mut self, asker: u64, number: u64, answer: Option<&AnswerRef<'_>>) {
        self.push_reserved(&AnsweredParts {
            session: asker,
            number,
            answer,
        });
    }
}

/// Where the frame of the message of this number begins, from 1. Refused Unsent where there is none.
fn place_of(index: &FrameIndex, bytes: &[u8], number: u64) -> Result<usize, Refusal>
    requires { Indexes bytes.now index.now.marks index.now.count }
    ensures found { IfOk result (λ place. message_at (places_of bytes.now index.now.count) number ≡ Some place) }
    ensures refused { IfErr result (λ refusal. IsUnsent (places_of bytes.now index.now.count) number refusal) }
{
    if number == 0 || number > index.len() as u64 {
        return Err(Refusal::Unsent);
    }
    Ok(index.place(bytes, number as usize - 1))
}
