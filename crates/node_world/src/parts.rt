//! Messages as they are at hand when they are sent: whole, or as parts that stand elsewhere and are lent, so that none
//! is made only to be spelled.
ghost use Rattle.std.specs.Prelude.{◌≡◌, ◌+◌, ◌<◌, ◌++◌, false, length, max, vec_len, vec_capacity, OnOk, OnErr, IfErr};
ghost use Rattle.std.specs.Option.{option_copied, option_map};
ghost use Rattle.record_key.specs.Lent.{answer_lent};
ghost use Rattle.codec.specs.declared.reply.Reply.TheVariants as says;
ghost use Rattle.codec.specs.Fields.{IsNumber};
ghost use Rattle.codec.specs.Frames.{frame};
ghost use Rattle.codec.specs.Parted.{get_of, request_to};
ghost use Rattle.codec.specs.Replies.{IsOrdered};
ghost use Rattle.codec.specs.Requests.{HasRequestNumbers};
ghost use Rattle.node_world.specs.SpelledOp.{op_spelled, SpellsOp};

use crate::message::Message;
use codec::{
    Asking, Reading, Reply, Request, put_answered, put_found, put_get, put_perform, put_reply,
    put_request,
};
use record_key::{AnswerRef, Key, Refusal, ValueRef};

/// A message, whole or in parts.
pub(crate) trait Parts<M: Message> {
    /// The message.
    ghost message: { Self → M };

    /// It may be written.
    ghost may_put: { Self → Type 0 };

    /// Appends the message's frame. Refused NoMemory, only where there was no room for it or for 264 bytes, and nothing is
    /// appended then; one without rows only where there was none for 264.
    fn put(&self, out: &mut Vec<u8>) -> Result<(), Refusal>
        requires { may_put self.now }
        ensures spelling { OnOk result (out.new.items ≡ out.old.items ++ frame (M.spell (message self.now))) }
        ensures spelled { OnOk result (M.is_spelled (message self.now)) }
        ensures refused { OnErr result (out.new.items ≡ out.old.items) }
        ensures cause { IfErr result (λ refusal. refusal ≡ Refusal.NoMemory) }
        ensures short { OnErr result (M.is_long (message self.now) ≡ false
            → vec_capacity out.old < vec_len out.old + 264) }
        ensures lacked { OnErr result (vec_capacity out.old
            < vec_len out.old + max 264 (length (frame (M.spell (message self.now))))) };
}

impl Parts<Request> for Request {
    ghost message = { λ request. request };

    ghost may_put = { HasRequestNumbers };

    fn put(&self, out: &mut Vec<u8>) -> Result<(), Refusal> {
        put_request(out, self)
    }
}

impl Parts<Reply> for Reply {
    ghost message = { λ reply. reply };

    ghost may_put = { IsOrdered };

    fn put(&self, out: &mut Vec<u8>) -> Result<(), Refusal> {
        put_reply(out, self)
    }
}

/// A request to read a key.
#[derive(Drop)]
pub(crate) struct GetParts<'a> {
    pub(crate) reading: Reading,
    pub(crate) key: &'a Key,
}

impl<'a> Parts<Request> for GetParts<'a> {
    ghost message = { λ parts. get_of parts.reading parts.key.now };

    ghost may_put = { λ parts. HasRequestNumbers (get_of parts.reading parts.key.now) };

    fn put(&self, out: &mut Vec<u8>) -> Result<(), Refusal> {
        put_get(out, self.reading.session, self.reading.read, self.key)
    }
}

/// A request to perform the operation that these bytes spell.
#[derive(Drop)]
pub(crate) struct PerformParts<'a> {
    pub(crate) asking: Asking,
    pub(crate) op: &'a [u8],
}

impl<'a> Parts<Request> for PerformParts<'a> {
    ghost message = { λ parts. request_to parts.asking (op_spelled parts.op.now) };

    ghost may_put = { λ parts. SpellsOp parts.asking parts.op.now };

    fn put(&self, out: &mut Vec<u8>) -> Result<(), Refusal> {
        let asking = &self.asking;
        put_perform(out, asking.session, asking.number, asking.stable, self.op)
    }
}

/// The reply that answers an operation so. No answer: it is no longer kept.
#[derive(Drop)]
pub(crate) struct AnsweredParts<'a> {
    pub(crate) session: u64,
    pub(crate) number: u64,
    pub(crate) answer: Option<&'a AnswerRef<'a>>,
}

impl<'a> Parts<Reply> for AnsweredParts<'a> {
    ghost message = { λ parts.
        says.Answered parts.session parts.number (option_map answer_lent (option_copied parts.answer)) };

    ghost may_put = { λ parts. IsNumber parts.session × IsNumber parts.number };

    fn put(&self, out: &mut Vec<u8>) -> Result<(), Refusal> {
        put_answered(out, self.session, self.number, self.answer)
    }
}

/// The reply to a read of a key, which found this value.
#[derive(Drop)]
pub(crate) struct RowParts<'a> {
    pub(crate) reading: Reading,
    pub(crate) value: Option<ValueRef<'a>>,
}

impl<'a> Parts<Reply> for RowParts<'a> {
    ghost message = { λ parts. says.Row parts.reading.session parts.reading.read parts.value };

    ghost may_put = { λ parts. IsNumber parts.reading.session × IsNumber parts.reading.read };

    fn put(&self, out: &mut Vec<u8>) -> Result<(), Refusal> {
        put_found(
            out,
            self.reading.session,
            self.reading.read,
            self.value.as_ref(),
        )
    }
}
