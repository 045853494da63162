//! Messages that are handed to a component and stand in an entry too.
ghost use Rattle.std.specs.Prelude.{◌≡◌, IfOk};
ghost use Rattle.std.specs.Option.{option_map};
ghost use Rattle.codec.specs.Given.{answer_given};

use codec::{GivenAnswer, Reply};
use record_key::{Answer, Value};
use std::alloc::AllocError;

/// The same reply again. Only rows take memory.
pub fn copied(reply: &Reply) -> Result<Reply, AllocError>
    ensures { IfOk result (λ copy. copy ≡ reply.now) }
{
    match reply {
        Reply::Connected { session } => Ok(Reply::Connected { session: *session }),
        Reply::Answered {
            session,
            number,
            answer,
        } => Ok(Reply::Answered {
            session: *session,
            number: *number,
            answer: copied_answer(answer),
        }),
        Reply::Row {
            session,
            read,
            value,
        } => Ok(Reply::Row {
            session: *session,
            read: *read,
            value: copied_value(value),
        }),
        Reply::Rows {
            session,
            read,
            rows,
        } => Ok(Reply::Rows {
            session: *session,
            read: *read,
            rows: rows.copied()?,
        }),
        Reply::Checkpointed { session, low } => Ok(Reply::Checkpointed {
            session: *session,
            low: *low,
        }),
        Reply::RedoEnded { session } => Ok(Reply::RedoEnded { session: *session }),
    }
}

/// The answer of a reply, lent.
pub(crate) fn lent(answer: &Option<Answer>) -> Option<GivenAnswer<'_>>
    ensures { option_map answer_given result ≡ answer.now }
{
    match answer {
        Some(answer) => Some(GivenAnswer::Whole(answer)),
        None => None,
    }
}

// The answer again. Takes no memory.
fn copied_answer(answer: &Option<Answer>) -> Option<Answer>
    ensures { result ≡ answer.now }
{
    match answer {
        Some(answer) => Some(answer.copied()),
        None => None,
    }
}

/// The value again. Takes no memory.
pub fn copied_value(value: &Option<Value>) -> Option<Value>
    ensures { result ≡ value.now }
{
    match value {
        Some(value) => Some(value.copied()),
        None => None,
    }
}
