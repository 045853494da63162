//! What a reply is to a session and to a transaction.
ghost use Rattle.std.specs.Prelude.{◌≡◌, Option, Some};
ghost use Rattle.std.specs.Option.{option_map};
ghost use Rattle.record_key.specs.declared.op.Answer.{Answer as AnswerValue};
ghost use Rattle.codec.specs.Given.{answer_given};
ghost use Rattle.tc_core.specs.Heard.{told_with};
ghost use Rattle.tc_core.specs.Replies.{takes as is_taken, told_of, told_lost, left_awaited, span_read, is_key, is_range};

use crate::open_txn::OpenTxn;
use crate::phase::Phase;
use crate::told::Heard;
use codec::GivenAnswer;
use history::Record;
use record_key::Answer;
use tc_locks::Span;

/// Whether the answer of this number is taken: clients are served, or redo waits for it.
pub fn takes(session: u64, phase: Phase, number: u64) -> bool
    ensures { result ≡ is_taken session phase number }
{
    match phase {
        Phase::Unconnected | Phase::Connecting => false,
        Phase::Redoing { next, .. } => next == number && number < session,
        Phase::Undoing { .. } | Phase::Running => true,
    }
}

/// Whether it waits for the value of one key.
pub fn reads_key(asker: &OpenTxn) -> bool
    ensures { result ≡ is_key (span_read asker.now.reading) }
{
    matches!(&asker.reading, Some(read) if matches!(&read.span, Span::Key(_)))
}

/// Whether it waits for the rows of a range.
pub fn reads_range(asker: &OpenTxn) -> bool
    ensures { result ≡ is_range (span_read asker.now.reading) }
{
    matches!(&asker.reading, Some(read) if matches!(&read.span, Span::Range { .. }))
}

/// The answer of a reply, lent.
pub fn lent(answer: &Option<Answer>) -> Option<GivenAnswer<'_>>
    ensures { option_map answer_given result ≡ answer.now }
{
    match answer {
        Some(answer) => Some(GivenAnswer::Whole(answer)),
        None => None,
    }
}

/// What is heard of an answer: nothing where it is a compensation's.
pub fn heard_of(asker: &OpenTxn, number: u64) -> Heard
    ensures { (a : AnswerValue) → told_with (Some a) result ≡ told_of asker.now number a }
{
    if asker.rolling.is_some() {
        Heard::Undone(number)
    } else {
        Heard::Answered(asker.txn)
    }
}

/// What is heard of a loser's answer: that its compensation was performed.
pub fn heard_lost(item: Option<Record>, number: u64) -> Heard
    ensures { (a : Option AnswerValue) → told_with a result ≡ told_lost item number }
{
    match item {
        Some(Record::Comp { .. }) => Heard::Undone(number),
        _ => Heard::Nothing,
    }
}

/// What is awaited still once this number was answered.
pub fn left_waiting(waiting: Option<u64>, number: u64) -> Option<u64>
    ensures { result ≡ left_awaited waiting number }
{
    match waiting {
        Some(awaited) if awaited != number => waiting,
        _ => None,
    }
}
