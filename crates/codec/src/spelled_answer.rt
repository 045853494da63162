//! An answer handed on as the bytes that spell it: from a reply into the log, by one copy.
ghost use Rattle.std.specs.Prelude.{◌≡◌, ◌+◌, ◌<◌, ◌≤◌, ◌++◌, length, vec_len, vec_capacity, OnOk, OnErr, IfErr};
ghost use Rattle.std.specs.Option.{option_map};
ghost use Rattle.history.specs.declared.record.Record.TheVariants as is;
ghost use Rattle.codec.specs.Fields.{answer_bytes, IsAnswer};
ghost use Rattle.codec.specs.Frames.{frame};
ghost use Rattle.codec.specs.Given.{answer_given};
ghost use Rattle.codec.specs.Reading.{Gives, optional_at, answer_at};
ghost use Rattle.codec.specs.Records.{record_bytes, HasNumbers, IsRecord};

use crate::frame::HEADER_LEN;
use crate::reading::{take_answer, take_flag};
use crate::record::put_answer_record;
use crate::writing::{put_bytes, put_start};
use record_key::{Answer, Refusal};
use std::marker::Model;

/// An answer where the bytes that spell it stand.
#[derive(Debug, Drop)]
pub struct SpelledAnswer<'a> {
    bytes: &'a [u8],
}

impl<'a> Model for SpelledAnswer<'a> {
    ghost use Rattle.record_key.specs.declared.op.Answer as owned;
    ghost use Rattle.codec.specs.Parted.{answer_in, SpellAnswer};

    ghost Value = { owned.Answer };

    ghost view = { λ s. answer_in s.bytes.now };

    ghost invariant = { λ s. SpellAnswer s.bytes.now };
}

impl<'a> SpelledAnswer<'a> {
    /// An answer of its own.
    pub fn owned(&self) -> Answer
        ensures { result ≡ self.now }
    {
        match take_answer(self.bytes) {
            Some((answer, _)) => answer.owned(),
            None => unreachable!(),
        }
    }

    /// The bytes that spell it.
    fn as_bytes(&self) -> &'a [u8]
        ensures bytes { result.now ≡ answer_bytes self.now }
        ensures spelled { IsAnswer self.now }
        ensures short { length result.now ≤ 122 }
    {
        self.bytes
    }
}

/// An answer that is handed on: as a value, or as its spelling.
#[derive(Debug, Drop)]
pub enum GivenAnswer<'a> {
    Whole(&'a Answer),
    Spelled(SpelledAnswer<'a>),
}

impl<'a> GivenAnswer<'a> {
    /// An answer of its own.
    pub fn owned(&self) -> Answer
        ensures { result ≡ answer_given self.now }
    {
        match self {
            GivenAnswer::Whole(answer) => answer.copied(),
            GivenAnswer::Spelled(answer) => answer.owned(),
        }
    }
}

/// The answer at the front, and the bytes after it.
fn take_spelled(bytes: &[u8]) -> Option<(SpelledAnswer<'_>, &[u8])>
    ensures { Gives (λ x. (x.0, x.1.now)) result (answer_at bytes.now) }
{
    let (_, rest) = take_answer(bytes)?;
    let (answer, rest) = bytes.split_at(bytes.len() - rest.len());
    Some((SpelledAnswer { bytes: answer }, rest))
}

pub(crate) fn take_optional_spelled(bytes: &[u8]) -> Option<(Option<GivenAnswer<'_>>, &[u8])>
    ensures { Gives (λ x. (option_map answer_given x.0, x.1.now)) result (optional_at answer_at bytes.now) }
{
    let (is_there, rest) = take_flag(bytes)?;
    if !is_there {
        return Some((None, rest));
    }
    let (answer, rest) = take_spelled(rest)?;
    Some((Some(GivenAnswer::Spelled(answer)), rest))
}

/// Appends the frame of an Answer record. Where memory for it is refused nothing is appended.
pub fn put_given_answer(out: &mut Vec<u8>, of: u64, answer: &GivenAnswer<'_>) -> Result<(), Refusal>
    requires { HasNumbers (is.Answer of (answer_given answer.now)) }
    ensures spelling { OnOk result (out.new.items
        ≡ out.old.items ++ frame (record_bytes (is.Answer of (answer_given answer.now)))) }
    ensures refused { OnErr result (out.new.items ≡ out.old.items) }
    ensures cause { IfErr result (λ refusal. refusal ≡ Refusal.NoMemory) }
    ensures room { OnErr result (vec_capacity out.old
        < vec_len out.old + length (frame (record_bytes (is.Answer of (answer_given answer.now))))) }
    ensures has_spelling { IsRecord (is.Answer of (answer_given answer.now)) }
{
    match answer {
        GivenAnswer::Whole(answer) => put_answer_record(out, of, &answer.lent()),
        GivenAnswer::Spelled(answer) => put_spelled_answer(out, of, answer),
    }
}

/// The same of an answer that is spelled.
#[tactic(auto, unfolding(crate::specs::Records::record_bytes), using(crate::proofs::Numbered::number_lengths))]
fn put_spelled_answer(out: &mut Vec<u8>, of: u64, answer: &SpelledAnswer<'_>) -> Result<(), Refusal>
    requires { HasNumbers (is.Answer of answer.now) }
    ensures spelling { OnOk result (out.new.items ≡ out.old.items ++ frame (record_bytes (is.Answer of answer.now))) }
    ensures refused { OnErr result (out.new.items ≡ out.old.items) }
    ensures cause { IfErr result (λ refusal. refusal ≡ Refusal.NoMemory) }
    ensures room { OnErr result (vec_capacity out.old
        < vec_len out.old + length (frame (record_bytes (is.Answer of answer.now)))) }
    ensures has_spelling { IsRecord (is.Answer of answer.now) }
{
    let spelled = answer.as_bytes();
    let length = 9 + spelled.len();
    out.reserve(HEADER_LEN + length)?;
    put_start(out, length, 4, of);
    put_bytes(out, spelled);
    Ok(())
}
