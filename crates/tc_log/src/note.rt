//! The index of Answer records.
ghost use Rattle.std.specs.Prelude.{◌≡◌, ◌-◌, ◌<◌, ◌++◌, ◌∷◌, [], Option, vec_len, get_or};
ghost use Rattle.std.specs.Vec.{vec_capacity};
ghost use Rattle.std.specs.Prelude.{is_some};
ghost use Rattle.history.specs.Log.{request_of};
ghost use Rattle.record_key.specs.declared.op.Op.{Op};
ghost use Rattle.tc_log.specs.Appended.{record_of};
ghost use Rattle.tc_log.specs.Index.{noted, NamesWithin, answer_held_by, asks_nothing, first_place as place_first};

use crate::appended::Appended;
use history::Record;
use record_key::Answer;

/// The record has something done to the table.
pub(crate) fn asks(item: &Record) -> bool
    ensures { result ≡ is_some (request_of item.now) }
{
    match item {
        Record::Op { .. } => true,
        Record::Comp { inverse, .. } => inverse.is_some(),
        _ => false,
    }
}

/// The answer that an Answer record holds.
pub(crate) fn answer_held(found: Option<Record>) -> Option<Answer>
    ensures { result ≡ answer_held_by found }
{
    match found {
        Some(Record::Answer { answer, .. }) => Some(answer),
        _ => None,
    }
}

/// No record's number. The index holds it for each record that asks for nothing.
pub(crate) const ASKS_NOTHING: u64 = u64::MAX;

/// What the index holds for this number: 0 while an answer is to come, and no record's number if none ever is.
pub(crate) fn answer_place(answers: &[u64], number: u64) -> u64
    requires { 0 < number }
    ensures { result ≡ get_or answers.now (number - 1) asks_nothing }
{
    match answers.get(number as usize - 1) {
        Some(place) => *place,
        None => ASKS_NOTHING,
    }
}

/// What the index holds for a record that is appended, which asks for something or not.
fn first_place(asks: bool) -> u64
    ensures { (asked : Option Op) → asks ≡ is_some asked → result ≡ place_first asked }
{
    if asks { 0 } else { ASKS_NOTHING }
}

/// Notes that a record of this number is appended.
#[inline(always)]
pub(crate) fn note(answers: &mut Vec<u64>, appended: &Appended<'_>, number: u64)
    requires names { NamesWithin (record_of appended.now) (vec_len answers.old) }
    requires room { vec_len answers.old < vec_capacity answers.old }
    ensures { answers.new.items ≡ noted (record_of appended.now) number answers.old.items }
{
    match appended {
        Appended::Answer { of, .. } | Appended::Whole(Record::Answer { of, .. }) => {
            answers[*of as usize - 1] = number;
        }
        _ => {}
    }
    answers.push_reserved(first_place(appended.asks()));
}

/// The same of a Comp record, which asks for something or not.
pub(crate) fn note_comp(answers: &mut Vec<u64>, asks: bool)
    requires room { vec_len answers.old < vec_capacity answers.old }
    ensures { (asked : Option Op) → asks ≡ is_some asked
        → answers.new.items ≡ answers.old.items ++ place_first asked ∷ [] }
{
    answers.push_reserved(first_place(asks));
}
