//! The check of a log's answers.
ghost use Rattle.std.specs.Prelude.{◌≡◌, ◌+◌, ◌∷◌, ◌↔◌, [], None, length, IsTrue, IfOk, IfErr, OnErr, if◌then◌else◌};
ghost use Rattle.std.specs.Option.{option_copied};
ghost use Rattle.history.specs.Legal.{Fits};
ghost use Rattle.history.specs.Log.{answer_of};
ghost use Rattle.history.specs.Values.{IsRight, HasRightAnswers};
ghost use Rattle.log_replay.specs.Kept.{due_at};

use crate::following::follow;
use ghost_list::GhostList;
use history::Record;
use record_key::{Answer, Key, Refusal, Value};
use std::alloc::Global;
use std::collections::BTreeMap;
use std::marker::Model;

/// The records of a log so far, the newest first, whose answers are right. Of the records it keeps just what they leave
/// at each key, and what each request without an answer gets.
#[derive(Drop)]
pub struct Replay {
    values: BTreeMap<Key, Value>,
    // By its number what each request gets that has no answer yet.
    dues: BTreeMap<u64, Answer>,
    taken: GhostList<Record>,
}

impl Model for Replay {
    ghost use Rattle.std.specs.Prelude.{List};
    ghost use Rattle.history.specs.declared.record.Record.{Record};
    ghost use Rattle.log_replay.specs.Kept.{IsReplay};

    ghost Value = { List Record };

    ghost view = { λ r. r.taken.items };

    ghost invariant = { λ r. IsReplay r.taken.items r.values r.dues };
}

impl Replay {
    /// Of no records. Takes no memory; the allocator serves later ones.
    pub fn new(alloc: Global) -> Replay
        ensures { result ≡ [] }
    {
        Replay {
            values: BTreeMap::new(alloc),
            dues: BTreeMap::new(alloc),
            taken: GhostList::new(),
        }
    }

    /// Takes the next record, of this number, which fits those before it. False where it is an Answer that its operation
    /// doesn't get; then, and where refused NoMemory, nothing has changed.
    pub fn take(&mut self, next: &Record, number: u64) -> Result<bool, Refusal>
        requires fits { Fits self.old next.now }
        requires number { number ≡ length self.old + 1 }
        ensures right { IfOk result (λ right. IsTrue right ↔ HasRightAnswers (next.now ∷ self.old)) }
        ensures taken { IfOk result (λ right. self.new ≡ (if right then next.now ∷ self.old else self.old)) }
        ensures refused { IfErr result (λ refusal. refusal ≡ Refusal.NoMemory) }
        ensures unchanged { OnErr result (self.new ≡ self.old) }
    {
        if !self.fits(next) {
            return Ok(false);
        }
        follow(&mut self.values, &mut self.dues, &self.taken, next, number)?;
        self.taken = self.taken.with(next);
        Ok(true)
    }

    /// The answers of the records that were taken are right.
    pub fn kept(&self)
        ensures { HasRightAnswers self.now }
    {
        let _ = &self.values;
    }

    /// The answers are right with this record too.
    fn fits(&self, next: &Record) -> bool
        requires { Fits self.now next.now }
        ensures { IsTrue result ↔ HasRightAnswers (next.now ∷ self.now) }
    {
        self.kept();
        match next {
            Record::Answer { of, answer } => self.is_right(*of, answer),
            _ => true,
        }
    }

    fn is_right(&self, of: u64, answer: &Answer) -> bool
        requires { answer_of self.now of ≡ None }
        ensures { IsTrue result ↔ IsRight self.now of answer.now }
    {
        match self.due(of) {
            Some(due) => answer == due,
            None => true,
        }
    }

    /// What the record of this number gets, which has no answer.
    fn due(&self, number: u64) -> Option<&Answer>
        requires { answer_of self.now number ≡ None }
        ensures { option_copied result ≡ due_at self.now number }
    {
        self.dues.get(&number)
    }
}
