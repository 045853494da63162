//! Whether a log may be rebuilt from: each answer is right, and no checkpoint stands in it.
ghost use Rattle.std.specs.Prelude.{◌≡◌, ◌+◌, ◌∷◌, [], length, IfNone, IfSome, IfOk, OnOk, OnErr, IfErr, IsOkUnless};
ghost use Rattle.history.specs.Legal.{Fits};
ghost use Rattle.node_store.specs.Opening.{HasNoCheckpoint, IsFit, IsWrongIn};
ghost use Rattle.node_store.specs.Judging.{IsJudged};

use crate::unopened::Cause;
use ghost_list::GhostList;
use history::Record;
use log_replay::Replay;
use record_key::Refusal;
use std::alloc::Global;
use std::marker::Model;
use tc_log::Judge;

/// The records of a log that were shown, judged. Once one was wrong the others aren't looked at any more. The log is read
/// on all the same: a bad frame, or a record that doesn't fit, is named rather than one that is wrong.
#[derive(Drop)]
pub struct Judging {
    replay: Replay,
    // Why the log is refused, once a record was wrong.
    wrong: Option<Cause>,
    shown: GhostList<Record>,
}

impl Model for Judging {
    ghost use Rattle.std.specs.Prelude.{List};
    ghost use Rattle.history.specs.declared.record.Record.{Record};
    ghost use Rattle.node_store.specs.Judging.{IsJudged};

    ghost Value = { List Record };

    ghost view = { λ j. j.shown.items };

    ghost invariant = { λ j. IsJudged j.shown.items j.replay j.wrong };
}

impl Judging {
    /// Of no records.
    pub fn new(alloc: Global) -> Judging
        ensures { result ≡ [] }
    {
        Judging {
            replay: Replay::new(alloc),
            wrong: None,
            shown: GhostList::new(),
        }
    }

    /// Why they are refused, none where they are fit: for the first record that is wrong.
    pub fn wrong(&self) -> Option<Cause>
        ensures fit { IfNone result (IsFit self.now) }
        ensures wrong { IfSome result (IsWrongIn self.now) }
    {
        // Called for what it tells of the records: their answers are right.
        self.replay.kept();
        self.wrong
    }
}

impl Judge for Judging {
    ghost shown = { λ it. it };

    fn look(&mut self, next: &Record, number: u64) -> Result<(), Refusal> {
        if self.wrong.is_none() {
            self.wrong = judge(&mut self.replay, next, number)?;
        }
        self.shown = self.shown.with(next);
        Ok(())
    }
}

/// Takes the next record, of this number, or tells why it is the first that is wrong.
fn judge(replay: &mut Replay, next: &Record, number: u64) -> Result<Option<Cause>, Refusal>
    requires fits { Fits replay.old next.now }
    requires number { number ≡ length replay.old + 1 }
    requires unchecked { HasNoCheckpoint replay.old }
    ensures judged { IfOk result (IsJudged (next.now ∷ replay.old) replay.new) }
    ensures memory { IsOkUnless result Refusal.NoMemory }
    ensures unchanged { OnErr result (replay.new ≡ replay.old) }
{
    // Called for what it tells of the records so far: their answers are right.
    replay.kept();
    if let Record::Checkpoint { .. } = next {
        return Ok(Some(Cause::Checkpoint(number)));
    }
    if replay.take(next, number)? {
        Ok(None)
    } else {
        Ok(Some(Cause::WrongAnswer(number)))
    }
}
